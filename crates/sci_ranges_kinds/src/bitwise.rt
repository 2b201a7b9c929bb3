// LOGICAL_OP on bits, SHIFT, BITSET, BITCLEAR, EXTRACTBITS.
ghost use Rattle.std.specs.Prelude.{◌≡◌, ◌<◌, ◌-◌, ◌^◌, ◌≤ℤ◌, true, [], unwrap_or, length, pos, unsigned_abs, option_map, if◌then◌else◌};
ghost use Rattle.std.specs.Int.{int_rem_euclid};
ghost use Rattle.sci_base.specs.Fit.{width, span, int_eq};
ghost use Rattle.sci_forms.specs.declared.Kind.TheVariants.{LogicalOp as LogicalOpKind, Shift as ShiftKind, BitSet as BitSetKind};
ghost use Rattle.sci_forms.specs.declared.Kind.TheVariants.{BitClear as BitClearKind, ExtractBits as ExtractBitsKind};
ghost use Rattle.sci_forms.specs.Typed.{typed};
ghost use Rattle.sci_forms.specs.Words.{param, size, out_type};
ghost use Rattle.sci_ranges_base.specs.Cells.{nothing, valued};
ghost use Rattle.sci_ranges_rules.specs.Patterns.{numbers_of};
ghost use Rattle.sci_ranges_rules.specs.Rules.{cells_of};
ghost use Rattle.sci_ranges_rules.specs.Words.{input_range, all_joined, turned_by, from_zero, set_bits, kept_bits, shifted_range, turned_range};

use crate::patterns::{
    and_patterns, extracted, joined_by, numbers_of, one_pattern, ones, or_patterns, patterns_of,
    turned_by, turned_patterns,
};
use crate::products::below_zero;
use crate::words::{count, input_range, out_type, range_at};
use sci_base::Ty;
use sci_base::bits::two_to;
use sci_forms::values::is_equal;
use sci_kinds::Spec;
use sci_ranges_base::fitting::wrapped_up_to;
use sci_ranges_base::{Cells, Interval, Wide, join};

/// The operation at each bit of the inputs' patterns.
pub fn logical_bits(spec: &Spec, ins: &[Option<Interval>], e: usize) -> Option<Cells>
    requires kind { spec.now.kind ≡ LogicalOpKind }
    requires is_typed { typed spec.now ≡ true }
    requires element { e < size spec.now }
    ensures { unwrap_or result nothing ≡ valued (option_map (λ p. numbers_of (out_type spec.now)
        (turned_by (out_type spec.now) (param spec.now 0) p))
        (all_joined (out_type spec.now) (param spec.now 0) (λ k. input_range (size spec.now) ins.now k e) (length spec.now.ins - 1))) }
{
    let ty = out_type(spec);
    let op = spec.params.at(0);
    let first = input_range(spec, ins, 0, e)?;
    let mut all = patterns_of(ty, first);
    for k in 1..spec.ins.len() {
        let i = input_range(spec, ins, k, e)?;
        let more = patterns_of(ty, i);
        all = joined_by(ty, op, all, more);
    }
    let turned = turned_by(ty, op, all);
    Some(Cells::of(numbers_of(ty, turned)))
}

/// 2 to so many places.
fn power(places: i64) -> i64
    requires { unsigned_abs places < 32 }
    ensures value { result ≡ pos (2 ^ unsigned_abs places) }
    ensures some { pos 1 ≤ℤ result }
    ensures few { result ≤ℤ pos 4294967296 }
{
    two_to(places.unsigned_abs() as u32) as i64
}

/// Each number times 2 to the `places`; what wraps is a multiple of it.
fn shifted_range(ty: Ty, places: i64, i: Interval) -> Interval
    requires { unsigned_abs places < width ty }
    ensures { result ≡ shifted_range ty places i }
{
    let factor = power(places);
    if places < 0 {
        let least = i.least.div_euclid(factor);
        let greatest = i.greatest.div_euclid(factor);
        Interval::new(least, greatest)
    } else {
        let most = ty.high() + 1 - factor;
        let wide = Wide::of(i).times(factor);
        wrapped_up_to(ty, most, wide)
    }
}

/// How many places to the left so many are, within a type's width.
fn places_left(ty: Ty, places: i64) -> u32
    ensures value { result ≡ unsigned_abs (int_rem_euclid places (pos (width ty))) }
    ensures few { result < width ty }
{
    places.rem_euclid(i64::from(ty.width())).unsigned_abs() as u32
}

/// The pattern of each turned left.
fn turned_range(ty: Ty, places: i64, i: Interval) -> Interval
    ensures { result ≡ turned_range ty places i }
{
    let left = places_left(ty, places);
    let patterns = patterns_of(ty, i);
    let turned = turned_patterns(ty, patterns, left);
    numbers_of(ty, turned)
}

/// Each number shifted, or its pattern turned, by a code.
fn moved_range(ty: Ty, places: i64, code: i64, i: Interval) -> Interval
    requires { unsigned_abs places < width ty }
    ensures { result ≡ (if int_eq code (pos 0) then shifted_range ty places i else turned_range ty places i) }
{
    if is_equal(code, 0) {
        shifted_range(ty, places, i)
    } else {
        turned_range(ty, places, i)
    }
}

pub fn shift(spec: &Spec, ins: &[Option<Interval>], e: usize) -> Option<Cells>
    requires kind { spec.now.kind ≡ ShiftKind }
    requires is_typed { typed spec.now ≡ true }
    ensures { unwrap_or result nothing ≡ cells_of ShiftKind spec.now [] [] ins.now e }
{
    let i = range_at(ins, e)?;
    let ty = out_type(spec);
    let places = spec.params.at(0);
    let code = spec.params.at(1);
    let range = moved_range(ty, places, code, i);
    Some(Cells::of(range))
}

/// The numbers that are not below 0.
fn from_zero(i: Interval) -> Option<Interval>
    ensures { result ≡ from_zero i }
{
    Interval::between(i.least.max(0), i.greatest)
}

/// Each number of a part, if there is one, with these bits made 1.
fn set_bits(ty: Ty, bits: u64, part: Option<Interval>) -> Option<Interval>
    requires { bits < span ty }
    ensures { result ≡ option_map (set_bits ty bits) part }
{
    let i = part?;
    let patterns = patterns_of(ty, i);
    let others = one_pattern(bits);
    let joined = or_patterns(ty, patterns, others);
    Some(numbers_of(ty, joined))
}

/// Each number of a part with these bits alone.
fn kept_bits(ty: Ty, bits: u64, part: Option<Interval>) -> Option<Interval>
    requires { bits < span ty }
    ensures { result ≡ option_map (kept_bits ty bits) part }
{
    let i = part?;
    let patterns = patterns_of(ty, i);
    let others = one_pattern(bits);
    let joined = and_patterns(ty, patterns, others);
    Some(numbers_of(ty, joined))
}

pub fn bit_set(spec: &Spec, ins: &[Option<Interval>], e: usize) -> Option<Cells>
    requires kind { spec.now.kind ≡ BitSetKind }
    requires is_typed { typed spec.now ≡ true }
    ensures { unwrap_or result nothing ≡ cells_of BitSetKind spec.now [] [] ins.now e }
{
    let i = range_at(ins, e)?;
    let ty = out_type(spec);
    let bit = count(spec, 0);
    let bits = two_to(bit);
    let below = set_bits(ty, bits, below_zero(i));
    let rest = set_bits(ty, bits, from_zero(i));
    let all = join(below, rest);
    Some(Cells::valued(all))
}

pub fn bit_clear(spec: &Spec, ins: &[Option<Interval>], e: usize) -> Option<Cells>
    requires kind { spec.now.kind ≡ BitClearKind }
    requires is_typed { typed spec.now ≡ true }
    ensures { unwrap_or result nothing ≡ cells_of BitClearKind spec.now [] [] ins.now e }
{
    let i = range_at(ins, e)?;
    let ty = out_type(spec);
    let bit = count(spec, 0);
    let others = ones(ty);
    let bits = others - two_to(bit);
    let below = kept_bits(ty, bits, below_zero(i));
    let rest = kept_bits(ty, bits, from_zero(i));
    let all = join(below, rest);
    Some(Cells::valued(all))
}

pub fn extract_bits(spec: &Spec, ins: &[Option<Interval>], e: usize) -> Option<Cells>
    requires kind { spec.now.kind ≡ ExtractBitsKind }
    requires is_typed { typed spec.now ≡ true }
    ensures { unwrap_or result nothing ≡ cells_of ExtractBitsKind spec.now [] [] ins.now e }
{
    let i = range_at(ins, e)?;
    let ty = out_type(spec);
    let a = count(spec, 0);
    let b = count(spec, 1);
    let patterns = patterns_of(ty, i);
    let bits = extracted(patterns, a, b);
    Some(Cells::of(numbers_of(ty, bits)))
}
