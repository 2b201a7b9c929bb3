// The numbers on which a switch takes an input, and those that may compare as it is known.
ghost use Rattle.std.specs.Prelude.{◌≡◌, ◌≤ℤ◌, ◌+ℤ◌, ◌-ℤ◌, ◌^◌, ◌<◌, pos, negsuc, true, nat_eq, if◌then◌else◌, option_and_then};
ghost use Rattle.sci_base.specs.Fit.{int_eq, low, high};
ghost use Rattle.sci_forms.specs.Typed.{typed};
ghost use Rattle.sci_forms.specs.Words.{param, in_type};
ghost use Rattle.sci_ranges_base.specs.Intervals.{between};
ghost use Rattle.sci_ranges_rules.specs.Words.{opposite, mirrored, related};
ghost use Rattle.sci_ranges_rules.specs.Rules.{compared};
ghost use Rattle.sci_ranges_refined.specs.Choices.{is_switch, from_on, up_to, without, first_numbers, third_numbers, taken_numbers};

use sci_base::Ty;
use sci_forms::values::is_equal;
use sci_kinds::Spec;
use sci_ranges_base::Interval;

// ---- where a switch looks at the input itself

/// The numbers of an interval from `v` on.
fn from_on(v: i64, i: Interval) -> Option<Interval>
    ensures { result ≡ from_on v i }
{
    Interval::between(i.least.max(v), i.greatest)
}

/// Those up to `v`.
fn up_to(v: i64, i: Interval) -> Option<Interval>
    ensures { result ≡ up_to v i }
{
    Interval::between(i.least, i.greatest.min(v))
}

/// Those greater than `v`.
fn greater_than(v: i64, i: Interval) -> Option<Interval>
    requires { v ≤ℤ pos (2 ^ 32) }
    ensures { result ≡ from_on (v +ℤ pos 1) i }
{
    from_on(v + 1, i)
}

/// Those less than `v`.
fn less_than(v: i64, i: Interval) -> Option<Interval>
    requires { negsuc (2 ^ 31) ≤ℤ v }
    ensures { result ≡ up_to (v -ℤ pos 1) i }
{
    up_to(v - 1, i)
}

/// The least number of an interval without `v`.
fn least_without(v: i64, i: Interval) -> i64
    requires { v ≤ℤ pos (2 ^ 32) }
    ensures { result ≡ (if int_eq i.least v then v +ℤ pos 1 else i.least) }
{
    if is_equal(i.least, v) { v + 1 } else { i.least }
}

/// The greatest one.
fn greatest_without(v: i64, i: Interval) -> i64
    requires { negsuc (2 ^ 31) ≤ℤ v }
    ensures { result ≡ (if int_eq i.greatest v then v -ℤ pos 1 else i.greatest) }
{
    if is_equal(i.greatest, v) {
        v - 1
    } else {
        i.greatest
    }
}

/// All but `v`, where that is an end.
fn without(v: i64, i: Interval) -> Option<Interval>
    requires least { negsuc (2 ^ 31) ≤ℤ v }
    requires greatest { v ≤ℤ pos (2 ^ 32) }
    ensures { result ≡ without v i }
{
    let least = least_without(v, i);
    let greatest = greatest_without(v, i);
    Interval::between(least, greatest)
}

/// Those on which a switch takes its first input.
fn first_numbers(code: i64, number: i64, i: Interval) -> Option<Interval>
    requires least { negsuc (2 ^ 31) ≤ℤ number }
    requires greatest { number ≤ℤ pos (2 ^ 32) }
    ensures { result ≡ first_numbers code number i }
{
    match code {
        0 => from_on(number, i),
        1 => greater_than(number, i),
        _ => without(number, i),
    }
}

/// Those on which it takes its third.
fn third_numbers(code: i64, number: i64, i: Interval) -> Option<Interval>
    requires { negsuc (2 ^ 31) ≤ℤ number }
    ensures { result ≡ third_numbers code number i }
{
    match code {
        0 => less_than(number, i),
        1 => up_to(number, i),
        _ => i.met(Interval::one(number)),
    }
}

/// Those on which it takes its first, or its third.
fn taken_numbers(spec: &Spec, first: bool, i: Interval) -> Option<Interval>
    requires is_typed { typed spec.now ≡ true }
    requires switch { is_switch spec.now.kind ≡ true }
    ensures { result ≡ taken_numbers spec.now first i }
{
    let code = spec.params.at(0);
    let number = spec.params.at(1);
    if first {
        first_numbers(code, number, i)
    } else {
        third_numbers(code, number, i)
    }
}

/// The same of an interval that may be.
pub fn taken_of(spec: &Spec, first: bool, o: Option<Interval>) -> Option<Interval>
    requires is_typed { typed spec.now ≡ true }
    requires switch { is_switch spec.now.kind ≡ true }
    ensures { result ≡ option_and_then (taken_numbers spec.now first) o }
{
    match o {
        Some(i) => taken_numbers(spec, first, i),
        None => None,
    }
}

// ---- where it looks at a comparison of the input

/// The relation that holds where another doesn't.
fn opposite(op: i64) -> i64
    ensures { result ≡ opposite op }
{
    match op {
        0 => 1,
        1 => 0,
        2 => 5,
        3 => 4,
        4 => 3,
        _ => 2,
    }
}

/// The relation of two numbers the other way round.
fn mirrored(op: i64) -> i64
    ensures { result ≡ mirrored op }
{
    match op {
        2 => 4,
        3 => 5,
        4 => 2,
        5 => 3,
        _ => op,
    }
}

/// The numbers of a type that are less than one of these.
fn below(ty: Ty, j: Interval) -> Option<Interval>
    ensures { result ≡ between (low ty) (j.greatest -ℤ pos 1) }
{
    let least = ty.low();
    if j.greatest <= least {
        return None;
    }
    Interval::between(least, j.greatest - 1)
}

/// Those that are greater than one of these.
fn above(ty: Ty, j: Interval) -> Option<Interval>
    ensures { result ≡ between (j.least +ℤ pos 1) (high ty) }
{
    let greatest = ty.high();
    if greatest <= j.least {
        return None;
    }
    Interval::between(j.least + 1, greatest)
}

/// The numbers of a type of which a relation may hold to one of these.
fn related(op: i64, ty: Ty, j: Interval) -> Option<Interval>
    ensures { result ≡ related op ty j }
{
    match op {
        0 => Some(j),
        2 => below(ty, j),
        3 => Interval::between(ty.low(), j.greatest),
        4 => above(ty, j),
        5 => Interval::between(j.least, ty.high()),
        _ => Some(Interval::whole(ty)),
    }
}

/// The type of the first input.
fn in_type(spec: &Spec) -> Ty
    ensures { result ≡ in_type spec.now }
{
    spec.ins.port(0).kind_of_type()
}

/// The relation that is known to hold of the two inputs of a comparison.
fn known_relation(spec: &Spec, holds: bool) -> i64
    ensures { result ≡ (if holds then param spec.now 0 else opposite (param spec.now 0)) }
{
    let op = spec.params.at(0);
    if holds { op } else { opposite(op) }
}

/// The relation of its first input to the other, or of its second.
fn relation_of(op: i64, k: u32) -> i64
    ensures { result ≡ (if nat_eq k 0 then op else mirrored op) }
{
    if k == 0 { op } else { mirrored(op) }
}

/// The numbers that input `k` of a comparison, from 0, may have, where it is known to hold, or not, and the other input has these.
fn compared(spec: &Spec, k: u32, holds: bool, j: Interval) -> Option<Interval>
    ensures { result ≡ compared spec.now k holds j }
{
    let op = relation_of(known_relation(spec, holds), k);
    related(op, in_type(spec), j)
}

/// The same of an interval that may be.
pub fn compared_of(spec: &Spec, k: u32, holds: bool, other: Option<Interval>) -> Option<Interval>
    ensures { result ≡ option_and_then (compared spec.now k holds) other }
{
    match other {
        Some(j) => compared(spec, k, holds, j),
        None => None,
    }
}
