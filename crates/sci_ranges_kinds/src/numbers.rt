// ABS_VALUE, SIGNUM, MAXMIN, SATURATION, DEADBAND, CONVERT, RELATIONALOP.
ghost use Rattle.sci_ranges_base.specs.Intervals.{IsIn, exact, from_to};
ghost use Rattle.sci_forms.specs.Words.{size};
ghost use Rattle.std.specs.Prelude.{◌≡◌, ◌<◌, true, [], unwrap_or, if◌then◌else◌};
ghost use Rattle.sci_forms.specs.declared.Kind.TheVariants.{AbsValue as AbsValueKind, Signum as SignumKind, MaxMin as MaxMinKind};
ghost use Rattle.sci_forms.specs.declared.Kind.TheVariants.{Saturation as SaturationKind, DeadBand as DeadBandKind, Convert as ConvertKind};
ghost use Rattle.sci_forms.specs.declared.Kind.TheVariants.{RelationalOp as RelationalOpKind};
ghost use Rattle.sci_forms.specs.declared.spec.Spec.{Spec};
ghost use Rattle.sci_forms.specs.Typed.{typed};
ghost use Rattle.sci_ranges_base.specs.Cells.{nothing};
ghost use Rattle.sci_ranges_rules.specs.Rules.{cells_of};
ghost use Rattle.sci_kinds.specs.Table.{brought};
ghost use Rattle.std.specs.Int.{int_min, int_max};
ghost use Rattle.sci_ranges_base.specs.Wide.{numbers};
ghost use Rattle.sci_ranges_rules.specs.Words.{magnitudes, beyond, may_hold, opposite, relation_range};

use crate::words::{fitted_out, input_range, range_at, truth};
use sci_forms::values::is_equal;
use sci_kinds::Spec;
use sci_ranges_base::{Cells, Interval, Wide};

/// How far each number is from 0.
fn magnitudes(i: Interval) -> Wide
    ensures { numbers result ≡ magnitudes i }
{
    let a = i128::from(i.least).abs();
    let b = i128::from(i.greatest).abs();
    if i.has(0) {
        Wide::new(0, a.max(b))
    } else {
        Wide::new(a.min(b), a.max(b))
    }
}

pub fn abs_value(spec: &Spec, ins: &[Option<Interval>], e: usize) -> Option<Cells>
    ensures { unwrap_or result nothing ≡ cells_of AbsValueKind spec.now [] [] ins.now e }
{
    let i = range_at(ins, e)?;
    Some(fitted_out(spec, magnitudes(i)))
}

pub fn signum(ins: &[Option<Interval>], e: usize) -> Option<Cells>
    ensures { (s : Spec) → unwrap_or result nothing ≡ cells_of SignumKind s [] [] ins.now e }
{
    let i = range_at(ins, e)?;
    Some(Cells::of(Interval::new(i.least.signum(), i.greatest.signum())))
}

/// The lesser ends of two intervals, or the greater ones.
fn picked(least: bool, i: Interval, j: Interval) -> Interval
    ensures { result ≡ from_to ((if least then int_min else int_max) i.least j.least) ((if least then int_min else int_max) i.greatest j.greatest) }
{
    if least {
        Interval::new(i.least.min(j.least), i.greatest.min(j.greatest))
    } else {
        Interval::new(i.least.max(j.least), i.greatest.max(j.greatest))
    }
}

pub fn max_min(spec: &Spec, ins: &[Option<Interval>], e: usize) -> Option<Cells>
    requires kind { spec.now.kind ≡ MaxMinKind }
    requires is_typed { typed spec.now ≡ true }
    requires element { e < size spec.now }
    ensures { unwrap_or result nothing ≡ cells_of MaxMinKind spec.now [] [] ins.now e }
{
    let least = is_equal(spec.params.at(0), 1);
    let mut all = input_range(spec, ins, 0, e)?;
    for k in 1..spec.ins.len() {
        let i = input_range(spec, ins, k, e)?;
        all = picked(least, all, i);
    }
    Some(Cells::of(all))
}

/// A number brought into a range.
fn brought(low: i64, high: i64, v: i64) -> i64
    ensures { result ≡ brought low high v }
{
    if v < low {
        low
    } else if high < v {
        high
    } else {
        v
    }
}

pub fn saturation(spec: &Spec, ins: &[Option<Interval>], e: usize) -> Option<Cells>
    ensures { unwrap_or result nothing ≡ cells_of SaturationKind spec.now [] [] ins.now e }
{
    let i = range_at(ins, e)?;
    let low = spec.params.at(0);
    let high = spec.params.at(1);
    Some(Cells::of(Interval::new(brought(low, high, i.least), brought(low, high, i.greatest))))
}

/// What a number has above `high` or below `low`.
fn beyond(low: i64, high: i64, v: i64) -> i128
    ensures value { result ≡ beyond low high v }
    ensures end { IsIn exact result }
{
    if high < v {
        i128::from(v) - i128::from(high)
    } else if v < low {
        i128::from(v) - i128::from(low)
    } else {
        0
    }
}

pub fn dead_band(spec: &Spec, ins: &[Option<Interval>], e: usize) -> Option<Cells>
    ensures { unwrap_or result nothing ≡ cells_of DeadBandKind spec.now [] [] ins.now e }
{
    let i = range_at(ins, e)?;
    let low = spec.params.at(1);
    let high = spec.params.at(2);
    let wide = Wide::new(beyond(low, high, i.least), beyond(low, high, i.greatest));
    Some(fitted_out(spec, wide))
}

pub fn convert(spec: &Spec, ins: &[Option<Interval>], e: usize) -> Option<Cells>
    ensures { unwrap_or result nothing ≡ cells_of ConvertKind spec.now [] [] ins.now e }
{
    let i = range_at(ins, e)?;
    Some(fitted_out(spec, Wide::of(i)))
}

/// Whether a relation may hold of two numbers with such a difference: =, not equal, <, <=, >, >= by their codes.
fn may_hold(op: i64, difference: Wide) -> bool
    ensures { result ≡ may_hold op (numbers difference) }
{
    match op {
        0 => difference.has_zero(),
        1 => !difference.is_zero(),
        2 => difference.least < 0,
        3 => difference.least <= 0,
        4 => 0 < difference.greatest,
        _ => 0 <= difference.greatest,
    }
}

/// The relation that holds where another doesn't.
fn opposite(op: i64) -> i64
    ensures { result ≡ opposite op }
{
    match op {
        0 => 1,
        1 => 0,
        2 => 5,
        3 => 4,
        4 => 3,
        _ => 2,
    }
}

/// The truths of a relation of two numbers with such a difference.
fn relation_range(op: i64, difference: Wide) -> Interval
    ensures { result ≡ relation_range op (numbers difference) }
{
    let least = truth(!may_hold(opposite(op), difference));
    let greatest = truth(may_hold(op, difference));
    Interval::new(least, greatest)
}

pub fn relational_op(spec: &Spec, ins: &[Option<Interval>], e: usize) -> Option<Cells>
    requires is_typed { typed spec.now ≡ true }
    requires element { e < size spec.now }
    ensures { unwrap_or result nothing ≡ cells_of RelationalOpKind spec.now [] [] ins.now e }
{
    let i = input_range(spec, ins, 0, e)?;
    let j = input_range(spec, ins, 1, e)?;
    let difference = Wide::of(i).minus(Wide::of(j));
    Some(Cells::of(relation_range(spec.params.at(0), difference)))
}
