// PRODUCT.
ghost use Rattle.std.specs.Prelude.{◌≡◌, ◌<◌, true, [], unwrap_or, ◌≢◌, ◌*ℤ◌, pos, int_div, option_map, IfSome};
ghost use Rattle.std.specs.Int.{int_max};
ghost use Rattle.sci_forms.specs.declared.Kind.TheVariants.{Product as ProductKind};
ghost use Rattle.sci_forms.specs.Typed.{typed};
ghost use Rattle.sci_ranges_base.specs.Cells.{nothing, on_some};
ghost use Rattle.sci_ranges_rules.specs.Rules.{cells_of, fitted_out, product_cells};
ghost use Rattle.sci_ranges_rules.specs.Words.{below_zero, quotients, quotient_cells};
ghost use Rattle.sci_ranges_base.specs.Intervals.{one, hull, corners, join, between, HasEnds, exact};
ghost use Rattle.sci_ranges_base.specs.Wide.{numbers};
ghost use Rattle.sci_forms.specs.Words.{out_type, param, size};
ghost use Rattle.sci_kinds.specs.Table.{mode_of};

use crate::words::{fitted_out, input_range};
use sci_forms::values::is_equal;
use sci_kinds::Spec;
use sci_ranges_base::{Cells, Interval, Wide};

/// The products of all numbers and one.
fn times_one(i: Interval, factor: i64) -> Wide
    ensures value { numbers result ≡ hull (one (i.least *ℤ factor)) (one (i.greatest *ℤ factor)) }
    ensures ends { HasEnds exact (numbers result) }
{
    let factor = i128::from(factor);
    let a = i128::from(i.least);
    let b = i128::from(i.greatest);
    let least = a * factor;
    let greatest = b * factor;
    Wide::across(least, greatest)
}

/// The hull of the products of the ends.
fn products(i: Interval, j: Interval) -> Wide
    ensures value { numbers result ≡ corners (λ a b. a *ℤ b) i j }
    ensures ends { HasEnds exact (numbers result) }
{
    let by_least = times_one(i, j.least);
    let by_greatest = times_one(i, j.greatest);
    by_least.hull(by_greatest)
}

/// The quotients of all numbers by one that isn't 0, rounded toward zero.
fn by_one(i: Interval, divisor: i64) -> Wide
    requires { divisor ≢ pos 0 }
    ensures value { numbers result ≡ hull (one (int_div i.least divisor)) (one (int_div i.greatest divisor)) }
    ensures ends { HasEnds exact (numbers result) }
{
    let divisor = i128::from(divisor);
    let a = i128::from(i.least);
    let b = i128::from(i.greatest);
    let least = a / divisor;
    let greatest = b / divisor;
    Wide::across(least, greatest)
}

/// The quotients by divisors of one sign.
fn by_part(i: Interval, part: Option<Interval>) -> Option<Wide>
    requires { IfSome part (λ j. (j.least ≢ pos 0) × (j.greatest ≢ pos 0)) }
    ensures value { option_map numbers result ≡ option_map (corners int_div i) part }
    ensures ends { IfSome result (λ w. HasEnds exact (numbers w)) }
{
    let j = part?;
    let by_least = by_one(i, j.least);
    let by_greatest = by_one(i, j.greatest);
    Some(by_least.hull(by_greatest))
}

/// The quotients of either part.
fn either(below: Option<Wide>, above: Option<Wide>) -> Option<Wide>
    requires below { IfSome below (λ w. HasEnds exact (numbers w)) }
    requires above { IfSome above (λ w. HasEnds exact (numbers w)) }
    ensures value { option_map numbers result ≡ join (option_map numbers below) (option_map numbers above) }
    ensures ends { IfSome result (λ w. HasEnds exact (numbers w)) }
{
    match (below, above) {
        (Some(a), Some(b)) => Some(a.hull(b)),
        (Some(a), None) => Some(a),
        (None, b) => b,
    }
}

/// The numbers below 0.
pub fn below_zero(i: Interval) -> Option<Interval>
    ensures value { result ≡ below_zero i }
    ensures signs { IfSome result (λ j. (j.least ≢ pos 0) × (j.greatest ≢ pos 0)) }
{
    let last = i.greatest.min(-1);
    Interval::between(i.least, last)
}

/// The numbers above 0.
fn above_zero(i: Interval) -> Option<Interval>
    ensures value { result ≡ between (int_max i.least (pos 1)) i.greatest }
    ensures signs { IfSome result (λ j. (j.least ≢ pos 0) × (j.greatest ≢ pos 0)) }
{
    let first = i.least.max(1);
    Interval::between(first, i.greatest)
}

/// The quotients by the divisors below 0 and by those above, if there are any.
fn quotients(i: Interval, j: Interval) -> Option<Wide>
    ensures value { option_map numbers result ≡ quotients i j }
    ensures ends { IfSome result (λ w. HasEnds exact (numbers w)) }
{
    let negative = below_zero(j);
    let positive = above_zero(j);
    let below = by_part(i, negative);
    let above = by_part(i, positive);
    either(below, above)
}

/// The exact values, if there are any, fitted.
fn fitted_some(spec: &Spec, wide: Option<Wide>) -> Cells
    requires { IfSome wide (λ w. HasEnds exact (numbers w)) }
    ensures { result ≡ on_some (fitted_out spec.now) (option_map numbers wide) }
{
    match wide {
        Some(some) => fitted_out(spec, some),
        None => Cells::nothing(),
    }
}

/// The quotients, fitted, and whether the divisor may be 0.
fn quotient_cells(spec: &Spec, i: Interval, j: Interval) -> Cells
    ensures { result ≡ quotient_cells (out_type spec.now) (mode_of (param spec.now 0)) i j }
{
    let cells = fitted_some(spec, quotients(i, j));
    cells.or_zero(j.has(0))
}

/// The products or the quotients.
fn product_cells(spec: &Spec, i: Interval, j: Interval) -> Cells
    ensures { result ≡ product_cells spec.now i j }
{
    if is_equal(spec.params.at(1), 1) {
        fitted_out(spec, products(i, j))
    } else {
        quotient_cells(spec, i, j)
    }
}

pub fn product(spec: &Spec, ins: &[Option<Interval>], e: usize) -> Option<Cells>
    requires is_typed { typed spec.now ≡ true }
    requires element { e < size spec.now }
    ensures { unwrap_or result nothing ≡ cells_of ProductKind spec.now [] [] ins.now e }
{
    let i = input_range(spec, ins, 0, e)?;
    let j = input_range(spec, ins, 1, e)?;
    Some(product_cells(spec, i, j))
}
