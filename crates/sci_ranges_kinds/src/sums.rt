// SUMMATION and GAINBLK.
ghost use Rattle.sci_forms.specs.Words.{size};
ghost use Rattle.std.specs.Prelude.{◌≡◌, ◌<◌, true, [], unwrap_or, option_map, IfSome};
ghost use Rattle.sci_forms.specs.declared.Kind.TheVariants.{Summation as SummationKind, GainBlk as GainBlkKind};
ghost use Rattle.sci_forms.specs.Typed.{typed};
ghost use Rattle.sci_ranges_base.specs.Cells.{nothing};
ghost use Rattle.sci_ranges_rules.specs.Rules.{cells_of, exact_sums};
ghost use Rattle.sci_ranges_base.specs.Intervals.{HasEnds, summands};
ghost use Rattle.sci_ranges_base.specs.Wide.{numbers};

use crate::words::{fitted_out, input_range, range_at};
use sci_kinds::Spec;
use sci_ranges_base::{Cells, Interval, Wide};

/// The exact sums at an element: of the inputs, each with its sign.
pub fn exact_sums(spec: &Spec, ins: &[Option<Interval>], e: usize) -> Option<Wide>
    requires kind { spec.now.kind ≡ SummationKind }
    requires is_typed { typed spec.now ≡ true }
    requires element { e < size spec.now }
    ensures value { option_map numbers result ≡ exact_sums spec.now ins.now e }
    ensures ends { IfSome result (λ w. HasEnds summands (numbers w)) }
{
    let mut sum = Wide::new(0, 0);
    for k in 0..spec.ins.len() {
        let i = input_range(spec, ins, k, e)?;
        let sign = spec.params.at(k + 1);
        sum = sum.plus(Wide::of(i).times(sign));
    }
    Some(sum)
}

pub fn summation(spec: &Spec, ins: &[Option<Interval>], e: usize) -> Option<Cells>
    requires kind { spec.now.kind ≡ SummationKind }
    requires is_typed { typed spec.now ≡ true }
    requires element { e < size spec.now }
    ensures { unwrap_or result nothing ≡ cells_of SummationKind spec.now [] [] ins.now e }
{
    let sums = exact_sums(spec, ins, e)?;
    Some(fitted_out(spec, sums))
}

pub fn gain(spec: &Spec, ins: &[Option<Interval>], e: usize) -> Option<Cells>
    ensures { unwrap_or result nothing ≡ cells_of GainBlkKind spec.now [] [] ins.now e }
{
    let i = range_at(ins, e)?;
    let products = Wide::of(i).times(spec.params.at(1));
    Some(fitted_out(spec, products))
}
