// The cells of a sum, from what goes in with it.
ghost use Rattle.std.specs.Prelude.{◌≡◌, ◌<◌, true, length, option_map, IfSome};
ghost use Rattle.sci_base.specs.Fit.{low, high};
ghost use Rattle.sci_forms.specs.declared.Kind.TheVariants.{Summation as SummationKind};
ghost use Rattle.sci_forms.specs.Typed.{typed};
ghost use Rattle.sci_forms.specs.Words.{size};
ghost use Rattle.sci_net.specs.Parts.{IsBlock, spec_of};
ghost use Rattle.sci_ranges_base.specs.Intervals.{HasEnds, summands, exact, met, whole, is_within, at_ends};
ghost use Rattle.sci_ranges_base.specs.Wide.{numbers};
ghost use Rattle.sci_ranges_rules.specs.Rules.{exact_sums};
ghost use Rattle.sci_ranges_refined.specs.Sums.{is_sum, sum_cells, never_wraps, keeps_sum, either_input, left_over, leaking_input, leaking_sums};
ghost use Rattle.sci_ranges_pass.specs.Told.{between_inputs};
ghost use Rattle.sci_ranges_sums.specs.View.{leak_of, by_followed, by_leak, sum_told};

use crate::parts::{Beside, Followed, Leak};
use crate::shapes::is_sum;
use sci_base::Ty;
use sci_forms::values::is_equal;
use sci_kinds::Spec;
use sci_net::Net;
use sci_ranges_base::{Cells, Interval, Wide, join};
use sci_ranges_kinds::{exact_sums, fitted_out, input_range, out_type, size};

// ---- numbers

/// The numbers that two intervals have.
fn met(one: Wide, other: Wide) -> Option<Wide>
    requires { HasEnds summands (numbers one) }
    ensures value { option_map numbers result ≡ met (numbers one) (numbers other) }
    ensures ends { IfSome result (λ w. HasEnds summands (numbers w)) }
{
    let least = one.least.max(other.least);
    let greatest = one.greatest.min(other.greatest);
    if least <= greatest {
        Some(Wide::new(least, greatest))
    } else {
        None
    }
}

/// Whether all numbers are of a type.
fn are_of_type(ty: Ty, sums: Wide) -> bool
    ensures { result ≡ is_within (numbers sums) (whole ty) }
{
    i128::from(ty.low()) <= sums.least && sums.greatest <= i128::from(ty.high())
}

/// What is left of a number, where it is shifted to the right and subtracted from itself.
fn left_over(v: i64, places: u32) -> i64
    requires { places < 32 }
    ensures { result ≡ left_over places v }
{
    v - v.div_euclid(1 << places)
}

// ---- towards

/// Whether an element of a sum never wraps.
fn never_wraps(spec: &Spec, ins: &[Option<Interval>], e: usize) -> bool
    requires kind { spec.now.kind ≡ SummationKind }
    requires is_typed { typed spec.now ≡ true }
    requires element { e < size spec.now }
    ensures { result ≡ never_wraps spec.now ins.now e }
{
    if !is_equal(spec.params.at(0), 0) {
        return true;
    }
    match exact_sums(spec, ins, e) {
        Some(sums) => are_of_type(out_type(spec), sums),
        None => true,
    }
}

/// The same of any block, at any element: one of a sum.
fn keeps_sum(spec: &Spec, ins: &[Option<Interval>], e: usize) -> bool
    requires is_typed { typed spec.now ≡ true }
    ensures { result ≡ keeps_sum spec.now ins.now e }
{
    if !is_sum(spec.kind) {
        return false;
    }
    if e >= size(spec) {
        return false;
    }
    never_wraps(spec, ins, e)
}

/// What either of two inputs has.
fn either_input(spec: &Spec, ins: &[Option<Interval>], e: usize) -> Option<Interval>
    requires is_typed { typed spec.now ≡ true }
    requires element { e < size spec.now }
    ensures { result ≡ either_input spec.now ins.now e }
{
    let first = input_range(spec, ins, 0, e);
    let second = input_range(spec, ins, 1, e);
    join(first, second)
}

/// Of exact values those between the inputs of a difference, where that doesn't wrap.
fn between_inputs(
    spec: &Spec,
    ins: &[Option<Interval>],
    e: usize,
    sums: Option<Wide>,
) -> Option<Wide>
    requires is_typed { typed spec.now ≡ true }
    requires ends { IfSome sums (λ w. HasEnds summands (numbers w)) }
    ensures value { option_map numbers result ≡ between_inputs spec.now ins.now e (option_map numbers sums) }
    ensures ends { IfSome result (λ w. HasEnds summands (numbers w)) }
{
    if !keeps_sum(spec, ins, e) {
        return sums;
    }
    let exact = sums?;
    let either = either_input(spec, ins, e)?;
    met(exact, Wide::of(either))
}

/// The same, where the sum follows a difference.
fn by_followed(net: &Net, followed: Option<&Followed>, e: usize, sums: Option<Wide>) -> Option<Wide>
    requires block { IfSome followed (λ f. IsBlock net.now f.now.block) }
    requires ends { IfSome sums (λ w. HasEnds summands (numbers w)) }
    ensures value { option_map numbers result ≡ by_followed net.now e (option_map (λ f. f.now) followed.entry) (option_map numbers sums) }
    ensures ends { IfSome result (λ w. HasEnds summands (numbers w)) }
{
    match followed {
        Some(followed) => between_inputs(net.spec(followed.block), &followed.ins, e, sums),
        None => sums,
    }
}

// ---- leaking

/// What input `j`, from 0, adds to a sum that leaks.
fn leaking_input(
    spec: &Spec,
    leak: Leak,
    ins: &[Option<Interval>],
    e: usize,
    j: usize,
) -> Option<Interval>
    requires kind { spec.now.kind ≡ SummationKind }
    requires is_typed { typed spec.now ≡ true }
    requires element { e < size spec.now }
    requires input { j < length spec.now.ins }
    ensures { result ≡ leaking_input spec.now leak.kept leak.lost leak.places ins.now e j }
{
    if j == leak.lost {
        return Some(Interval::one(0));
    }
    let input = input_range(spec, ins, j, e)?;
    if j == leak.kept {
        let least = left_over(input.least, leak.places);
        let greatest = left_over(input.greatest, leak.places);
        Some(Interval::new(least, greatest))
    } else {
        Some(input)
    }
}

/// The exact sums at an element, where the sum leaks.
fn leaking_sums(spec: &Spec, leak: Leak, ins: &[Option<Interval>], e: usize) -> Option<Wide>
    requires kind { spec.now.kind ≡ SummationKind }
    requires is_typed { typed spec.now ≡ true }
    requires element { e < size spec.now }
    ensures { option_map numbers result ≡ leaking_sums spec.now leak.kept leak.lost leak.places ins.now e }
{
    let mut sum = Wide::new(0, 0);
    for k in 0..spec.ins.len() {
        let i = leaking_input(spec, leak, ins, e, k)?;
        let sign = spec.params.at(k + 1);
        sum = sum.plus(Wide::of(i).times(sign));
    }
    Some(sum)
}

/// Of exact values those that the sum has, where it leaks.
fn by_leak(
    spec: &Spec,
    leak: Option<Leak>,
    ins: &[Option<Interval>],
    e: usize,
    sums: Option<Wide>,
) -> Option<Wide>
    requires kind { spec.now.kind ≡ SummationKind }
    requires is_typed { typed spec.now ≡ true }
    requires element { e < size spec.now }
    requires ends { IfSome sums (λ w. HasEnds summands (numbers w)) }
    ensures value { option_map numbers result ≡ by_leak spec.now ins.now e (option_map leak_of leak) (option_map numbers sums) }
    ensures ends { IfSome result (λ w. HasEnds summands (numbers w)) }
{
    let Some(leak) = leak else {
        return sums;
    };
    let exact = sums?;
    let leaking = leaking_sums(spec, leak, ins, e)?;
    met(exact, leaking)
}

// ---- cells

/// What a sum may be whose exact values are these.
fn sum_cells(spec: &Spec, sums: Option<Wide>) -> Cells
    requires { IfSome sums (λ w. HasEnds summands (numbers w)) }
    ensures { result ≡ sum_cells spec.now (option_map numbers sums) }
{
    match sums {
        Some(sums) => fitted_out(spec, sums),
        None => Cells::nothing(),
    }
}

/// What element `e` of a sum may be where it acts, from what goes in and what goes in beside that.
pub fn told_sum(net: &Net, block: u32, ins: &[Option<Interval>], beside: &Beside, e: usize) -> Cells
    requires block { IsBlock net.now block }
    requires kind { is_sum (spec_of net.now block).kind ≡ true }
    requires element { e < size (spec_of net.now block) }
    requires followed { IfSome beside.now.followed (λ f. IsBlock net.now f.block) }
    ensures { result ≡ sum_told net.now block ins.now beside.now e }
{
    let spec = net.spec(block);
    let exact = exact_sums(spec, ins, e);
    let towards = by_followed(net, beside.followed.as_ref(), e, exact);
    let sums = by_leak(spec, beside.leak, ins, e, towards);
    sum_cells(spec, sums)
}
