// What the parameters of a spec say of the sums that it takes part in.
ghost use Rattle.std.specs.Prelude.{◌≡◌};
ghost use Rattle.sci_ranges_refined.specs.Sums.{is_sum, adds_two, takes_difference, subtracted, goes_right, shrinks, shifts_right};

use sci_forms::values::is_equal;
use sci_kinds::{Kind, Spec};

/// Whether a block of the kind adds up its inputs.
pub fn is_sum(kind: Kind) -> bool
    ensures { result ≡ is_sum kind }
{
    match kind {
        Kind::Summation => true,
        _ => false,
    }
}

/// Whether it adds two inputs.
pub fn adds_two(spec: &Spec) -> bool
    ensures { result ≡ adds_two spec.now }
{
    is_sum(spec.kind)
        && (spec.ins.len() == 2
            && (is_equal(spec.params.at(1), 1) && is_equal(spec.params.at(2), 1)))
}

/// Whether it subtracts one of two inputs from the other.
pub fn takes_difference(spec: &Spec) -> bool
    ensures { result ≡ takes_difference spec.now }
{
    is_sum(spec.kind) && (spec.ins.len() == 2 && !is_equal(spec.params.at(1), spec.params.at(2)))
}

/// Of two inputs the one that is subtracted, from 0.
pub fn subtracted(spec: &Spec) -> u32
    ensures { result ≡ subtracted spec.now }
{
    if is_equal(spec.params.at(1), 1) { 1 } else { 0 }
}

/// Whether a SHIFT goes to the right, without turning.
fn goes_right(spec: &Spec) -> bool
    ensures { result ≡ goes_right spec.now }
{
    spec.params.at(0) < 0 && is_equal(spec.params.at(1), 0)
}

/// Whether it shows a part of what its one input has, each number at least as near to 0.
pub fn shrinks(spec: &Spec) -> bool
    ensures { result ≡ shrinks spec.now }
{
    match spec.kind {
        Kind::Saturation => spec.params.at(0) <= 0 && 0 <= spec.params.at(1),
        Kind::DeadBand => spec.params.at(1) <= 0 && 0 <= spec.params.at(2),
        Kind::Shift => goes_right(spec),
        Kind::SampHold => true,
        _ => false,
    }
}

/// Whether it shifts its input to the right.
pub fn shifts_right(spec: &Spec) -> bool
    ensures { result ≡ shifts_right spec.now }
{
    match spec.kind {
        Kind::Shift => goes_right(spec),
        _ => false,
    }
}
