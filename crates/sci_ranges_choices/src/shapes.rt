// What a spec says of the choices that it takes part in.
ghost use Rattle.std.specs.Prelude.{◌≡◌, true};
ghost use Rattle.sci_forms.specs.Typed.{typed};
ghost use Rattle.sci_kinds.specs.Table.{switches};
ghost use Rattle.sci_ranges_refined.specs.Choices.{is_switch, takes, compares, known_truth};
ghost use Rattle.sci_ranges_pass.specs.Taken.{is_choice};

use sci_forms::values::is_equal;
use sci_kinds::{Kind, Spec};
use sci_ranges_kinds::size;

/// Whether a block of the kind takes one of two inputs by a third one.
fn is_switch(kind: Kind) -> bool
    ensures { result ≡ is_switch kind }
{
    match kind {
        Kind::Switch2 => true,
        _ => false,
    }
}

/// Whether it compares two inputs.
pub fn compares(kind: Kind) -> bool
    ensures { result ≡ compares kind }
{
    match kind {
        Kind::RelationalOp => true,
        _ => false,
    }
}

/// Whether a block is a switch of one element.
pub fn is_choice(spec: &Spec) -> bool
    requires { typed spec.now ≡ true }
    ensures { result ≡ is_choice spec.now }
{
    is_switch(spec.kind) && size(spec) == 1
}

/// Whether a switch takes its first input, where its second is at least a number, above it, or not it, by a code.
fn switches(code: i64, number: i64, v: i64) -> bool
    ensures { result ≡ switches code number v }
{
    match code {
        0 => number <= v,
        1 => number < v,
        _ => !is_equal(v, number),
    }
}

/// Whether a switch takes its first input, or its third, where its second is this number.
fn takes(spec: &Spec, first: bool, v: i64) -> bool
    ensures { result ≡ takes spec.now first v }
{
    let code = spec.params.at(0);
    let number = spec.params.at(1);
    if first {
        switches(code, number, v)
    } else {
        !switches(code, number, v)
    }
}

/// The truth of a comparison by which alone a switch takes its first input, or its third, where there is one.
pub fn known_truth(spec: &Spec, first: bool) -> Option<bool>
    ensures { result ≡ known_truth spec.now first }
{
    if !takes(spec, first, 0) {
        Some(true)
    } else if !takes(spec, first, 1) {
        Some(false)
    } else {
        None
    }
}
