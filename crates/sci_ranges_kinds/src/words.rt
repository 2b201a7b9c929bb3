// What a spec and the intervals of the inputs say.
ghost use Rattle.std.specs.Prelude.{◌≡◌, ◌<◌, ◌≤◌, ◌^◌, true, unsigned_abs, ◌&&◌};
ghost use Rattle.sci_base.specs.declared.limits.TheConstants.{PORTS, PORT_ELEMENTS};
ghost use Rattle.sci_forms.specs.Typed.{typed};
ghost use Rattle.sci_forms.specs.Words.{param, out_type, in_type, size};
ghost use Rattle.sci_base.specs.Fit.{int_eq};
ghost use Rattle.sci_kinds.specs.Table.{mode_of, truth};
ghost use Rattle.sci_ranges_base.specs.Intervals.{range_at, HasEnds, exact};
ghost use Rattle.sci_ranges_base.specs.Wide.{numbers};
ghost use Rattle.sci_ranges_rules.specs.Words.{input_range};
ghost use Rattle.sci_ranges_rules.specs.Rules.{state_range, fitted_out};

use sci_base::{Mode, Ty};
use sci_forms::values::is_equal;
use sci_kinds::Spec;
use sci_ranges_base::fitting::fitted_range;
use sci_ranges_base::{Cells, Interval, Wide};

/// The type of the first output.
pub fn out_type(spec: &Spec) -> Ty
    ensures { result ≡ out_type spec.now }
{
    spec.outs.port(0).kind_of_type()
}

/// The type of the first input.
pub fn in_type(spec: &Spec) -> Ty
    ensures { result ≡ in_type spec.now }
{
    spec.ins.port(0).kind_of_type()
}

/// The size of the first output.
pub fn size(spec: &Spec) -> usize
    requires { typed spec.now ≡ true }
    ensures value { result ≡ size spec.now }
    ensures few { result ≤ PORT_ELEMENTS }
{
    spec.outs.port(0).elements() as usize
}

/// The mode that parameter 0 names: 0 wraps, 1 saturates, 2 stops.
fn mode(spec: &Spec) -> Mode
    ensures { result ≡ mode_of (param spec.now 0) }
{
    match spec.params.at(0) {
        0 => Mode::Wrap,
        1 => Mode::Saturate,
        _ => Mode::Stop,
    }
}

/// Exact values fitted into the type of the first output.
pub fn fitted_out(spec: &Spec, wide: Wide) -> Cells
    requires { HasEnds exact (numbers wide) }
    ensures { result ≡ fitted_out spec.now (numbers wide) }
{
    fitted_range(out_type(spec), mode(spec), wide)
}

/// A parameter that is a number of places, bits or elements.
pub fn count(spec: &Spec, k: usize) -> u32
    requires { unsigned_abs (param spec.now k) < 2 ^ 32 }
    ensures { result ≡ unsigned_abs (param spec.now k) }
{
    spec.params.at(k).unsigned_abs() as u32
}

/// Whether an interval has a number alone.
pub fn is_only(i: Interval, v: i64) -> bool
    ensures { result ≡ (int_eq i.least v && int_eq i.greatest v) }
{
    is_equal(i.least, v) && is_equal(i.greatest, v)
}

/// A truth as a number.
pub fn truth(b: bool) -> i64
    ensures { result ≡ truth b }
{
    if b { 1 } else { 0 }
}

/// The interval of element `e` of all inputs.
pub fn range_at(ins: &[Option<Interval>], e: usize) -> Option<Interval>
    ensures { result ≡ range_at ins.now e }
{
    if e < ins.len() { ins[e] } else { None }
}

/// The interval of element `e` of input `k`, of a block whose inputs have the size of the first output.
pub fn input_range(spec: &Spec, ins: &[Option<Interval>], k: usize, e: usize) -> Option<Interval>
    requires is_typed { typed spec.now ≡ true }
    requires few { k ≤ PORTS }
    requires element { e < size spec.now }
    ensures { result ≡ input_range (size spec.now) ins.now k e }
{
    let n = size(spec);
    let place = k * n + e;
    range_at(ins, place)
}

/// The interval of value `e` of a state: one stands for all values, and a value that isn't there is 0.
pub fn state_range(state: &[Interval], e: usize) -> Interval
    ensures { result ≡ state_range state.now e }
{
    if state.len() == 1 {
        state[0]
    } else if e < state.len() {
        state[e]
    } else {
        Interval::one(0)
    }
}
