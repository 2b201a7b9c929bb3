//! Tests of what a call of a bank asks: values that fill the ports, and a mask of the activation inputs.
ghost use Rattle.std.specs.Prelude.{◌<◌, ◌≤◌, ◌^◌, length, IsTrue, ◌↔◌};
ghost use Rattle.sci_forms.specs.Ports.{Fills};
ghost use Rattle.sci_kinds.specs.Asks.{IsMask, entering};
ghost use Rattle.sci_bank.specs.Bank.{RunFits};

use sci_base::Ty;
use sci_base::bits::two_to;
use sci_forms::form::Mask;
use sci_kinds::{Ports, Spec};

/// Whether the `n` values from `start` on are there, and in range of the type.
fn run_fits(t: Ty, values: &[i64], start: usize, n: usize) -> bool
    requires { start ≤ length values.now }
    ensures { IsTrue result ↔ RunFits t values.now start n }
{
    if values.len() - start < n {
        return false;
    }
    for i in 0..n {
        if !t.holds(values[start + i]) {
            return false;
        }
    }
    true
}

/// Whether the values are those of all elements of the ports, each in range of its port's type.
pub fn fills(ports: &Ports, values: &[i64]) -> bool
    ensures { IsTrue result ↔ Fills ports.now values.now }
{
    let mut start = 0usize;
    for k in 0..ports.len() {
        let port = ports.get(k);
        let n = port.elements();
        if n > values.len() as u128 {
            return false;
        }
        if !run_fits(port.kind_of_type(), values, start, n as usize) {
            return false;
        }
        start += n as usize;
    }
    start == values.len()
}

/// Whether the values are those that go into a block: of its inputs, or for a sensor the next value of its column.
pub fn enters(spec: &Spec, values: &[i64]) -> bool
    ensures { IsTrue result ↔ Fills (entering spec.now) values.now }
{
    if spec.kind.is_sensor() {
        fills(&spec.outs, values)
    } else {
        fills(&spec.ins, values)
    }
}

/// Whether the mask has bits for the block's activation inputs alone, and where the kind selects by it, a bit.
pub fn masks(spec: &Spec, mask: u64) -> bool
    ensures { IsTrue result ↔ IsMask spec.now mask }
{
    if !is_below(mask, spec.evtin) {
        return false;
    }
    match spec.kind.form().mask {
        Mask::Needed => mask != 0,
        Mask::Unread | Mask::Read => true,
    }
}

/// Whether a mask has no bit from bit `n` on, bits counted from 0.
fn is_below(mask: u64, n: u32) -> bool
    ensures { IsTrue result ↔ mask < 2 ^ n }
{
    n > 63 || mask < two_to(n)
}
