// Patterns of the numbers of a type, and truths.
ghost use Rattle.std.specs.Prelude.{◌≡◌, ◌<◌, ◌≤◌, ◌-◌, ◌^◌, pos, unsigned_abs, if◌then◌else◌};
ghost use Rattle.sci_base.specs.Fit.{span, width, int_eq, InRange};
ghost use Rattle.sci_base.specs.Bits.{pattern};
ghost use Rattle.sci_forms.specs.Words.{param, out_type};
ghost use Rattle.sci_kinds.specs.Table.{number, truth};

use sci_bank::words::{Words, param};
use sci_base::Ty;
use sci_base::bits::{span, two_to};
use sci_forms::values::is_equal;
use sci_kinds::Cell;

/// The pattern with all bits of a type.
pub fn ones(t: Ty) -> u64
    ensures { result ≡ 2 ^ width t - 1 }
{
    two_to(t.width()) - 1
}

/// The pattern of a number of a type.
pub fn pattern(t: Ty, v: i64) -> u64
    requires { InRange t v }
    ensures value { result ≡ pattern t v }
    ensures below { result < span t }
{
    if v < 0 {
        (v + span(t) as i64) as u64
    } else {
        v as u64
    }
}

/// The number of a type that a pattern stands for.
pub fn number(t: Ty, p: u64) -> Cell
    requires { p < span t }
    ensures { result ≡ number t p }
{
    let v = p as i64;
    if v <= t.high() {
        Cell::Value(v)
    } else {
        Cell::Value(v - span(t) as i64)
    }
}

/// The place of a bit, or a number of places, that parameter `k` says.
pub fn place(spec: &Words, k: usize) -> u32
    requires { unsigned_abs (param spec.now k) < width (out_type spec.now) }
    ensures { result ≡ unsigned_abs (param spec.now k) }
{
    param(spec, k).unsigned_abs() as u32
}

/// A truth as a number.
pub fn truth(b: bool) -> i64
    ensures { result ≡ truth b }
{
    if b { 1 } else { 0 }
}

/// The digit of a number's truth: 0 for 0, else 1.
pub fn digit(v: i64) -> usize
    ensures value { result ≡ (if int_eq v (pos 0) then 0 else 1) }
    ensures few { result ≤ 1 }
{
    if is_equal(v, 0) { 0 } else { 1 }
}
