// SHIFT: each element shifted, or its pattern turned.
ghost use Rattle.std.specs.Prelude.{refl, ◌≡◌, ◌<◌, ◌≤◌, ◌^◌, pos, unsigned_abs};
ghost use Rattle.std.specs.Int.{int_div_euclid, int_rem_euclid};
ghost use Rattle.sci_base.specs.Bits.{turned_left};
ghost use Rattle.sci_base.specs.Fit.{InRange, width, span};
ghost use Rattle.sci_kinds.specs.Table.{shifted, turned};
ghost use Rattle.sci_forms.specs.declared.Kind.TheVariants.{Shift as ShiftKind};

use crate::patterns::{number, ones, pattern};
use sci_bank::words::{Words, cell_of, only_input, out_type, param};
use sci_base::bits::two_to;
use sci_base::{Mode, Ty, fit};
use sci_forms::values::is_equal;
use sci_kind_bank::{CellRule, KindBank, Plain};
use sci_kinds::{Cell, Kind};
use sci_span::Entering;

/// One element of the output.
#[derive(Drop)]
pub struct ShiftRule;

/// The bank of `Shift` blocks.
pub type Shift = KindBank<Plain<ShiftRule>>;

/// A number over 2 to the `k`, rounded toward minus infinity.
fn floored(v: i64, k: u32) -> i64
    requires { k < 32 }
    ensures { result ≡ int_div_euclid v (pos (2 ^ k)) }
{
    v >> k
}

/// A number times 2 to the `n`, wrapped; below 0 over 2 to the `-n`.
fn shifted(t: Ty, n: i64, v: i64) -> Cell
    requires places { unsigned_abs n < width t }
    requires in_range { InRange t v }
    ensures { result ≡ shifted t n v }
{
    let places = n.unsigned_abs() as u32;
    if n < 0 {
        Cell::Value(floored(v, places))
    } else {
        cell_of(fit(t, Mode::Wrap, v * two_to(places) as i64))
    }
}

/// A pattern turned left by `k` places.
fn turned_left(t: Ty, p: u64, k: u32) -> u64
    requires pattern { p < span t }
    requires places { k < width t }
    ensures value { result ≡ turned_left t p k }
    ensures below { result < span t }
{
    let moved = p * two_to(k);
    (moved & ones(t)) + (moved >> t.width())
}

/// How many places to the left `n` places are.
fn places_left(t: Ty, n: i64) -> u32
    requires { unsigned_abs n < width t }
    ensures value { result ≡ unsigned_abs (int_rem_euclid n (pos (width t))) }
    ensures below { result < width t }
{
    if n < 0 {
        t.width() - n.unsigned_abs() as u32
    } else {
        n as u32
    }
}

/// A number with its pattern turned left by `n` places.
fn turned(t: Ty, n: i64, v: i64) -> Cell
    requires places { unsigned_abs n < width t }
    requires in_range { InRange t v }
    ensures { result ≡ turned t n v }
{
    number(t, turned_left(t, pattern(t, v), places_left(t, n)))
}

impl CellRule for ShiftRule {
    ghost kind = { ShiftKind };

    fn rule() -> Self {
        ShiftRule
    }

    fn kind(&self) -> Kind {
        Kind::Shift
    }

    #[inline(always)]
    fn cell(&self, spec: &Words, _mask: u64, ins: &Entering, at: usize) -> Cell {
        let v = only_input(spec, ins, at);
        let t = out_type(spec);
        if is_equal(param(spec, 1), 0) {
            shifted(t, param(spec, 0), v)
        } else {
            turned(t, param(spec, 0), v)
        }
    }

    ghost no_state = { λ s. refl };

    ghost no_branch = { refl };

    ghost no_delay = { refl };
}
