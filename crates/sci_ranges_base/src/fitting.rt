// What an interval comes to when its numbers are fitted into a type.
ghost use Rattle.std.specs.Prelude.{◌≡◌, pos};
ghost use Rattle.sci_base.specs.Fit.{wrap, span, low, high, in_range};
ghost use Rattle.sci_kinds.specs.Table.{brought};
ghost use Rattle.sci_ranges_base.specs.Intervals.{whole, met, IsIn, HasEnds, exact};
ghost use Rattle.sci_ranges_base.specs.Wide.{numbers};
ghost use Rattle.sci_ranges_base.specs.Fitting.{turns, wrapped, wrapped_up_to, fitted_range, fitted_beyond};

use crate::{Cells, Interval, Wide};
use sci_base::{Mode, Ty};

/// How many numbers a type has.
fn span(ty: Ty) -> i128
    ensures { result ≡ pos (span ty) }
{
    match ty {
        Ty::I32 | Ty::U32 => 4294967296,
        Ty::I16 | Ty::U16 => 65536,
        Ty::I8 | Ty::U8 => 256,
    }
}

/// How many spans of the type lie between its own numbers and `v`.
fn turns(ty: Ty, v: i128) -> i128
    requires { IsIn exact v }
    ensures { result ≡ turns ty v }
{
    (v - i128::from(ty.low())).div_euclid(span(ty))
}

/// The number of the type that differs by a multiple of its span.
fn wrap(ty: Ty, v: i128) -> i64
    requires { IsIn exact v }
    ensures { result ≡ wrap ty v }
{
    let low = i128::from(ty.low());
    (low + (v - low).rem_euclid(span(ty))) as i64
}

/// The numbers wrapped: the ends where both are as many turns away, else all from the type's least to a greatest one.
pub fn wrapped_up_to(ty: Ty, most: i64, wide: Wide) -> Interval
    requires { HasEnds exact (numbers wide) }
    ensures { result ≡ wrapped_up_to ty most (numbers wide) }
{
    if turns(ty, wide.least) == turns(ty, wide.greatest) {
        Interval::new(wrap(ty, wide.least), wrap(ty, wide.greatest))
    } else {
        Interval::new(ty.low(), most)
    }
}

/// The numbers wrapped.
pub fn wrapped(ty: Ty, wide: Wide) -> Interval
    requires { HasEnds exact (numbers wide) }
    ensures { result ≡ wrapped ty (numbers wide) }
{
    wrapped_up_to(ty, ty.high(), wide)
}

/// The nearest number of the type.
fn clamped(ty: Ty, v: i128) -> i64
    ensures { result ≡ brought (low ty) (high ty) v }
{
    if v < i128::from(ty.low()) {
        ty.low()
    } else if i128::from(ty.high()) < v {
        ty.high()
    } else {
        v as i64
    }
}

/// The numbers that the type has.
fn in_type(ty: Ty, wide: Wide) -> Option<Interval>
    ensures { result ≡ met (numbers wide) (whole ty) }
{
    match wide.met(Interval::whole(ty)) {
        Some(inside) => Some(inside.narrowed()),
        None => None,
    }
}

fn fitted_beyond(ty: Ty, mode: Mode, wide: Wide) -> Cells
    requires { HasEnds exact (numbers wide) }
    ensures { result ≡ fitted_beyond ty mode (numbers wide) }
{
    match mode {
        Mode::Wrap => Cells::of(wrapped(ty, wide)),
        Mode::Saturate => Cells::of(Interval::new(
            clamped(ty, wide.least),
            clamped(ty, wide.greatest),
        )),
        Mode::Stop => Cells::or_overflow(in_type(ty, wide)),
    }
}

/// Whether a number is one of the type's.
fn is_in_type(ty: Ty, v: i128) -> bool
    ensures { result ≡ in_range ty v }
{
    i128::from(ty.low()) <= v && v <= i128::from(ty.high())
}

/// What the numbers come to in the type.
pub fn fitted_range(ty: Ty, mode: Mode, wide: Wide) -> Cells
    requires { HasEnds exact (numbers wide) }
    ensures { result ≡ fitted_range ty mode (numbers wide) }
{
    if is_in_type(ty, wide.least) && is_in_type(ty, wide.greatest) {
        Cells::of(wide.narrowed())
    } else {
        fitted_beyond(ty, mode, wide)
    }
}
