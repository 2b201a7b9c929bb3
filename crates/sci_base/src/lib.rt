//! What every layer speaks of: integer types and how a number is fitted into one, patterns of bits, rules and refusals,
//! the fields of a block, the observations of a run.
#![tactic(auto)]

ghost use Rattle.std.specs.Prelude.{◌≡◌, ◌^◌, ◌<◌, ◌≤ℤ◌, ◌<ℤ◌, ◌*ℤ◌, pos, negsuc, ℤ, IfSome};
ghost use Rattle.sci_base.specs.Fit.{fit, in_range, low, high, width, span, ty_of_code, WrapLaw};

pub mod bits;
mod block;
mod ints;
pub mod limits;
mod observation;
mod refusal;
mod stop;
mod truths;

pub use block::{BlockFields, Dep, DirectFeedthrough};
pub use ints::Ints;
pub use observation::{EndWord, Obs, StopWord};
pub use refusal::{Place, Refusal, Rule};
pub use stop::{NoMemory, Stop};
pub use truths::Truths;

/// The integer types of signals.
#[derive(Clone, Copy, Debug, Drop, PartialEq, Eq)]
pub enum Ty {
    I32,
    I16,
    I8,
    U32,
    U16,
    U8,
}

/// What happens to a number out of its type's range.
#[derive(Clone, Copy, Drop)]
pub enum Mode {
    Wrap,
    Saturate,
    Stop,
}

impl Ty {
    /// The type of a code, from 3 to 8.
    pub fn of(code: i64) -> Option<Ty>
        ensures { result ≡ ty_of_code code }
    {
        match code {
            3 => Some(Ty::I32),
            4 => Some(Ty::I16),
            5 => Some(Ty::I8),
            6 => Some(Ty::U32),
            7 => Some(Ty::U16),
            8 => Some(Ty::U8),
            _ => None,
        }
    }

    pub fn low(self) -> i64
        ensures { result ≡ low self }
    {
        match self {
            Ty::I32 => -2147483648,
            Ty::I16 => -32768,
            Ty::I8 => -128,
            Ty::U32 | Ty::U16 | Ty::U8 => 0,
        }
    }

    pub fn high(self) -> i64
        ensures { result ≡ high self }
    {
        match self {
            Ty::I32 => 2147483647,
            Ty::I16 => 32767,
            Ty::I8 => 127,
            Ty::U32 => 4294967295,
            Ty::U16 => 65535,
            Ty::U8 => 255,
        }
    }

    pub fn width(self) -> u32
        ensures { result ≡ width self }
    {
        match self {
            Ty::I32 | Ty::U32 => 32,
            Ty::I16 | Ty::U16 => 16,
            Ty::I8 | Ty::U8 => 8,
        }
    }

    /// Whether a number is in range.
    pub fn holds(self, v: i64) -> bool
        ensures { result ≡ in_range self v }
    {
        self.low() <= v && v <= self.high()
    }

    pub(crate) fn span(self) -> i128
        ensures { result ≡ pos (span self) }
    {
        match self {
            Ty::I32 | Ty::U32 => 4294967296,
            Ty::I16 | Ty::U16 => 65536,
            Ty::I8 | Ty::U8 => 256,
        }
    }
}

/// Fits a wide number: `v` itself in range, else what the mode says.
pub(crate) fn fit_wide(t: Ty, m: Mode, v: i128) -> Option<i64>
    requires least { negsuc 100000000000000000000000 ≤ℤ v }
    requires greatest { v ≤ℤ pos 100000000000000000000000 }
    ensures { result ≡ fit t m v }
{
    let low = i128::from(t.low());
    let high = i128::from(t.high());
    if low <= v && v <= high {
        return Some(v as i64);
    }
    match m {
        Mode::Wrap => Some((low + (v - low).rem_euclid(t.span())) as i64),
        Mode::Saturate => Some(if v < low { t.low() } else { t.high() }),
        Mode::Stop => None,
    }
}

/// Fits a number.
pub fn fit(t: Ty, m: Mode, v: i64) -> Option<i64>
    ensures { result ≡ fit t m v }
{
    fit_wide(t, m, i128::from(v))
}

/// Fits the exact product of two numbers.
pub fn mul_fit(t: Ty, m: Mode, a: i64, b: i64) -> Option<i64>
    requires a_low { negsuc 4294967295 ≤ℤ a }
    requires a_high { a ≤ℤ pos 4294967296 }
    requires b_low { negsuc 4294967295 ≤ℤ b }
    requires b_high { b ≤ℤ pos 4294967296 }
    ensures { result ≡ fit t m (a *ℤ b) }
{
    fit_wide(t, m, i128::from(a) * i128::from(b))
}

/// What `Mode::Wrap` gives is the one number in range that differs by a multiple of 2 to the width.
pub fn wrap_law()
    ensures { WrapLaw }
{}
