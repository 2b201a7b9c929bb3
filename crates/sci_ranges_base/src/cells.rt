// What an element of an output may be.
ghost use Rattle.std.specs.Prelude.{◌≡◌, ◌||◌, true, false, Some};
ghost use Rattle.sci_ranges_base.specs.Intervals.{join};
ghost use Rattle.sci_ranges_base.specs.Cells.{valued, nothing};

use crate::{Interval, interval};

/// The values that an element may have, if any, and whether each stop may be.
#[derive(Clone, Copy, Debug, Drop, PartialEq, Eq)]
pub struct Cells {
    pub values: Option<Interval>,
    /// The exact value may be out of range.
    pub overflow: bool,
    /// The divisor may be 0.
    pub zero: bool,
}

impl Cells {
    /// Values alone.
    pub fn valued(values: Option<Interval>) -> Cells
        ensures { result ≡ valued values }
    {
        Cells {
            values,
            overflow: false,
            zero: false,
        }
    }

    /// The values of one interval.
    pub fn of(i: Interval) -> Cells
        ensures { result ≡ valued (Some i) }
    {
        Cells::valued(Some(i))
    }

    /// No cell at all.
    pub fn nothing() -> Cells
        ensures { result ≡ nothing }
    {
        Cells::valued(None)
    }

    /// These values, or a stop since the exact value is out of range.
    pub fn or_overflow(values: Option<Interval>) -> Cells
        ensures { result ≡ record { values = values; overflow = true; zero = false } }
    {
        Cells {
            values,
            overflow: true,
            zero: false,
        }
    }

    /// The same with a stop by a divisor of 0.
    pub fn or_zero(self, zero: bool) -> Cells
        ensures { result ≡ record self { zero = zero } }
    {
        Cells { zero, ..self }
    }

    /// What is one of these or of the others.
    pub fn joined(self, other: Cells) -> Cells
        ensures { result ≡ record { values = join self.values other.values; overflow = self.overflow || other.overflow; zero = self.zero || other.zero } }
    {
        Cells {
            values: interval::join(self.values, other.values),
            overflow: self.overflow || other.overflow,
            zero: self.zero || other.zero,
        }
    }
}
