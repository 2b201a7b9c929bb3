// Intervals of exact results, before they are fitted into a type.
ghost use Rattle.std.specs.Prelude.{◌≡◌, pos, IsTrue, ◌↔◌, option_map, IfSome};
ghost use Rattle.std.specs.Int.{int_min, int_max};
ghost use Rattle.sci_ranges_base.specs.Intervals.{from_to, hull, met, plus, minus, times, HasEnds, words, summands, exact, has};
ghost use Rattle.sci_ranges_base.specs.Wide.{numbers};

use crate::Interval;

/// The numbers from the least to the greatest, of 128 bits.
#[derive(Clone, Copy, Debug, Drop, PartialEq, Eq)]
pub struct Wide {
    pub least: i128,
    pub greatest: i128,
}

impl Wide {
    pub fn new(least: i128, greatest: i128) -> Wide
        ensures { result ≡ record { least = least; greatest = greatest } }
    {
        Wide { least, greatest }
    }

    pub fn of(i: Interval) -> Wide
        ensures value { result ≡ record { least = i.least; greatest = i.greatest } }
        ensures ends { HasEnds words (numbers result) }
    {
        Wide::new(i128::from(i.least), i128::from(i.greatest))
    }

    /// The same interval of numbers of 64 bits.
    pub fn narrowed(self) -> Interval
        requires { HasEnds words (numbers self) }
        ensures { result ≡ numbers self }
    {
        let least = self.least as i64;
        let greatest = self.greatest as i64;
        Interval::new(least, greatest)
    }

    /// From the lesser of two ends to the other.
    pub fn across(a: i128, b: i128) -> Wide
        ensures { numbers result ≡ from_to (int_min a b) (int_max a b) }
    {
        if a <= b {
            Wide::new(a, b)
        } else {
            Wide::new(b, a)
        }
    }

    /// The least interval that has the numbers of both.
    pub fn hull(self, other: Wide) -> Wide
        ensures { numbers result ≡ hull (numbers self) (numbers other) }
    {
        Wide::new(
            self.least.min(other.least),
            self.greatest.max(other.greatest),
        )
    }

    /// The sums of the numbers of both.
    pub fn plus(self, other: Wide) -> Wide
        requires ends { HasEnds summands (numbers self) }
        requires other_ends { HasEnds summands (numbers other) }
        ensures { numbers result ≡ plus (numbers self) (numbers other) }
    {
        Wide::new(self.least + other.least, self.greatest + other.greatest)
    }

    /// The differences.
    pub fn minus(self, other: Wide) -> Wide
        requires ends { HasEnds summands (numbers self) }
        requires other_ends { HasEnds summands (numbers other) }
        ensures { numbers result ≡ minus (numbers self) (numbers other) }
    {
        Wide::new(self.least - other.greatest, self.greatest - other.least)
    }

    /// A number times each.
    pub fn times(self, factor: i64) -> Wide
        requires { HasEnds words (numbers self) }
        ensures value { numbers result ≡ times factor (numbers self) }
        ensures ends { HasEnds exact (numbers result) }
    {
        let factor = i128::from(factor);
        if factor < 0 {
            Wide::new(factor * self.greatest, factor * self.least)
        } else {
            Wide::new(factor * self.least, factor * self.greatest)
        }
    }

    /// The numbers that lie in an interval too.
    pub fn met(self, other: Interval) -> Option<Wide>
        ensures value { option_map numbers result ≡ met (numbers self) other }
        ensures ends { IfSome result (λ w. HasEnds other (numbers w)) }
    {
        let least = self.least.max(i128::from(other.least));
        let greatest = self.greatest.min(i128::from(other.greatest));
        if least <= greatest {
            Some(Wide::new(least, greatest))
        } else {
            None
        }
    }

    pub fn has_zero(self) -> bool
        ensures { result ≡ has (numbers self) (pos 0) }
    {
        self.least <= 0 && 0 <= self.greatest
    }

    pub fn is_zero(self) -> bool
        ensures { IsTrue result ↔ (numbers self ≡ from_to (pos 0) (pos 0)) }
    {
        self.least == 0 && self.greatest == 0
    }
}
