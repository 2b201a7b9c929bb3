// Intervals of whole numbers.
ghost use Rattle.std.specs.Prelude.{◌≡◌, [], IfSome, IfNone};
ghost use Rattle.sci_ranges_base.specs.Intervals.{from_to, one, whole, between, hull, join, met, meet, is_within, within, has, IsHullOf};

use sci_base::Ty;

/// The numbers from the least to the greatest.
#[derive(Clone, Copy, Debug, Drop, PartialEq, Eq)]
pub struct Interval {
    pub least: i64,
    pub greatest: i64,
}

impl Interval {
    pub fn new(least: i64, greatest: i64) -> Interval
        ensures { result ≡ from_to least greatest }
    {
        Interval { least, greatest }
    }

    /// One number alone.
    pub fn one(v: i64) -> Interval
        ensures { result ≡ one v }
    {
        Interval::new(v, v)
    }

    /// All numbers of a type.
    pub fn whole(ty: Ty) -> Interval
        ensures { result ≡ whole ty }
    {
        Interval::new(ty.low(), ty.high())
    }

    /// The numbers from the least to the greatest, if there are any.
    pub fn between(least: i64, greatest: i64) -> Option<Interval>
        ensures { result ≡ between least greatest }
    {
        if least <= greatest {
            Some(Interval::new(least, greatest))
        } else {
            None
        }
    }

    /// The least interval that has the numbers of both.
    pub fn hull(self, other: Interval) -> Interval
        ensures { result ≡ hull self other }
    {
        Interval::new(
            self.least.min(other.least),
            self.greatest.max(other.greatest),
        )
    }

    /// The numbers that both have, if there are any.
    pub fn met(self, other: Interval) -> Option<Interval>
        ensures { result ≡ met self other }
    {
        Interval::between(
            self.least.max(other.least),
            self.greatest.min(other.greatest),
        )
    }

    /// Whether each of these numbers is one of the other's.
    pub fn is_within(self, other: Interval) -> bool
        ensures { result ≡ is_within self other }
    {
        other.least <= self.least && self.greatest <= other.greatest
    }

    pub fn has(self, v: i64) -> bool
        ensures { result ≡ has self v }
    {
        self.least <= v && v <= self.greatest
    }
}

/// The least interval that has the numbers of both, of which each may have none.
pub fn join(one: Option<Interval>, other: Option<Interval>) -> Option<Interval>
    ensures { result ≡ join one other }
{
    match (one, other) {
        (Some(i), Some(j)) => Some(i.hull(j)),
        (Some(i), None) => Some(i),
        (None, j) => j,
    }
}

/// The numbers that both have.
pub fn meet(one: Option<Interval>, other: Option<Interval>) -> Option<Interval>
    ensures { result ≡ meet one other }
{
    one?.met(other?)
}

/// Whether each number of the first is one of the second.
pub fn within(one: Option<Interval>, other: Option<Interval>) -> bool
    ensures { result ≡ within one other }
{
    match (one, other) {
        (None, _) => true,
        (Some(_), None) => false,
        (Some(i), Some(j)) => i.is_within(j),
    }
}

/// The least interval that has these numbers.
pub fn hull_of(values: &[i64]) -> Option<Interval>
    ensures some { IfSome result (λ i. IsHullOf values.now i) }
    ensures none { IfNone result (values.now ≡ []) }
{
    let mut all = None;
    for v in values {
        all = join(all, Some(Interval::one(*v)));
    }
    all
}
