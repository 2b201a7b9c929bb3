//! What more is told of sums and switches than by the intervals of their inputs one by one. A sum that adds to a value a part of what another value has
//! over it lies between the two: so integrators that follow a limit and rate limiters keep within what they follow. A sum that adds a value and
//! subtracts that value shifted right takes the two as one term, which never falls: so a leaky sum comes to rest. A switch takes an input only where
//! its condition says so, and that may say something of the input itself: so a count that a switch sets back keeps within its bound.
#![tactic(auto)]

ghost use Rattle.sci_ranges_refined.specs.Laws.{SumIsWithin, SumIsFitted, DifferenceGivesPart, ShrinkingGivesPart, PartOfPart, GoesBetween, ShiftIsQuotient, LeakIsWithin, TakenIsShown, TakenHasNumber, ComparisonIsKnown, SumOfIsWithin};

/// The exact value of a sum is within what the intervals of its inputs sum up to.
pub fn sum_is_within()
    ensures { SumIsWithin }
{}

/// Whatever interval has the exact value tells what the sum gives, or its stop.
pub fn sum_is_fitted()
    ensures { SumIsFitted }
{}

/// A difference that doesn't wrap gives a part of its exact value.
pub fn difference_gives_part()
    ensures { DifferenceGivesPart }
{}

/// Saturations and dead bands around 0, shifts to the right, and samples and holds give a part of what they are given.
pub fn shrinking_gives_part()
    ensures { ShrinkingGivesPart }
{}

/// A part of a part is a part.
pub fn part_of_part()
    ensures { PartOfPart }
{}

/// A value and a part of what another one has over it add up to a number between the two.
pub fn goes_between()
    ensures { GoesBetween }
{}

/// A shift to the right gives the quotient, rounded down.
pub fn shift_is_quotient()
    ensures { ShiftIsQuotient }
{}

/// A value less itself shifted right is one term of a sum.
pub fn leak_is_within()
    ensures { LeakIsWithin }
{}

/// A switch shows the one of its inputs that it takes.
pub fn taken_is_shown()
    ensures { TakenIsShown }
{}

/// A number on which a switch takes an input is one of those on which it does.
pub fn taken_has_number()
    ensures { TakenHasNumber }
{}

/// Where a switch takes an input by a comparison, the numbers that are compared may compare so.
pub fn comparison_is_known()
    ensures { ComparisonIsKnown }
{}

/// The exact value of a sum of one element is within that of its inputs.
pub fn sum_of_is_within()
    ensures { SumOfIsWithin }
{}
