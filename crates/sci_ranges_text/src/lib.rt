//! What is told of a table of ranges, as a text; and that where it tells `safe`, no run stops by an overflow or a zero.
#![tactic(auto)]

ghost use Rattle.sci_ranges_text.specs.Laws.{SafeNeverStops};

/// Where a table that no rule widens is safe, no run on an input file whose columns keep within the given one's stops by an overflow or a divisor of 0.
pub fn safe_never_stops()
    ensures { SafeNeverStops }
{}
