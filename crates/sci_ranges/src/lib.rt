//! What it is for a table of ranges to hold of a net, on all input files whose columns keep within given ones, and when no rule widens a table.
#![tactic(auto)]

ghost use Rattle.sci_ranges.specs.Laws.{ClosedHolds};

/// A table that no rule widens holds: on each input file whose columns keep within the given ones, every reaction of every run shows, holds and
/// remembers what the table has, and a run stops only where it says so.
pub fn closed_holds()
    ensures { ClosedHolds }
{}
