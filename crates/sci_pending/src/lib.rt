//! The pending events of a net: which is next, what programming a source does, and the order in which they fire.
#![tactic(auto)]

ghost use Rattle.sci_pending.specs.Worked.{WorkedEvents};

/// A few pending events are what was worked out by hand.
pub fn worked_events()
    ensures { WorkedEvents }
{}
