//! When a reader takes what its feeder shows, and not only what it holds: the sources that may react, the blocks that they may activate, the masks
//! that these may have, which blocks act wherever others do, and which have acted before.
#![tactic(auto)]

ghost use Rattle.sci_ranges_reads.specs.Laws.{ActiveMayAct, ActsTooIsActive, FedTooIsActive, UnderIsTaken, MasksAreBetween, ProgrammedIsLive};

/// Where the blocks that decide on it take no dead branch, a block that is active is one that may be.
pub fn active_may_act()
    ensures { ActiveMayAct }
{}

/// A block that acts wherever another does is active where that is.
pub fn acts_too_is_active()
    ensures { ActsTooIsActive }
{}

/// The same of a block that acts wherever an activation input of the other is activated.
pub fn fed_too_is_active()
    ensures { FedTooIsActive }
{}

/// Where a block acts under one branch alone and is active, that branch is taken.
pub fn under_is_taken()
    ensures { UnderIsTaken }
{}

/// The mask of an active block lies between the activation inputs that surely are activated and those that may be.
pub fn masks_are_between()
    ensures { MasksAreBetween }
{}

/// The source that a reaction of a live source programs is live.
pub fn programmed_is_live()
    ensures { ProgrammedIsLive }
{}
