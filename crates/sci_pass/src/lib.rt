//! Laws of the pass over a row: what is done stays done. And of the table of kinds: a kind without delays programs nothing, a kind without a
//! state keeps the empty one, and the state that a block begins with changes nothing of what it means.
#![tactic(auto)]

ghost use Rattle.sci_pass.specs.Laws.{BranchStays, MaskStays, ActivityStays, AppliedIsDone, AppliedAreActive, NotesGoOn, OneMask, NoDelay, NoState};
ghost use Rattle.sci_pass.specs.Laws.{StateStays, SameButState};

/// The values of the entry at hand change no branch of a block that is done, nor its own.
pub fn branch_stays()
    ensures { BranchStays }
{}

/// They change no mask of these blocks.
pub fn mask_stays()
    ensures { MaskStays }
{}

/// And not which of these blocks are active.
pub fn activity_stays()
    ensures { ActivityStays }
{}

/// A block of which an entry applied is done.
pub fn applied_is_done()
    ensures { AppliedIsDone }
{}

/// Behind a whole row the blocks whose entries applied are those that are active.
pub fn applied_are_active()
    ensures { AppliedAreActive }
{}

/// A branch and a mask that are noted once stay true.
pub fn notes_go_on()
    ensures { NotesGoOn }
{}

/// A block has at most one mask.
pub fn one_mask()
    ensures { OneMask }
{}

/// An activation output of a kind without delays programs nothing.
pub fn no_delay()
    ensures { NoDelay }
{}

/// The state of a kind without a state is empty.
pub fn no_state()
    ensures { NoState }
{}

/// The state of a kind without a state stays.
pub fn state_stays()
    ensures { StateStays }
{}

/// Specs that are the same apart from the state that they begin with mean the same.
pub fn same_but_state()
    ensures { SameButState }
{}
