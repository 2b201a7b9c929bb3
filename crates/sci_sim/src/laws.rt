// When a step may be done, what is saved of a net, and what the banks have counted together.
ghost use Rattle.sci_sim.specs.Laws.{MayBegin, MayFollow, MayGoOn, SavedAgain};
ghost use Rattle.sci_sim.specs.Totals.{StateAddsUp, StopAddsUp};

/// A step may be done before the run, behind a step that answered that the run goes on, and at any state behind a reaction at which
/// `due_end` tells no end.
pub fn a_step_may_be_done()
    ensures at_start { MayBegin }
    ensures behind_a_step { MayFollow }
    ensures behind_a_reaction { MayGoOn }
{}

/// What is saved of a net that was restored, before it goes on, is what was saved.
pub fn what_is_restored_is_saved()
    ensures { SavedAgain }
{}

/// Behind a step, and behind a run that has ended, the sum of what the banks have counted since `new` or `restore` is how many blocks were active since,
/// as far as 64 bits go. Where a reaction stopped, that is at least how many were active before, and at most one more for each block that its source
/// may activate.
pub fn the_banks_add_up()
    ensures at_a_state { StateAddsUp }
    ensures at_a_stop { StopAddsUp }
{}
