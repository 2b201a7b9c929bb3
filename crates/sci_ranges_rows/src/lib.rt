//! What the rows of a schedule say of which blocks act together, where some branches are dead: tests over marks, and that they show it.
#![tactic(auto)]

ghost use Rattle.sci_ranges_rows.specs.Laws.{MarkedMayAct, ShownByTest, AlongByTest, UnderByTest, MasksByTest};

/// The marks of a row are those of the blocks that its source may activate.
pub fn marked_may_act()
    ensures { MarkedMayAct }
{}

/// Where the test of an input holds, it takes what its feeder shows.
pub fn shown_by_test()
    ensures { ShownByTest }
{}

/// Where the test of two blocks holds, the one acts wherever the other does.
pub fn along_by_test()
    ensures { AlongByTest }
{}

/// Where the test of a branch holds, the block acts under that branch alone.
pub fn under_by_test()
    ensures { UnderByTest }
{}

/// Each live source that may activate a block has masks in the list.
pub fn masks_by_test()
    ensures { MasksByTest }
{}
