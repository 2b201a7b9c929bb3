//! Where a generated program assigns and shows the values of blocks, where these lie, and what the functions of blocks do there.
#![tactic(auto)]

ghost use Rattle.sci_cgen_laws.specs.Laws.{ProgramKeepsValues, ProgramHasPlaces, ProgramHasTexts};

/// Values are assigned by the functions of blocks, and by the assignments with which `sci_main` begins, alone; and each value that is shown is one of them.
pub fn values_are_the_blocks()
    ensures { ProgramKeepsValues }
{}

/// The function of each block that the schedule has does what the table of kinds says of the block, from any memory that has what goes into it. It works on
/// places of its own in the arrays of values, states and masks, but that an input lies where the output lies that feeds it.
pub fn places_are_apart()
    ensures { ProgramHasPlaces }
{}

/// The function of each block that the schedule has is the text of its kind's values over these places, whose numbers C can spell.
pub fn bodies_are_texts()
    ensures { ProgramHasTexts }
{}
