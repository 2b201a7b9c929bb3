// What the texts of a block do in a memory, and what they are, as promises to a reader.
ghost use Rattle.sci_cgen_blocks.specs.Laws.{ValuesLaw, SensorLaw, NextStateLaw, DelayLaw, BranchLaw, MayLaw, BoundsLaw, RulesLaw};

/// The statements of `block_body` leave a block's values at the places of its outputs, or stop the run, as the table of kinds says.
pub fn values_law()
    ensures { ValuesLaw }
{}

/// Those of a SENSOR take the next value of its column, or stop the run where it has none.
pub fn sensor_law()
    ensures { SensorLaw }
{}

/// The statements of `block_next` leave the next state at its place.
pub fn next_state_law()
    ensures { NextStateLaw }
{}

/// The expression of `block_delay` has the delay's value.
pub fn delay_law()
    ensures { DelayLaw }
{}

/// The expression of `block_branch` has the number of the branch.
pub fn branch_law()
    ensures { BranchLaw }
{}

/// What these statements assign: values and scratch, or the state and scratch. They call nothing and show nothing.
pub fn may_law()
    ensures { MayLaw }
{}

/// They are within the bounds of the subset.
pub fn bounds_law()
    ensures { BoundsLaw }
{}

/// They keep the static rules wherever their names are declared: values and states as arrays, masks too where the block's kind looks at its own, and as many
/// scratch numbers as `scratch_of` says as scalars.
pub fn rules_law()
    ensures { RulesLaw }
{}
