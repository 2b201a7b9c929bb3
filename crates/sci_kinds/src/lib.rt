//! What each kind of block means: the values of its outputs, its next state, its delays and branches, as one table, and the laws
//! that the table keeps. With it come the kinds' forms and specs.
#![tactic(auto)]

ghost use Rattle.std.specs.Prelude.{◌≡◌};
ghost use Rattle.sci_kinds.specs.Table.{mode_of};
ghost use Rattle.sci_kinds.specs.Laws.{FreeInputLaw, FedInputsLaw, LaidInputsLaw, RangeLaw, FirstHeldLaw, DelayLaw, BranchLaw};

use sci_base::Mode;
use sci_forms::values::is_equal;
pub use sci_forms::{Broken, Counts, Detail, Kind, Port, Ports, Role, Spec};

/// What one element of an output is.
#[derive(Clone, Copy, Drop)]
pub enum Cell {
    /// A value in range of the output's type.
    Value(i64),
    /// The exact value is out of range, and the block's mode is to stop.
    Overflow,
    /// The divisor is 0.
    Zero,
}

/// How a result that the type doesn't hold is met, by a code: 0 wraps, 1 saturates, and 2, as any other, stops.
pub fn mode_of(code: i64) -> Mode
    ensures { result ≡ mode_of code }
{
    if is_equal(code, 0) {
        Mode::Wrap
    } else if is_equal(code, 1) {
        Mode::Saturate
    } else {
        Mode::Stop
    }
}

/// Where an input of a typed spec has no feedthrough, the outputs and the branch are the same for all values of this input.
pub fn free_input_law()
    ensures { FreeInputLaw }
{}

/// The outputs and the branch of a typed spec are the same where the inputs with feedthrough are.
pub fn fed_inputs_law()
    ensures { FedInputsLaw }
{}

/// The same where the values of each input are a list of their own, of whatever length.
pub fn laid_inputs_law()
    ensures { LaidInputsLaw }
{}

/// With inputs, state and mask in range the values of the outputs and of the next state are in range.
pub fn range_law()
    ensures { RangeLaw }
{}

/// The first state and the outputs before the first activation are in range.
pub fn first_held_law()
    ensures { FirstHeldLaw }
{}

/// A delay is from -1 to 2^31 - 1 ticks.
pub fn delay_law()
    ensures { DelayLaw }
{}

/// A branch is from 1 to the number of activation outputs.
pub fn branch_law()
    ensures { BranchLaw }
{}
