//! Where the values of a net's blocks lie in one list of all: those of each block's outputs, and of the outputs that feed its inputs.
#![tactic(auto)]

ghost use Rattle.sci_places.specs.Laws.{InputsAreGathered, OutputsAreWritten};

mod laying;
mod places;

pub use places::Places;
pub use sci_span::Span;

/// The values at the places of a block's inputs are those of its inputs.
pub fn inputs_are_gathered()
    ensures { InputsAreGathered }
{}

/// Values written at a block's place are those of the block; the other blocks keep theirs.
pub fn outputs_are_written()
    ensures { OutputsAreWritten }
{}
