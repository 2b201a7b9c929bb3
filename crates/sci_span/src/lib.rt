//! Where values lie in one list of all: spans, the places of one block's outputs and inputs, and what goes into a block.
#![tactic(auto)]

mod entering;
mod inputs;
mod place;
mod span;

pub use entering::Entering;
pub use inputs::InputSpans;
pub use place::Place;
pub use span::{Span, spans_length};
