// Where the values of one block lie.
ghost use Rattle.std.specs.Prelude.{IsTrue, ◌↔◌};
ghost use Rattle.sci_span.specs.Values.{IsLone};

use crate::inputs::InputSpans;
use crate::span::Span;

/// Where the outputs of a block lie, and for each of its inputs the output that feeds it.
#[derive(Drop)]
pub struct Place {
    pub outs: Span,
    pub ins: InputSpans,
}

impl Place {
    /// Whether each input has one element, and the outputs have one at most.
    pub fn is_lone(&self) -> bool
        ensures { IsTrue result ↔ IsLone self.now }
    {
        self.outs.len <= 1 && self.ins.singles().is_some()
    }
}
