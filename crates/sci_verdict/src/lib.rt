//! The verdict on a diagram, in memory or as a file: its net with its schedules, or the first rule that it breaks.
#![tactic(auto)]

ghost use Rattle.sci_verdict.specs.Laws.{OneVerdict, OneTreeVerdict};

mod checked;
mod verdict;

pub use checked::{Checked, Measured};
pub use verdict::{check, check_diagram, diagram_net, measure, typed_net};

/// Of each file at most one verdict holds, and so of each diagram; but that any loop of the least source that has one may be told.
pub fn one_verdict()
    ensures file { OneVerdict }
    ensures tree { OneTreeVerdict }
{}
