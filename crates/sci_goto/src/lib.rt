//! Tags: objects that carry a link without drawing it. The rules on tag objects, and which serves which.
#![tactic(auto)]

ghost use Rattle.sci_goto.specs.Worked.{WorkedTags};

mod givers;
mod laws;
mod parameters;
mod placed;
mod served;
mod serving;
mod tag;

pub use laws::{names_law, untagged_law};
pub use served::serve;
pub use serving::Serving;
pub use tag::{Scope, Tag, TagForm};

/// The definitions say what was worked out by hand for small diagrams.
pub fn worked_tags()
    ensures { WorkedTags }
{}
