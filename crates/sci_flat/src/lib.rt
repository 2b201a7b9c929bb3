//! The flat net of a diagram: its blocks without superblocks and pass-through objects, and which port feeds which.
#![tactic(auto)]

ghost use Rattle.sci_flat.specs.Rows.{WorkedFeeds};

mod blocks;
mod columns;
mod ends;
mod flat;
mod laws;
pub mod reach;
mod refusals;
mod rows;
pub mod single;
pub mod steps;
mod wires;

pub use flat::flatten;
pub use laws::{drawn_alone, one_verdict, one_violation, read_is_ready};

/// The definitions say what was worked out by hand for a small diagram.
pub fn worked_feeds()
    ensures { WorkedFeeds }
{}
