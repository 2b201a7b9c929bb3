//! The C texts on the table of due dates: how the next event is chosen among several sources, and how a source is programmed. They know no net.
#![tactic(auto)]

mod choice_texts;
pub mod names;
pub mod pieces;
mod program_texts;

pub use choice_texts::{group_count, scan_text};
pub use program_texts::delayed_text;
