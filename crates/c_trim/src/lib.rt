//! Variables that no text of a program names aren't declared. What the program means stays, and so do its bounds and its static rules.
#![tactic(auto)]

mod declarations;
mod laws;
mod texts;

pub use declarations::trim;
pub use laws::{meaning_law, reads_law, rules_law, turns_law, whole_law};
