//! What a generated program declares, what its memory holds before the run, which event fires, and how the run ends.
#![tactic(auto)]

mod declared_names;
mod outset_texts;
mod run_texts;

pub use declared_names::declarations;
pub use run_texts::{choose_text, clear_text, main_text, turn_text};
