//! Texts and numbers at the front of bytes, in their one spelling, and the lines of a text.
#![tactic(auto)]

mod lines;
mod stop;
mod text;

pub use lines::split_line;
pub use stop::TextStop;
pub use text::{after_text, digits_len, number};
