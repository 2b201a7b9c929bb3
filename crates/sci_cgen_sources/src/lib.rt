//! The functions of sources: a source's reaction, and what follows it.
#![tactic(auto)]

mod parts;
mod row_texts;
mod settle_texts;
mod source_functions;

pub use parts::has_own;
pub use source_functions::{settle_function, source_function};
