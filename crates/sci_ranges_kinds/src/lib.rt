//! The rules of all kinds as code: from the intervals of a block's states and inputs the cells that each element of its outputs may be, and what
//! its next state may be.
#![tactic(auto)]

mod bitwise;
mod choices;
mod numbers;
mod patterns;
mod products;
mod rules;
mod sums;
mod truths;
mod words;

pub use rules::{cells, next_range, taking};
pub use sums::exact_sums;
pub use words::{fitted_out, input_range, out_type, size, state_range};
