//! The bank of any one kind, over the functions of its rule; and tests of what a call of a bank asks.
#![tactic(auto)]

pub mod calls;
mod kind_bank;
mod plain;
mod rule;

pub use kind_bank::KindBank;
pub use plain::{CellRule, Plain};
pub use rule::Rule;
