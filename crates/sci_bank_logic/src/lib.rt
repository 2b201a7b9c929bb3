//! The banks of the logical kinds, numbers 14 to 23. A kind is the function of one element of its output; storage, loops,
//! counting and stops are `KindBank`'s.
#![tactic(auto)]

mod and_log;
mod bit_clear;
mod bit_set;
mod extract_bits;
mod logic;
mod logical_op;
mod patterns;
mod relational_op;
mod select;
mod shift;
mod switch2;

pub use and_log::{AndLog, AndLogRule};
pub use bit_clear::{BitClear, BitClearRule};
pub use bit_set::{BitSet, BitSetRule};
pub use extract_bits::{ExtractBits, ExtractBitsRule};
pub use logic::{Logic, LogicRule};
pub use logical_op::{LogicalOp, LogicalOpRule};
pub use relational_op::{RelationalOp, RelationalOpRule};
pub use select::{Select, SelectRule};
pub use shift::{Shift, ShiftRule};
pub use switch2::{Switch2, Switch2Rule};
