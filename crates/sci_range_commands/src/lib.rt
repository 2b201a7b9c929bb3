//! The command `ranges`: its two words, the files that they name, and the table of ranges that is told of them. `top` does what the words ask for.
#![tactic(auto)]

mod deliver;
mod prepare;
pub mod top;
