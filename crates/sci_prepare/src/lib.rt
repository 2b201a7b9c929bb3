//! A command with all that it needs: its words are parsed and its files are looked at, and nothing is written.
#![tactic(auto)]

mod bulk;
mod host;
pub mod prepare;
