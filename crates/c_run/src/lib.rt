//! Running programs of the C subset.
#![tactic(auto)]

mod asks;
mod effects;
mod functions;
mod machine;
mod memory;
mod start;
mod steps;
mod values;

use sci_base::NoMemory;
pub use start::{CEnd, RunStop, run};
