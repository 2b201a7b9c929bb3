//! The dump of a run: a net's run, written as a value change dump as it goes.
#![tactic(auto)]

mod driver;
mod laws;
mod noting;

pub use driver::dump_run;
pub use laws::one_run_dump;
