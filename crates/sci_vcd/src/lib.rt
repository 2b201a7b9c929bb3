//! Value change dumps, in a profile of IEEE 1364: what a dump says, its one spelling, reading it, and writing one as a net runs.
#![tactic(auto)]

mod draft;
mod dump;
mod laws;
mod line;
mod line_end;
mod machine;
mod net_signals;
mod pages;
mod put;
mod read;
mod signal;
mod signal_lines;
mod spell;
mod writer;

pub use dump::Dump;
pub use laws::{net_has_signals, not_both, one_dump, one_first_wrong, written_is_dump};
pub use read::{VcdStop, read_vcd};
pub use signal::{Change, Signal};
pub use writer::VcdOut;
