// Which ports a port leads to, over ports that are numbered from 0 and joined by steps: each port that is asked for gets the sources that
// reach it.
mod forward;
mod origins;
mod search;
mod successors;

pub use forward::reached;
pub use origins::find_origins;
pub use successors::{Successors, successors_of};
