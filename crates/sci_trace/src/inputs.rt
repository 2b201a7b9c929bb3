// Reads the file of sensor values: a JSON list (RFC 8259) of lists of whole numbers. List k is column k.
mod inputs;
mod read;

pub use inputs::{Inputs, Need};
pub use read::read_inputs;
