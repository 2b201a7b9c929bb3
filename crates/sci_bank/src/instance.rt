// An instance of a bank.
use crate::words::Words;
use sci_base::Ints;

/// An instance of a bank: a block's spec, and the state that it is in.
#[derive(Drop)]
pub struct Instance {
    pub spec: Words,
    pub state: Ints,
}
