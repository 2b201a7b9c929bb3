// Calls of the blocks of a run.
use crate::Fate;

/// A call of a block in a run: its slot in its kind's bank, its number, by which its values are found, and the activation inputs that are activated.
#[derive(Clone, Copy, Drop)]
pub struct Call {
    pub slot: usize,
    pub block: u32,
    pub mask: u64,
}

/// The first call of a run whose block has no values.
#[derive(Clone, Copy, Drop)]
pub struct Stuck {
    /// The block.
    pub block: u32,
    /// Why it has none; never `Done`.
    pub fate: Fate,
}
