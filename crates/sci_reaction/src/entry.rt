// The possible blocks of a source, as a pass over them needs them.

/// A branch of a synchronous block, which may activate the block of an entry.
#[derive(Clone, Copy, Drop)]
pub struct Guard {
    /// The synchronous block.
    pub block: u32,
    /// The activation output of this branch.
    pub port: u32,
    /// The activation inputs that the branch feeds: bit `p - 1` for input `p`. None where it comes by inheritance.
    pub mask: u64,
}

/// A block that a source may activate. It is active where the entry is `always`, or where the block of a guard is active and takes
/// the guard's port.
#[derive(Drop)]
pub struct Entry {
    /// The block, by number from 1.
    pub block: u32,
    /// How many blocks the longest chain of dependencies has that ends at it.
    pub depth: usize,
    /// Whether the source activates the block whatever the values are.
    pub always: bool,
    /// The activation inputs that the source itself feeds: bit `p - 1` for input `p`.
    pub mask: u64,
    /// The branches that may activate it, of blocks that the source may activate.
    pub guards: Vec<Guard>,
}
