// What goes in with a sum.
ghost use Rattle.std.specs.Prelude.{◌<◌};

use sci_ranges_base::Interval;

/// A sum that adds what one input has, and subtracts on another one that shifted to the right.
#[derive(Clone, Copy, Debug, Drop, PartialEq, Eq)]
pub struct Leak {
    /// The input that is added, from 0.
    pub kept: usize,
    /// The input that is subtracted, from 0.
    pub lost: usize,
    /// By how many places it is shifted, less than 32.
    pub places: u32,
    ghost few: { places < 32 },
}

/// What goes into the block whose difference a sum follows.
#[derive(Drop)]
pub struct Followed {
    /// The block, from 1.
    pub block: u32,
    /// Of each element of its inputs, counted through all of them, the numbers that go in, if ever any do.
    pub ins: Vec<Option<Interval>>,
}

/// What goes in with a sum: the difference that it follows, and what it leaks.
#[derive(Drop)]
pub struct Beside {
    /// What goes into the block whose difference it follows, if it follows one.
    pub followed: Option<Followed>,
    /// What it leaks, if it does.
    pub leak: Option<Leak>,
}
