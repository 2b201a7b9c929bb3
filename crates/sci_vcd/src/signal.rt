// Signals, and changes of their values.

ghost use Rattle.std.specs.Prelude.{◌≡◌};
ghost use Rattle.sci_vcd.specs.Waveforms.{counts, is_within, precedes, is_later};

use sci_base::{Ty, limits};

/// A signal of a dump: an element of a regular output, each counted from 1, and its type.
#[derive(Clone, Copy, Drop)]
pub struct Signal {
    pub block: u32,
    pub port: u32,
    pub element: u32,
    pub ty: Ty,
}

/// From this tick on the signal of this number, counted from 1, has this value.
#[derive(Clone, Copy, Drop)]
pub struct Change {
    pub tick: u64,
    pub signal: u32,
    pub value: i64,
}

/// Whether `n` is from 1 to the greatest.
pub fn counts(greatest: u32, n: u32) -> bool
    ensures { result ≡ counts greatest n }
{
    1 <= n && n <= greatest
}

impl Signal {
    /// Whether it is an element of an output of a block that a net may have.
    pub fn is_within(&self) -> bool
        ensures { result ≡ is_within self.now }
    {
        counts(limits::BLOCKS, self.block)
            && counts(limits::PORTS, self.port)
            && counts(limits::PORT_ELEMENTS, self.element)
    }

    /// Whether it stands before the other, by block, port and element.
    pub fn precedes(&self, other: &Signal) -> bool
        ensures { result ≡ precedes self.now other.now }
    {
        self.block < other.block
            || self.block == other.block
                && (self.port < other.port
                    || self.port == other.port && self.element < other.element)
    }
}

impl Change {
    /// Whether the other is later, by tick and then by signal.
    pub fn is_before(&self, other: &Change) -> bool
        ensures { result ≡ is_later self.now other.now }
    {
        self.tick < other.tick || self.tick == other.tick && self.signal < other.signal
    }
}
