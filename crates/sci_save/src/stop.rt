// Why nothing was read.
ghost use Rattle.std.specs.Prelude.{◌≡◌};

use sci_base::NoMemory;
use std::alloc::{AllocError, AllocFailed};

/// Why a text saves nothing.
#[derive(Drop)]
pub enum SaveStop {
    /// This line is blamed, counted from 1: the first with which the text goes on as no text of what may be saved of the net. It is one more than
    /// there are lines where a line is missing.
    NotSave(u64),
    /// There was no memory.
    Memory,
}

/// Why a line, or lines, weren't read.
#[derive(Drop)]
pub enum LineStop {
    /// There was no memory.
    Memory,
    /// A line isn't as it has to be; so many bytes of the text stand from its beginning on.
    Broken(usize),
}

impl From<AllocError> for LineStop {
    ghost use Rattle.sci_save.specs.declared.stop.LineStop.TheVariants.{Memory};

    ghost from_gives = { λ _ e. e ≡ Memory };

    fn from(_e: AllocError) -> LineStop {
        LineStop::Memory
    }
}

impl From<NoMemory> for LineStop {
    ghost use Rattle.sci_save.specs.declared.stop.LineStop.TheVariants.{Memory};

    ghost from_gives = { λ _ e. e ≡ Memory };

    fn from(_e: NoMemory) -> LineStop {
        LineStop::Memory
    }
}

impl<T: Drop> From<AllocFailed<T>> for LineStop {
    ghost use Rattle.sci_save.specs.declared.stop.LineStop.TheVariants.{Memory};

    ghost from_gives = { λ _ e. e ≡ Memory };

    fn from(_e: AllocFailed<T>) -> LineStop {
        LineStop::Memory
    }
}
