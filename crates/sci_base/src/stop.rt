// Why a call has no value.
ghost use Rattle.std.specs.Prelude.{◌≡◌};
ghost use Rattle.sci_base.specs.Stops.{IsViolation};

use crate::{Refusal, Rule};
use std::alloc::{AllocError, AllocFailed, Global};

/// There was no memory.
#[derive(Clone, Copy, Debug, Drop)]
pub struct NoMemory;

impl From<AllocError> for NoMemory {
    fn from(_e: AllocError) -> NoMemory {
        NoMemory
    }
}

impl<T: Drop> From<AllocFailed<T>> for NoMemory {
    fn from(_e: AllocFailed<T>) -> NoMemory {
        NoMemory
    }
}

/// Why a call that judges a file, or a part of one, has no value.
#[derive(Drop)]
pub enum Stop {
    /// It breaks a rule.
    Refused(Refusal),
    /// There was no memory.
    Memory,
}

impl Stop {
    /// The refusal by a rule at a place, with these numbers, or want of memory for it.
    #[cold]
    #[inline(never)]
    pub fn by(alloc: Global, rule: Rule, place: &[u32], detail: &[i64]) -> Stop
        ensures { IsViolation (record { rule = rule; place = place.now; detail = detail.now }) result }
    {
        match Refusal::of(alloc, rule, place, detail) {
            Ok(refusal) => Stop::Refused(refusal),
            Err(NoMemory) => Stop::Memory,
        }
    }
}

impl From<NoMemory> for Stop {
    ghost use Rattle.sci_base.specs.declared.stop.Stop.TheVariants.{Memory};

    ghost from_gives = { λ _ e. e ≡ Memory };

    fn from(_e: NoMemory) -> Stop {
        Stop::Memory
    }
}

impl From<AllocError> for Stop {
    ghost use Rattle.sci_base.specs.declared.stop.Stop.TheVariants.{Memory};

    ghost from_gives = { λ _ e. e ≡ Memory };

    fn from(_e: AllocError) -> Stop {
        Stop::Memory
    }
}

impl<T: Drop> From<AllocFailed<T>> for Stop {
    ghost use Rattle.sci_base.specs.declared.stop.Stop.TheVariants.{Memory};

    ghost from_gives = { λ _ e. e ≡ Memory };

    fn from(_e: AllocFailed<T>) -> Stop {
        Stop::Memory
    }
}
