// A broken rule of a block, without its place.
ghost use Rattle.sci_base.specs.Stops.{IsViolation};
ghost use Rattle.sci_forms.specs.Broken.{violation_at};

use sci_base::{Rule, Stop};
use std::alloc::Global;

/// The numbers that a refusal shows.
#[derive(Clone, Copy, Drop)]
pub enum Detail {
    Empty,
    Pair(i64, i64),
    Triple(i64, i64, i64),
}

/// A rule that a block breaks.
#[derive(Clone, Copy, Drop)]
pub struct Broken {
    pub rule: Rule,
    pub detail: Detail,
}

impl Broken {
    /// The refusal of the block at a place that breaks this rule, or want of memory for it.
    #[cold]
    pub fn stop(self, alloc: Global, place: &[u32]) -> Stop
        ensures { IsViolation (violation_at place.now self) result }
    {
        match self.detail {
            Detail::Empty => Stop::by(alloc, self.rule, place, &[]),
            Detail::Pair(first, second) => Stop::by(alloc, self.rule, place, &[first, second]),
            Detail::Triple(first, second, third) => {
                Stop::by(alloc, self.rule, place, &[first, second, third])
            }
        }
    }
}
