// Whether a C program observes anything.
ghost use Rattle.std.specs.Prelude.{◌≤◌, pos};
ghost use Rattle.sci_base.specs.declared.limits.TheConstants.{TICKS, EVENTS};
ghost use Rattle.c_ast.specs.View.{whole_of};
ghost use Rattle.c_mean.specs.Meaning.{meaning};
ghost use Rattle.sci_deliver.specs.Deliver.{IsSilence};

use c_ast::Program;
use c_run::{CEnd, RunStop, run};
use sci_base::NoMemory;
use sci_io::{Failed, Sink};
use sci_trace::inputs::Inputs;
use std::alloc::Global;

/// A sink that fails at each piece. It keeps the first byte of the first one.
#[derive(Drop)]
struct Probe {
    first: Option<u8>,
    // how many pieces came behind the first
    more: u64,
    failing: bool,
}

impl Sink for Probe {
    ghost use Rattle.sci_deliver.specs.Probe.{probe_state};

    ghost state = { λ p. probe_state p.first p.more p.failing };

    #[tactic(auto, using(crate::proofs::Probing::first_index, crate::proofs::Probing::later_piece))]
    fn put(&mut self, piece: &[u8]) -> Result<(), Failed> {
        self.failing = true;
        match self.first {
            None => {
                self.first = Some(piece[0]);
                self.more = 0;
                Err(Failed)
            }
            Some(_) => {
                self.more = self.more.saturating_add(1);
                Err(Failed)
            }
        }
    }

    #[tactic(auto, using(crate::proofs::Probing::flushed_probe))]
    fn flush(&mut self) -> Result<(), Failed> {
        self.failing = false;
        Ok(())
    }

    fn take_unseen(&mut self) -> bool {
        false
    }
}

/// How a C program ends that observes nothing, or none where it observes something. It runs up to its first observation.
#[tactic(auto, using(crate::proofs::Probing::silent_run, crate::proofs::Probing::loud_run))]
pub fn silent_end(
    alloc: Global,
    program: &Program,
    inputs: &Inputs,
    until: u64,
    limit: u64,
) -> Result<Option<CEnd>, NoMemory>
    requires until { until ≤ TICKS }
    requires limit { limit ≤ EVENTS }
    ensures { IsSilence (meaning (whole_of program.now) inputs.now (pos until) (pos limit)) result }
{
    let mut probe = Probe {
        first: None,
        more: 0,
        failing: false,
    };
    match run(alloc, program, inputs, until, limit, &mut probe) {
        Ok(end) => Ok(Some(end)),
        Err(RunStop::Failed) => Ok(None),
        Err(RunStop::Memory) => Err(NoMemory),
    }
}
