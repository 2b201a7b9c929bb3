//! A judge of traces: whether a text is the trace of a net's run, or the first line that isn't. The run is done without the static schedules
//! and without an agenda: the depths of a source's blocks are found by rounds, each of which has those all of whose dependencies are done, and
//! the next event is looked for among all that are pending.
#![tactic(auto)]

ghost use Rattle.std.specs.Prelude.{◌≤◌, List, IfOk};
ghost use Rattle.sci_base.specs.declared.limits.TheConstants.{TICKS, EVENTS};
ghost use Rattle.sci_base.specs.declared.observation.Obs.{Obs};
ghost use Rattle.sci_trace.specs.Lines.{text};
ghost use Rattle.sci_agree.specs.Verdict.{IsVerdict};
ghost use Rattle.sci_reaction.specs.Memory.{AreColumns};
ghost use Rattle.sci_run.specs.Laws.{AreLoopFree};
ghost use Rattle.sci_run.specs.Run.{IsRun};
ghost use Rattle.sci_bank.specs.Library.{IsFull};

mod against;
mod entries;
mod judging;
mod programming;
mod rounds;
mod rows;

use against::Against;
use judging::Judging;
use sci_agree::Verdict;
use sci_bank::Bank;
use sci_bank::library::Library;
use sci_base::NoMemory;
use sci_net::Net;
use sci_trace::inputs::Inputs;
use std::alloc::Global;

/// The verdict on a text, where the trace of the net's run is due, past no date over `until`, in ticks of at most 2^62, and for at most
/// `limit` events, at most 1,000,000. No source of the net has a loop, so there is such a run, and each sensor's column is in range.
/// All banks of the library are reset, and an instance of each block is added; all memory is taken before the run, which ends at the first
/// byte that differs. Want of memory is the only error; the banks may hold any instances then.
pub fn judge_trace<B: Bank>(
    alloc: Global,
    n: Net,
    lib: &mut Library<B>,
    inputs: &Inputs,
    until: u64,
    limit: u64,
    trace: &[u8],
) -> Result<Verdict, NoMemory>
    requires until { until ≤ TICKS }
    requires limit { limit ≤ EVENTS }
    requires free { AreLoopFree n }
    requires columns { AreColumns n inputs.now }
    requires full { IsFull lib.old }
    ensures verdict { IfOk result (λ v. (os : List Obs) × IsRun n inputs.now until limit os × IsVerdict (text os) trace.now v) }
    ensures each_run { IfOk result (λ v. (os : List Obs) → IsRun n inputs.now until limit os → IsVerdict (text os) trace.now v) }
    ensures full { IsFull lib.new }
{
    n.well_formed();
    let mut judging = Judging::new(alloc, n, lib)?;
    let mut out = Against::new(trace);
    let _whole = judging.run(lib, inputs, until, limit, &mut out);
    Ok(out.verdict())
}
