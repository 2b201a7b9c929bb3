// A bulk diagram: made, judged and run.
ghost use Rattle.std.specs.Prelude.{◌≤◌, List, [], IfOk};
ghost use Rattle.sci_base.specs.declared.limits.TheConstants.{TICKS};
ghost use Rattle.sci_base.specs.declared.observation.Obs.{Obs};
ghost use Rattle.sci_bulk.specs.Bulk.{bulk};
ghost use Rattle.sci_run.specs.Run.{IsRun};
ghost use Rattle.sci_sched.specs.Answer.{IsPlan};
ghost use Rattle.sci_sched.specs.Plain.{rows_of};
ghost use Rattle.sci_sim.specs.At.{IsTallied};
ghost use Rattle.sci_verdict.specs.Verdict.{IsTreeChecked};
ghost use Rattle.sci_bank.specs.Library.{IsFull};
ghost use Rattle.sci_prepare.specs.BulkCounted.{IsCounted};
ghost use Rattle.sci_answers.specs.Counts.{CountsRun, CountsBulk};

use sci_answers::prepared::BulkCounts;
use sci_bank::Bank;
use sci_bank::library::Library;
use sci_base::{NoMemory, Stop, limits};
use sci_bulk::bulk_diagram;
use sci_io::SureSink;
use sci_net::Net;
use sci_sched::Schedule;
use sci_sim::Ready;
use sci_trace::inputs::Inputs;
use sci_verdict::{Checked, check_diagram};
use std::alloc::Global;

// The bulk diagram of a seed and a size, judged as `check` judges a diagram that was read.
fn judged(alloc: Global, seed: u32, size: u32) -> Result<Checked, Stop>
    requires least { 1 ≤ size }
    requires most { size ≤ 2000 }
    ensures { IsTreeChecked (bulk seed size) result }
{
    let diagram = bulk_diagram(alloc, seed, size)?;
    check_diagram(alloc, &diagram)
}

// A net behind its run without an input file, up to the last date that there is, of at most 1,000 events. Nothing is kept of what it writes.
fn run_net<B: Bank>(
    alloc: Global,
    net: Net,
    schedule: Schedule,
    lib: &mut Library<B>,
) -> Result<Ready, NoMemory>
    requires plan { IsPlan net (rows_of schedule) }
    requires full { IsFull lib.old }
    ensures ran { IfOk result (λ r. (os : List Obs) × IsRun net [] TICKS 1000 os × IsTallied r.store os) }
    ensures counts_run { IfOk result (λ r. CountsRun net [] TICKS 1000 lib.new) }
    ensures full { IsFull lib.new }
{
    net.well_formed();
    let mut ready = Ready::new(alloc, net, schedule, lib)?;
    let inputs = Inputs::of(Vec::new(alloc));
    let mut nowhere = SureSink;
    let _ = ready.run(lib, &inputs, limits::TICKS, 1000, &mut nowhere);
    Ok(ready)
}

/// Makes the bulk diagram of a seed and a size, judges it and runs it on the banks of the library. The answer is what is counted: no such
/// diagram breaks a rule.
pub fn count_bulk<B: Bank>(
    alloc: Global,
    seed: u32,
    size: u32,
    lib: &mut Library<B>,
) -> Result<BulkCounts, Stop>
    requires least { 1 ≤ size }
    requires most { size ≤ 2000 }
    requires full { IsFull lib.old }
    ensures counted { IsCounted seed size result }
    ensures counts_run { IfOk result (λ c. CountsBulk seed size lib.new) }
    ensures full { IsFull lib.new }
{
    let checked = judged(alloc, seed, size)?;
    let blocks = checked.net.len();
    let sources = checked.net.source_count();
    let entries = checked.schedule.entry_count();
    let guards = checked.schedule.guard_count();
    let ran = run_net(alloc, checked.net, checked.schedule, lib)?;
    Ok(BulkCounts {
        blocks,
        sources,
        entries,
        guards,
        lines: ran.lines(),
        sum: ran.sum(),
    })
}
