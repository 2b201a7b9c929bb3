// The rows of a schedule.
ghost use Rattle.std.specs.Prelude.{IfOk};
ghost use Rattle.sci_sched.specs.Plain.{rows_of};
ghost use Rattle.sci_sched.specs.Answer.{IsPlan};
ghost use Rattle.sci_sim.specs.Rows.{AreRowsOf};

use sci_base::NoMemory;
use sci_kept::Kept;
use sci_sched::Schedule;
use sci_store::ReadyRow;
use std::alloc::Global;

/// The rows of a schedule, ready for its reactions.
pub fn rows(alloc: Global, kept: &Kept, plan: Schedule) -> Result<Vec<ReadyRow>, NoMemory>
    requires { IsPlan kept.now.fixed.net (rows_of plan) }
    ensures { IfOk result (λ v. AreRowsOf kept.now.fixed v.items) }
{
    kept.well_formed();
    let Schedule { rows } = plan;
    let mut made = Vec::with_capacity(alloc, rows.len())?;
    for entries in rows {
        made.push(kept.row_of(alloc, entries)?)?;
    }
    Ok(made)
}
