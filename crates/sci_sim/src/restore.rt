// A net that stands where a run was saved.
ghost use Rattle.std.specs.Prelude.{◌≡◌, flat_map, IfOk};
ghost use Rattle.sci_sched.specs.Plain.{rows_of as plan_of};
ghost use Rattle.sci_sched.specs.Answer.{IsPlan};
ghost use Rattle.sci_bank.specs.Library.{IsFull};
ghost use Rattle.sci_run.specs.Anew.{numbered_anew};
ghost use Rattle.sci_run.specs.Laws.{AreLoopFree};
ghost use Rattle.sci_save.specs.Saved.{saved_of};
ghost use Rattle.sci_save.specs.Valid.{ArePending, IsShaped};
ghost use Rattle.sci_sim.specs.Programming.{Keeps};
ghost use Rattle.sci_sim.specs.Restored.{IsKeptOf};

use crate::programming::program;
use crate::ready::Ready;
use crate::rows::rows;
use sci_agenda::wheel::WheelAgenda;
use sci_bank::Bank;
use sci_bank::library::Library;
use sci_base::NoMemory;
use sci_kept::Kept;
use sci_net::Net;
use sci_save::Image;
use sci_sched::Schedule;
use std::alloc::Global;

/// The numbers of all rows, one row behind the other.
fn joined(alloc: Global, rows: &[Vec<i64>]) -> Result<Vec<i64>, NoMemory>
    ensures { IfOk result (λ v. v.items ≡ flat_map (λ row. row.items) rows.now) }
{
    let mut numbers = Vec::new(alloc);
    for row in rows {
        numbers.extend_from_slice(row)?;
    }
    Ok(numbers)
}

/// Cursors as places in columns.
fn places(alloc: Global, cursors: &[u64]) -> Result<Vec<usize>, NoMemory>
    ensures { IfOk result (λ v. v.items ≡ cursors.now) }
{
    let mut places = Vec::with_capacity(alloc, cursors.len())?;
    for cursor in cursors {
        places.push(*cursor as usize)?;
    }
    Ok(places)
}

/// What a run keeps, of what was saved: the states of blocks, what outputs hold, and how many values sensors have taken. Where memory is wanting, the
/// banks may hold any instances.
fn saved<B: Bank>(
    alloc: Global,
    n: Net,
    image: &Image,
    lib: &mut Library<B>,
) -> Result<Kept, NoMemory>
    requires free { AreLoopFree n }
    requires full { IsFull lib.old }
    requires shaped { IsShaped n (saved_of image.now) }
    ensures saved { IfOk result (λ k. IsKeptOf n k lib.new (saved_of image.entry.now)) }
    ensures full { IsFull lib.new }
{
    n.well_formed();
    let values = joined(alloc, &image.held)?;
    let cursors = places(alloc, &image.cursors)?;
    Kept::in_states(alloc, n, &image.states, values, cursors, lib)
}

/// A wheel with the pending events that were saved at the date `now`, programmed in the order in which they fire. Its dates are less by `now`.
fn saved_wheel(
    alloc: Global,
    net: &Net,
    pending: &[(u64, u32)],
    now: u64,
) -> Result<WheelAgenda, NoMemory>
    requires { ArePending net.now now pending.now }
    ensures { IfOk result (λ w. Keeps net.now now now w.meaning w.puts (numbered_anew pending.now)) }
{
    let mut wheel = WheelAgenda::new(alloc, net.source_count() - 1)?;
    for (date, source) in pending {
        program(&mut wheel, 0, (*date - now) as i64, *source);
    }
    Ok(wheel)
}

impl Ready {
    ghost use Rattle.sci_sim.specs.Restored.{IsRestored};

    /// The net at the state that was saved, over the schedule of the net and a full library. It resets all banks, adds an instance for each block in its
    /// saved state, and programs the pending events; it takes all memory of the run. The banks, the observations and the dates of `wheel` are counted
    /// from there on. Where memory is wanting, the banks may hold any instances.
    pub fn restore<B: Bank>(
        alloc: Global,
        n: Net,
        p: Schedule,
        lib: &mut Library<B>,
        image: &Image,
    ) -> Result<Ready, NoMemory>
        requires full { IsFull lib.old }
        requires plan { IsPlan n (plan_of p) }
        requires shaped { IsShaped n (saved_of image.now) }
        ensures restored { IfOk result (λ r. IsRestored n r lib.new (saved_of image.entry.now)) }
        ensures full { IsFull lib.new }
    {
        n.well_formed();
        let wheel = saved_wheel(alloc, &n, &image.pending, image.now)?;
        let kept = saved(alloc, n, image, lib)?;
        kept.well_formed();
        lib.well_formed();
        let rows = rows(alloc, &kept, p)?;
        Ok(Ready {
            kept,
            rows,
            wheel,
            offset: image.now,
            now: image.now,
            fired: image.fired,
            row: 0,
            has_row: false,
            started: true,
            halted: false,
        })
    }
}
