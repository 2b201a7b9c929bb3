// The schedule of a net, and its size.
ghost use Rattle.std.specs.Prelude.{IfOk, IfErr};
ghost use Rattle.sci_sched.specs.Plain.{rows_of};
ghost use Rattle.sci_sched.specs.Answer.{IsPlan, IsPlanStop};
ghost use Rattle.sci_sched.specs.Measured.{AreOutlined, IsMeasured};

use crate::measured::measured;
use crate::outline::{Outline, outlines};
use crate::refusals::length_stop;
use crate::rows::rows;
use crate::sizes::total;
use crate::{Schedule, Size};
use sci_base::{Stop, limits};
use sci_dep::waits;
use sci_inherit::{Reach, origins};
use sci_net::Net;
use std::alloc::Global;

// What is found of a net that has a schedule, before the rows are built.
#[derive(Drop)]
struct Outlined {
    // What activates each block.
    reach: Reach,
    // One for each source, in order.
    outlines: Vec<Outline>,
}

// The outlines of all sources; or the refusal of the first that has a loop (24), or of too many entries and guards (25).
fn outline_all(alloc: Global, net: &Net) -> Result<Outlined, Stop>
    ensures ok { IfOk result (λ o. AreOutlined net.now o) }
    ensures stop { IfErr result (λ e. IsPlanStop net.now e) }
{
    net.well_formed();
    let reach = origins(alloc, net)?;
    let waits = waits(alloc, net, &reach)?;
    let outlines = outlines(alloc, net, &reach, &waits)?;
    let size = total(&outlines);
    if size > limits::ENTRIES {
        return Err(length_stop(alloc, size));
    }
    Ok(Outlined { reach, outlines })
}

/// The schedule of a net. A refusal is of the first source that has an algebraic loop (24): at the loop's least block, with the
/// source's block and port (zeros for start), and then the loop from there, each block depending on the one before it and the first
/// on the last. Or no source has a loop, and the entries and guards of all rows are more than 262,144 (25), with their number; no
/// row is built then.
pub fn plan(alloc: Global, net: &Net) -> Result<Schedule, Stop>
    ensures ok { IfOk result (λ p. IsPlan net.now (rows_of p)) }
    ensures stop { IfErr result (λ e. IsPlanStop net.now e) }
{
    net.well_formed();
    let found = outline_all(alloc, net)?;
    let rows = rows(alloc, net, &found.reach, &found.outlines)?;
    Ok(Schedule { rows })
}

/// How long the schedule of a net is, of which no row is built. A refusal is that of `plan`.
pub fn measure(alloc: Global, net: &Net) -> Result<Size, Stop>
    ensures ok { IfOk result (λ s. IsMeasured net.now s) }
    ensures stop { IfErr result (λ e. IsPlanStop net.now e) }
{
    net.well_formed();
    let found = outline_all(alloc, net)?;
    Ok(measured(&found.outlines))
}
