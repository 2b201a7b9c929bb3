// The verdict on a diagram and on its file, phase by phase.
ghost use Rattle.std.specs.Prelude.{◌≤◌, length};
ghost use Rattle.sci_base.specs.declared.limits.TheConstants.{DIAGRAM_BYTES};
ghost use Rattle.sci_diagram.specs.Objects.{diagram_view};
ghost use Rattle.sci_flat.specs.Ready.{IsReady};
ghost use Rattle.sci_verdict.specs.Verdict.{IsTyped, IsChecked, IsMeasured, IsTreeTyped, IsTreeChecked};

use crate::checked::{Checked, Measured};
use sci_base::Stop;
use sci_diagram::{Diagram, read};
use sci_flat::flatten;
use sci_infer::infer;
use sci_net::Net;
use sci_sched::{measure as schedule_size, plan};
use std::alloc::Global;

/// The typed net of a diagram, or the first rule that it breaks: of tags (34, 31, 32, 33), of blocks and links (14, 7, 9, 10, 11, 8; 12, 13),
/// of what feeds each input (15, 16), of types and sizes (17 to 23).
pub fn diagram_net(alloc: Global, diagram: &Diagram) -> Result<Net, Stop>
    requires { IsReady (diagram_view diagram.now) }
    ensures { IsTreeTyped (diagram_view diagram.now) result }
{
    let flat = flatten(alloc, diagram)?;
    infer(alloc, flat)
}

/// The typed net of a diagram with its static schedules, or the first rule that it breaks: one of those of `diagram_net`, or else a loop
/// at the least source that has one (24), or schedules that are too long (25).
pub fn check_diagram(alloc: Global, diagram: &Diagram) -> Result<Checked, Stop>
    requires { IsReady (diagram_view diagram.now) }
    ensures { IsTreeChecked (diagram_view diagram.now) result }
{
    let typed = diagram_net(alloc, diagram)?;
    let schedule = plan(alloc, &typed)?;
    Ok(Checked {
        net: typed,
        schedule,
    })
}

/// The typed net of a diagram's file, or the first rule that it breaks: of the file's form (1 to 6), of tags (34, 31, 32,
/// 33), of blocks and links (14, 7, 9, 10, 11, 8; 12, 13), of what feeds each input (15, 16), of types and sizes (17 to 23).
pub fn typed_net(alloc: Global, bytes: &[u8]) -> Result<Net, Stop>
    requires { length bytes.now ≤ DIAGRAM_BYTES }
    ensures { IsTyped bytes.now result }
{
    let diagram = read(alloc, bytes)?;
    diagram_net(alloc, &diagram)
}

/// The typed net of a diagram's file with its static schedules, or the first rule that it breaks: one of those of `typed_net`, or
/// else a loop at the least source that has one (24), or schedules that are too long (25).
pub fn check(alloc: Global, bytes: &[u8]) -> Result<Checked, Stop>
    requires { length bytes.now ≤ DIAGRAM_BYTES }
    ensures { IsChecked bytes.now result }
{
    let net = typed_net(alloc, bytes)?;
    let schedule = plan(alloc, &net)?;
    Ok(Checked { net, schedule })
}

/// The typed net of a diagram's file with the size of its static schedules, which are not built; or the first rule that it breaks, one of
/// those of `check`.
pub fn measure(alloc: Global, bytes: &[u8]) -> Result<Measured, Stop>
    requires { length bytes.now ≤ DIAGRAM_BYTES }
    ensures { IsMeasured bytes.now result }
{
    let net = typed_net(alloc, bytes)?;
    let size = schedule_size(alloc, &net)?;
    Ok(Measured { net, size })
}
