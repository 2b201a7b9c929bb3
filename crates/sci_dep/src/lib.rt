//! The possible blocks of a source, and what each of them depends on.
#![tactic(auto)]

ghost use Rattle.std.specs.Prelude.{◌≡◌, ◌+◌, ◌<◌, length, All, IfOk, OnOk};
ghost use Rattle.sci_net.specs.declared.Source.{Source};
ghost use Rattle.sci_net.specs.Parts.{IsBlock};
ghost use Rattle.sci_net.specs.Sources.{sources_of, source_of};
ghost use Rattle.sci_inherit.specs.Origins.{AreOrigins};
ghost use Rattle.sci_dep.specs.Tables.{AreWaits, ArePossible, IsTableOf};

mod table;
mod waiting;

use sci_base::NoMemory;
use sci_inherit::Reach;
use sci_loop::DepTable;
use sci_loop::walk::Walk;
use sci_net::Net;
use std::alloc::Global;
pub use waiting::Waits;

/// What each block waits for, whatever the source is. Want of memory is the only error.
pub fn waits(alloc: Global, net: &Net, reach: &Reach) -> Result<Waits, NoMemory>
    requires { AreOrigins net.now reach.now }
    ensures { IfOk result (λ w. AreWaits net.now w) }
{
    waiting::made(alloc, net, reach)
}

/// Finds, by a walk over the numbers of the blocks and 0, which is no block, the blocks that the source at this place may activate. The
/// time is that of the walk. Want of memory is the only error; what the walk has found then is left open.
pub fn possible(net: &Net, reach: &Reach, source: u32, walk: &mut Walk) -> Result<(), NoMemory>
    requires origins { AreOrigins net.now reach.now }
    requires source { source < length (sources_of net.now) }
    requires count { walk.old.count ≡ length net.now.specs + 1 }
    ensures count { walk.new.count ≡ walk.old.count }
    ensures possible { OnOk result (ArePossible net.now (source_of net.now source) walk.new.found) }
    ensures blocks { OnOk result (All (IsBlock net.now) walk.new.found) }
{
    net.well_formed();
    walk.walk(reach.onward(), reach.always(source))
}

/// The table of the dependencies among the blocks that the walk has found: that of each source whose possible blocks they are. The time is
/// that of sorting them, and of a look at each block that one of them waits for. Want of memory is the only error.
pub fn depends(alloc: Global, net: &Net, waits: &Waits, walk: &Walk) -> Result<DepTable, NoMemory>
    requires waits { AreWaits net.now waits.now }
    requires count { walk.now.count ≡ length net.now.specs + 1 }
    requires blocks { All (IsBlock net.now) walk.now.found }
    ensures { IfOk result (λ t. (s : Source) → ArePossible net.now s walk.now.found → IsTableOf net.now s t) }
{
    table::made(alloc, net, waits, walk)
}
