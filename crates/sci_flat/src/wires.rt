// The wires and the feed lists of all blocks.
ghost use Rattle.std.specs.Prelude.{◌≡◌, ◌+◌, ◌<◌, ◌≤◌, All, Contains, IfOk, IfErr, length, ℕ};
ghost use Rattle.sci_net.specs.Parts.{rows_of, paths_of};
ghost use Rattle.sci_blocks.specs.declared.class.PortClass.TheVariants.{Input, ActivationInput};
ghost use Rattle.sci_flat.specs.Lists.{lists_of, list_at};
ghost use Rattle.sci_flat.specs.Origins.{shared};
ghost use Rattle.sci_flat.specs.Sharing.{AllNumbers};
ghost use Rattle.sci_flat.specs.PortNumbers.{start, count};
ghost use Rattle.sci_flat.specs.Wired.{input_list, seat_of, AllWired, AllFed, BreaksAt};
ghost use Rattle.sci_base.specs.Stops.{StopsBy};

use crate::columns::is_taken;
use crate::ends::{Feeding, Sharing};
use crate::refusals::{column_twice, no_source};
use crate::rows::{RowStop, feed_rows, number_row, wire_row};
use crate::steps::PortNumbers;
use sci_base::{NoMemory, Place, Stop};
use sci_forms::Spec;
use sci_net::{Feeds, Wire};
use std::alloc::Global;

/// The wires of all blocks, or the first block that breaks a rule: nothing feeds one of its regular inputs, or else an earlier sensor reads
/// its column.
pub(crate) fn wires(
    alloc: Global,
    feeding: &Feeding,
    seats: &[PortNumbers],
    specs: &[Spec],
    paths: &[Place],
) -> Result<Vec<Vec<Wire>>, Stop>
    requires specs { length specs.now ≡ length seats.now }
    requires paths { length paths.now ≡ length seats.now }
    requires inside { (b k : ℕ) → b < length seats.now → k < count (seat_of seats.now b) Input
        → start (seat_of seats.now b) Input + k < length feeding.now.lists.items }
    requires there { (b k : ℕ) → b < length seats.now → k < count (seat_of seats.now b) Input
        → All (λ i. i < length feeding.now.feeds.items) (input_list (lists_of feeding.now.lists) (seat_of seats.now b) k) }
    ensures wires { IfOk result (λ r. AllWired feeding.now.feeds.items (lists_of feeding.now.lists) seats.now specs.now (length seats.now) (rows_of r.items)) }
    ensures stop { IfErr result (StopsBy (BreaksAt (lists_of feeding.now.lists) seats.now specs.now (paths_of paths.now))) }
{
    let mut rows = Vec::with_capacity(alloc, seats.len())?;
    for block in 0..seats.len() {
        match wire_row(alloc, &feeding.feeds, &feeding.lists, seats[block]) {
            Ok(row) => {
                if is_taken(specs, block) {
                    return Err(column_twice(alloc, &paths[block], &specs[block]));
                }
                rows.push(row)?;
            }
            Err(RowStop::Unfed(k)) => return Err(no_source(alloc, &paths[block], k)),
            Err(RowStop::Memory) => return Err(Stop::Memory),
        }
    }
    Ok(rows)
}

/// The numbers of the lists of all activation inputs.
fn number_rows(
    alloc: Global,
    origins: &[u32],
    seats: &[PortNumbers],
) -> Result<Vec<Vec<u32>>, NoMemory>
    requires { (b p : ℕ) → b < length seats.now → p < count (seat_of seats.now b) ActivationInput
        → start (seat_of seats.now b) ActivationInput + p < length origins.now }
    ensures { IfOk result (λ r. AllNumbers origins.now seats.now (length seats.now) (rows_of r.items)) }
{
    let mut rows = Vec::with_capacity(alloc, seats.len())?;
    for seat in seats {
        rows.push(number_row(alloc, origins, *seat)?)?;
    }
    Ok(rows)
}

/// The activation outputs that feed each activation input.
pub(crate) fn feeds(
    alloc: Global,
    sharing: &Sharing,
    seats: &[PortNumbers],
) -> Result<Feeds, NoMemory>
    requires inside { (b p : ℕ) → b < length seats.now → p < count (seat_of seats.now b) ActivationInput
        → start (seat_of seats.now b) ActivationInput + p < length sharing.now.origins.items }
    requires within { All (λ o. o < length sharing.now.lists.items) sharing.now.origins.items }
    requires under { (q : ℕ) → All (λ i. i < length sharing.now.feeds.items) (list_at (lists_of sharing.now.lists) q) }
    ensures { IfOk result (AllFed sharing.now.feeds.items (shared (lists_of sharing.now.lists) sharing.now.origins.items) seats.now (length seats.now)) }
{
    let lists = feed_rows(alloc, &sharing.feeds, &sharing.lists)?;
    let numbers = number_rows(alloc, &sharing.origins, seats)?;
    Ok(Feeds::new(lists, numbers))
}
