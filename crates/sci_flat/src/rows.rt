// The wires and the feed lists of one block.
ghost use Rattle.std.specs.Prelude.{◌≡◌, ◌+◌, ◌<◌, ◌≤◌, ◌++◌, ◌∷◌, [], All, IfOk, IfErr, OnOk, map, length, ℕ};
ghost use Rattle.sci_net.specs.Parts.{rows_of};
ghost use Rattle.sci_blocks.specs.declared.class.PortClass.TheVariants.{Input, ActivationInput};
ghost use Rattle.sci_flat.specs.Lists.{list_at, plain};
ghost use Rattle.sci_flat.specs.PortNumbers.{start, count};
ghost use Rattle.sci_flat.specs.Wired.{feed_at, wire_at, input_list, AreWires, IsFirstUnfed};
ghost use Rattle.sci_flat.specs.Sharing.{AreNumbers};
ghost use Rattle.sci_flat.specs.Stops.{IsUnfedStop};

use crate::steps::PortNumbers;
use sci_base::NoMemory;
use sci_blocks::PortClass;
use sci_net::{Feed, Wire};
use std::alloc::{AllocError, AllocFailed, Global};

/// Why a block has no wires: nothing reaches a regular input, which is counted from 0; or there was no memory.
#[derive(Drop)]
pub enum RowStop {
    Unfed(u32),
    Memory,
}

impl From<AllocError> for RowStop {
    ghost use Rattle.std.specs.Prelude.{◌≡◌};
    ghost use Rattle.sci_flat.specs.declared.rows.RowStop.TheVariants.{Memory};

    ghost from_gives = { λ _ e. e ≡ Memory };

    fn from(_e: AllocError) -> RowStop {
        RowStop::Memory
    }
}

impl From<NoMemory> for RowStop {
    ghost use Rattle.std.specs.Prelude.{◌≡◌};
    ghost use Rattle.sci_flat.specs.declared.rows.RowStop.TheVariants.{Memory};

    ghost from_gives = { λ _ e. e ≡ Memory };

    fn from(_e: NoMemory) -> RowStop {
        RowStop::Memory
    }
}

impl<T: Drop> From<AllocFailed<T>> for RowStop {
    ghost use Rattle.std.specs.Prelude.{◌≡◌};
    ghost use Rattle.sci_flat.specs.declared.rows.RowStop.TheVariants.{Memory};

    ghost from_gives = { λ _ e. e ≡ Memory };

    fn from(_e: AllocFailed<T>) -> RowStop {
        RowStop::Memory
    }
}

/// A wire for each regular input of a block: the first of what reaches it.
pub(crate) fn wire_row(
    alloc: Global,
    feeds: &[Feed],
    lists: &[Vec<usize>],
    seat: PortNumbers,
) -> Result<Vec<Wire>, RowStop>
    requires inside { (k : ℕ) → k < count seat Input → start seat Input + k < length lists.now }
    requires there { (k : ℕ) → k < count seat Input → All (λ i. i < length feeds.now) (input_list (plain lists.now) seat k) }
    ensures wires { IfOk result (λ r. AreWires feeds.now (plain lists.now) seat (count seat Input) r.items) }
    ensures unfed { IfErr result (IsUnfedStop (plain lists.now) seat) }
{
    let first = seat.first_of(PortClass::Input);
    let mut row = Vec::with_capacity(alloc, seat.count(PortClass::Input) as usize)?;
    for k in 0..seat.count(PortClass::Input) {
        let list = &lists[(first + u64::from(k)) as usize];
        if list.is_empty() {
            return Err(RowStop::Unfed(k));
        }
        let feed = feeds[list[0]];
        row.push(Wire {
            block: feed.block,
            port: feed.port,
        })?;
    }
    Ok(row)
}

fn feed_list(alloc: Global, feeds: &[Feed], list: &[usize]) -> Result<Vec<Feed>, NoMemory>
    requires { All (λ i. i < length feeds.now) list.now }
    ensures { IfOk result (λ r. r.items ≡ map (feed_at feeds.now) list.now) }
{
    let mut row = Vec::with_capacity(alloc, list.len())?;
    for i in list {
        row.push(feeds[*i])?;
    }
    Ok(row)
}

/// The feeds that lists name by their indices.
pub(crate) fn feed_rows(
    alloc: Global,
    feeds: &[Feed],
    lists: &[Vec<usize>],
) -> Result<Vec<Vec<Feed>>, NoMemory>
    requires { (q : ℕ) → All (λ i. i < length feeds.now) (list_at (plain lists.now) q) }
    ensures { IfOk result (λ r. rows_of r.items ≡ map (map (feed_at feeds.now)) (plain lists.now)) }
{
    let mut rows = Vec::with_capacity(alloc, lists.len())?;
    for list in lists {
        rows.push(feed_list(alloc, feeds, list)?)?;
    }
    Ok(rows)
}

/// The number of the list of each activation input of a block.
pub(crate) fn number_row(
    alloc: Global,
    origins: &[u32],
    seat: PortNumbers,
) -> Result<Vec<u32>, NoMemory>
    requires { (p : ℕ) → p < count seat ActivationInput → start seat ActivationInput + p < length origins.now }
    ensures { IfOk result (λ r. AreNumbers origins.now seat (count seat ActivationInput) r.items) }
{
    let first = seat.first_of(PortClass::ActivationInput);
    let mut row = Vec::with_capacity(alloc, seat.count(PortClass::ActivationInput) as usize)?;
    for p in 0..seat.count(PortClass::ActivationInput) {
        row.push(origins[(first + u64::from(p)) as usize])?;
    }
    Ok(row)
}
