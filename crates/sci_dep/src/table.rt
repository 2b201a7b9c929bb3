// The table of a source.
ghost use Rattle.std.specs.Prelude.{◌≡◌, ℕ, ◌+◌, ◌<◌, ◌≤◌, ◌↔◌, [], length, All, Contains, IfOk, OnOk};
ghost use Rattle.std.specs.List.Sorted.{IsStrictlyIncreasing};
ghost use Rattle.sci_loop.specs.Lists.{plain};
ghost use Rattle.sci_net.specs.declared.Source.{Source};
ghost use Rattle.sci_net.specs.Parts.{numbered, IsBlock};
ghost use Rattle.sci_dep.specs.Tables.{AreWaits, ArePossible, IsTableOf};
ghost use Rattle.sci_dep.specs.Building.{KeepsFound, AreNeeds};

use crate::waiting::Waits;
use sci_base::NoMemory;
use sci_loop::DepTable;
use sci_loop::walk::Walk;
use sci_net::Net;
use std::alloc::Global;

// What the walk has found, in order.
fn members(alloc: Global, walk: &Walk) -> Result<Vec<u32>, NoMemory>
    ensures rising { IfOk result (λ v. IsStrictlyIncreasing v.items) }
    ensures exactly { IfOk result (λ v. (b : ℕ) → Contains v.items b ↔ Contains walk.now.found b) }
{
    let mut members = walk.found().to_vec(alloc)?;
    members.sort_unstable();
    Ok(members)
}

// Those of some blocks, in order, that the walk has found.
fn needs_of(alloc: Global, blocks: &[u32], walk: &Walk) -> Result<Vec<u32>, NoMemory>
    requires rising { IsStrictlyIncreasing blocks.now }
    requires within { All (λ b. b < walk.now.count) blocks.now }
    ensures { IfOk result (λ v. KeepsFound walk.now.found blocks.now v.items) }
{
    let mut needs = Vec::new(alloc);
    for block in blocks {
        if walk.has(*block) {
            needs.push(*block)?;
        }
    }
    Ok(needs)
}

// What each of these blocks waits for, as far as the walk has found it.
fn needs(
    alloc: Global,
    net: &Net,
    waits: &Waits,
    members: &[u32],
    walk: &Walk,
) -> Result<Vec<Vec<u32>>, NoMemory>
    requires waits { AreWaits net.now waits.now }
    requires count { walk.now.count ≡ length net.now.specs + 1 }
    requires blocks { All (IsBlock net.now) members.now }
    ensures { IfOk result (λ v. AreNeeds waits.now walk.now.found members.now (plain v.items)) }
{
    net.well_formed();
    let mut needs = Vec::with_capacity(alloc, members.len())?;
    for member in members {
        needs.push(needs_of(alloc, waits.of(*member), walk)?)?;
    }
    Ok(needs)
}

/// The blocks that the walk has found, and what they depend on among them: the table of each source whose possible blocks they are.
pub fn made(alloc: Global, net: &Net, waits: &Waits, walk: &Walk) -> Result<DepTable, NoMemory>
    requires waits { AreWaits net.now waits.now }
    requires count { walk.now.count ≡ length net.now.specs + 1 }
    requires blocks { All (IsBlock net.now) walk.now.found }
    ensures { IfOk result (λ t. (s : Source) → ArePossible net.now s walk.now.found → IsTableOf net.now s t) }
{
    let members = members(alloc, walk)?;
    let needs = needs(alloc, net, waits, &members, walk)?;
    Ok(DepTable { members, needs })
}
