// Blocks by depth and number.
ghost use Rattle.std.specs.Prelude.{◌≡◌, ℕ, ◌<◌, ◌↔◌, All, AllPairs, Contains, length, map, slice_index, IfOk};
ghost use Rattle.std.specs.List.Sorted.{IsStrictlyIncreasing};
ghost use Rattle.sci_sched.specs.Depths.{rank, IsBefore};

use sci_base::NoMemory;
use std::alloc::Global;

/// Where a block stands in a row.
#[derive(Clone, Copy, Drop, PartialEq, Eq, PartialOrd, Ord)]
pub struct Rank {
    pub depth: usize,
    pub block: u32,
}

fn ranks(alloc: Global, depths: &[usize], blocks: &[u32]) -> Result<Vec<Rank>, NoMemory>
    requires { All (λ b. b < length depths.now) blocks.now }
    ensures { IfOk result (λ v. v.items ≡ map (rank depths.now) blocks.now) }
{
    let ranks = blocks
        .iter()
        .map(|block| Rank {
            depth: depths[*block as usize],
            block: *block,
        })
        .collect(alloc)?;
    Ok(ranks)
}

fn ranked(alloc: Global, ranks: &[Rank]) -> Result<Vec<u32>, NoMemory>
    ensures { IfOk result (λ v. v.items ≡ map (λ r. r.block) ranks.now) }
{
    Ok(ranks.iter().map(|rank| rank.block).collect(alloc)?)
}

/// The same blocks by depth and number.
pub fn by_depth(alloc: Global, depths: &[usize], blocks: &[u32]) -> Result<Vec<u32>, NoMemory>
    requires below { All (λ b. b < length depths.now) blocks.now }
    requires rising { IsStrictlyIncreasing blocks.now }
    ensures exactly { IfOk result (λ v. (b : ℕ) → Contains v.items b ↔ Contains blocks.now b) }
    ensures ordered { IfOk result (λ v. AllPairs (IsBefore depths.now) v.items) }
{
    let mut ranks = ranks(alloc, depths, blocks)?;
    ranks.sort_unstable();
    ranked(alloc, &ranks)
}

/// The depths of these blocks.
pub fn depths_of(alloc: Global, depths: &[usize], blocks: &[u32]) -> Result<Vec<usize>, NoMemory>
    requires { All (λ b. b < length depths.now) blocks.now }
    ensures { IfOk result (λ v. v.items ≡ map (slice_index depths.now) blocks.now) }
{
    Ok(
        blocks
            .iter()
            .map(|block| depths[*block as usize])
            .collect(alloc)?,
    )
}
