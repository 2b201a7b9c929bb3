// How many entries and guards there will be.
ghost use Rattle.std.specs.Prelude.{◌≡◌, ◌<◌, ◌+◌, ◌^◌, ℕ, All, length, IfOk, sum_by, count_by, slice_index};
ghost use Rattle.sci_inherit.specs.Origins.{AreOrigins};
ghost use Rattle.sci_sched.specs.Guards.{is_of};
ghost use Rattle.sci_sched.specs.Outlines.{AddsBranches, AreCounts, outline_size};

use crate::outline::Outline;
use sci_base::NoMemory;
use sci_inherit::Reach;
use sci_net::{Feed, Net};
use std::alloc::Global;

// Counts each of these branches at the number of its block.
fn count_branches(counts: &mut [u64], branches: &[Feed])
    requires blocks { All (λ q. q.block < length counts.old) branches.now }
    requires small { (c : ℕ) → slice_index counts.old c + length branches.now < 2 ^ 63 }
    ensures { AddsBranches branches.now counts.old counts.new }
{
    for branch in branches {
        counts[branch.block as usize] += 1;
    }
}

/// By number, from 0 on, how many guards a block gives at each source that may activate it: one for each of its branches and each block
/// that the branch reaches, which the source may activate too.
pub fn guard_counts(alloc: Global, net: &Net, reach: &Reach) -> Result<Vec<u64>, NoMemory>
    requires { AreOrigins net.now reach.now }
    ensures { IfOk result (λ v. AreCounts reach.now v.items) }
{
    net.well_formed();
    let mut counts = vec![in alloc; 0; net.len() as usize + 1]?;
    for at in 0..net.len() {
        count_branches(&mut counts, reach.branches(at + 1));
    }
    Ok(counts)
}

/// How many guards these blocks give.
pub fn guards_by(counts: &[u64], blocks: &[u32]) -> u64
    requires blocks { All (λ c. c < length counts.now) blocks.now }
    requires small { sum_by (λ c. slice_index counts.now c) blocks.now < 2 ^ 63 }
    ensures { result ≡ sum_by (λ c. slice_index counts.now c) blocks.now }
{
    let mut count = 0;
    for block in blocks {
        count += counts[*block as usize];
    }
    count
}

/// How many entries and guards all sources have.
pub fn total(outlines: &[Outline]) -> u64
    requires { sum_by outline_size outlines.now < 2 ^ 63 }
    ensures { result ≡ sum_by outline_size outlines.now }
{
    let mut total = 0;
    for outline in outlines {
        total += outline.blocks.len() as u64 + outline.guards;
    }
    total
}
