// The possible blocks of a source, round by round.
ghost use Rattle.std.specs.Prelude.{◌≡◌, ℕ, ◌+◌, ◌<◌, ◌↔◌, ◌++◌, ◌∷◌, [], ◌==◌, if◌then◌else◌, filter, length, map, slice_index_or, All, Contains};
ghost use Rattle.std.specs.Prelude.{vec_len, IfOk, OnOk, nat_eq};
ghost use Rattle.std.specs.List.{IsDistinct};
ghost use Rattle.std.specs.List.Sorted.{IsStrictlyIncreasing};
ghost use Rattle.std.specs.Set.{is_member};
ghost use Rattle.sci_loop.specs.declared.table.DepTable.{DepTable};
ghost use Rattle.sci_loop.specs.Table.{IsTable};
ghost use Rattle.sci_loop.specs.Lists.{plain, list_at};
ghost use Rattle.sci_net.specs.declared.Source.{Source};
ghost use Rattle.sci_reaction.specs.Depends.{IsLoopFree, HasDepth};
ghost use Rattle.sci_dep.specs.Tables.{IsTableOf};
ghost use Rattle.sci_judge.specs.Rounds.{ranked, AreCounts, AreWaiting, IsPutTo, IsReleased, IsStage, IsStageOf, AreByRounds};

use sci_base::NoMemory;
use sci_loop::DepTable;
use sci_loop::walk::{empty_lists, push_at};
use sci_net::Net;
use std::alloc::Global;

/// A block and its round, counted from 1: how many blocks the longest chain of dependencies has that ends at it.
#[derive(Clone, Copy, Drop)]
pub struct BlockRound {
    pub block: u32,
    pub depth: usize,
}

// Puts a member at the end of the lists of the blocks that it depends on.
fn put(lists: &mut Vec<Vec<u32>>, member: u32, needs: &[u32]) -> Result<(), NoMemory>
    requires rising { IsStrictlyIncreasing needs.now }
    requires within { All (λ b. b < vec_len lists.old) needs.now }
    ensures put { OnOk result (IsPutTo needs.now member (plain lists.old.items) (plain lists.new.items)) }
    ensures len { OnOk result (vec_len lists.new ≡ vec_len lists.old) }
{
    for need in needs {
        push_at(lists, *need as usize, member)?;
    }
    Ok(())
}

// By number, the members that depend on a block.
fn waiting(alloc: Global, table: &DepTable, count: usize) -> Result<Vec<Vec<u32>>, NoMemory>
    requires table { IsTable table.now }
    requires below { All (λ b. b < count) table.now.members.items }
    ensures { IfOk result (λ v. AreWaiting table.now count (plain v.items)) }
{
    let mut lists = empty_lists(alloc, count)?;
    for at in 0..table.members.len() {
        put(&mut lists, table.members[at], &table.needs[at])?;
    }
    Ok(lists)
}

// By number, on how many blocks each member depends.
fn open_counts(alloc: Global, table: &DepTable, count: usize) -> Result<Vec<usize>, NoMemory>
    requires table { IsTable table.now }
    requires below { All (λ b. b < count) table.now.members.items }
    ensures counts { IfOk result (λ v. AreCounts table.now [] v.items) }
    ensures len { IfOk result (λ v. vec_len v ≡ count) }
{
    let mut counts = vec![in alloc; 0; count]?;
    for at in 0..table.members.len() {
        counts[table.members[at] as usize] = table.needs[at].len();
    }
    Ok(counts)
}

// Puts a block where it is ready.
fn put_ready(ready: &mut Vec<u32>, block: u32, is_ready: bool) -> Result<(), NoMemory>
    ensures { OnOk result (ready.new.items ≡ ready.old.items ++ (if is_ready then block ∷ [] else [])) }
{
    if is_ready {
        ready.push(block)?;
    }
    Ok(())
}

// The members that depend on none that isn't done.
fn first_round(alloc: Global, members: &[u32], counts: &[usize]) -> Result<Vec<u32>, NoMemory>
    requires { All (λ b. b < length counts.now) members.now }
    ensures { IfOk result (λ v. v.items ≡ filter (λ b. slice_index_or counts.now b 0 == 0) members.now) }
{
    let mut first = Vec::new(alloc);
    for member in members {
        put_ready(&mut first, *member, counts[*member as usize] == 0)?;
    }
    Ok(first)
}

// One block that these wait for is done: each has one open dependency less, and those that have none now are ready.
fn release(waiting: &[u32], counts: &mut [usize], ready: &mut Vec<u32>) -> Result<(), NoMemory>
    requires distinct { IsDistinct nat_eq waiting.now }
    requires within { All (λ b. b < length counts.old) waiting.now }
    requires some { All (λ b. 0 < slice_index_or counts.old b 0) waiting.now }
    ensures counts { OnOk result (IsReleased waiting.now counts.old counts.new) }
    ensures ready { OnOk result (ready.new.items ≡ ready.old.items ++ filter (λ b. slice_index_or counts.old b 0 == 1) waiting.now) }
{
    for block in waiting {
        let at = *block as usize;
        counts[at] -= 1;
        put_ready(ready, *block, counts[at] == 0)?;
    }
    Ok(())
}

// Does a round of some table: these blocks are done, behind those that were done before. The blocks that are ready now, those of the next
// round.
fn round(
    alloc: Global,
    waiting: &[Vec<u32>],
    round: &[u32],
    depth: usize,
    counts: &mut [usize],
    done: &mut Vec<BlockRound>,
) -> Result<Vec<u32>, NoMemory>
    requires { (t : DepTable) × IsStageOf t (plain waiting.now) (ranked done.old.items) round.now counts.old }
    ensures done { IfOk result (λ _. done.new.items ≡ done.old.items ++ map (λ b. record { block = b; depth = depth }) round.now) }
    ensures stage { IfOk result (λ next. (t : DepTable) → IsStageOf t (plain waiting.now) (ranked done.old.items) round.now counts.old
        → IsStage t (ranked done.new.items) next.items counts.new) }
{
    let mut next = Vec::new(alloc);
    for block in round {
        done.push(BlockRound {
            block: *block,
            depth,
        })?;
        release(&waiting[*block as usize], counts, &mut next)?;
    }
    Ok(next)
}

/// The members of a table, round by round, and each round by number: a round has the members that aren't done and depend on members alone that
/// were done when it began. They are the possible blocks of each source that has this table and no loop. Want of memory is the only error.
pub fn by_rounds(alloc: Global, net: &Net, table: &DepTable) -> Result<Vec<BlockRound>, NoMemory>
    requires table { IsTable table.now }
    requires below { All (λ b. b < length net.now.specs + 1) table.now.members.items }
    ensures rounds { IfOk result (λ v. (s : Source) → IsTableOf net.now s table.now → IsLoopFree net.now s → AreByRounds net.now s (ranked v.items)) }
    ensures depths { IfOk result (λ v. (s : Source) → IsTableOf net.now s table.now → IsLoopFree net.now s
        → All (λ r. HasDepth net.now s r.block r.depth) v.items) }
{
    net.well_formed();
    let count = net.len() as usize + 1;
    let waiting = waiting(alloc, table, count)?;
    let mut counts = open_counts(alloc, table, count)?;
    let mut done = Vec::new(alloc);
    let mut ready = first_round(alloc, &table.members, &counts)?;
    let mut depth = 0;
    while !ready.is_empty() {
        ready.sort_unstable();
        depth += 1;
        ready = round(alloc, &waiting, &ready, depth, &mut counts, &mut done)?;
    }
    Ok(done)
}
