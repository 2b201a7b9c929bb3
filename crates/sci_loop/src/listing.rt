// The listing of a loop.
ghost use Rattle.std.specs.Prelude.{◌≡◌, ℕ, ◌<◌, ◌≤◌, length, All, IfOk, slice_index, map};
ghost use Rattle.sci_loop.specs.Table.{Needs, NeedsAt, IsTable};
ghost use Rattle.sci_loop.specs.Rounds.{IsRound};
ghost use Rattle.sci_loop.specs.Loops.{IsLoop, IsFromLeast};
ghost use Rattle.sci_loop.specs.Sorted.{IsSorted};

use crate::search::Search;
use crate::table::{DepTable, places_by_number};
use sci_base::NoMemory;
use std::alloc::Global;

// The members at some places.
fn names(alloc: Global, members: &[u32], places: &[usize]) -> Result<Vec<u32>, NoMemory>
    requires { All (λ i. i < length members.now) places.now }
    ensures { IfOk result (λ v. v.items ≡ map (λ i. slice_index members.now i) places.now) }
{
    Ok(places.iter().map(|i| members[*i]).collect(alloc)?)
}

// Where the least number stands.
fn least_at(numbers: &[u32]) -> usize
    requires { 0 < length numbers.now }
    ensures within { result < length numbers.now }
    ensures least { (k : ℕ) → k < length numbers.now → slice_index numbers.now result ≤ slice_index numbers.now k }
{
    let mut least = 0;
    for i in 0..numbers.len() {
        if numbers[i] < numbers[least] {
            least = i;
        }
    }
    least
}

// The loop that a round of places is, from its least member.
fn listed(alloc: Global, table: &DepTable, places: &[usize]) -> Result<Vec<u32>, NoMemory>
    requires table { IsTable table.now }
    requires within { All (λ i. i < length table.now.members.items) places.now }
    requires round { IsRound (NeedsAt table.now) places.now }
    ensures found { IfOk result (λ v. IsLoop (Needs table.now) v.items) }
    ensures least { IfOk result (λ v. IsFromLeast v.items) }
{
    let mut found = names(alloc, &table.members, places)?;
    found.reverse();
    let first = least_at(&found);
    found.rotate_left(first);
    Ok(found)
}

/// What sorting a table comes to.
#[derive(Drop)]
pub enum Sorted {
    /// A loop, listed from its least member, each member depending on the one before it and the first on the last.
    Loop(Vec<u32>),
    /// There is no loop: all members, each after those that it depends on.
    Order(Vec<u32>),
}

/// The members in an order, or a loop.
pub fn order_or_loop(alloc: Global, table: &DepTable) -> Result<Sorted, NoMemory>
    requires { IsTable table.now }
    ensures { IfOk result (λ o. IsSorted table.now o) }
{
    let places = places_by_number(alloc, &table.members)?;
    let mut search = Search::new(alloc, table.members.len())?;
    match search.all(table, &places)? {
        None => {
            let order = names(alloc, &table.members, &search.order)?;
            Ok(Sorted::Order(order))
        }
        Some(depth) => {
            let found = listed(alloc, table, &search.trail[depth..])?;
            Ok(Sorted::Loop(found))
        }
    }
}
