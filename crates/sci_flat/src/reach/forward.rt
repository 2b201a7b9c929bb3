ghost use Rattle.std.specs.Prelude.{◌<◌, All, IfOk, length};
ghost use Rattle.sci_flat.specs.Chain.{AllWithin};
ghost use Rattle.sci_flat.specs.Lists.{lists_of};
ghost use Rattle.sci_flat.specs.Reached.{AreReached};
ghost use Rattle.sci_flat.specs.Successors.{AreSuccessors};

use crate::reach::search::FeedSearch;
use crate::reach::successors::Successors;
use sci_base::NoMemory;
use std::alloc::Global;

/// For each port that is wanted, the sources from which a chain of steps leads to it: their indices, rising. `wanted` has one mark for each
/// port; a source is a port, and reaches itself. The steps come with their `successors`.
pub fn reached(
    alloc: Global,
    steps: &[(u32, u32)],
    successors: &Successors,
    sources: &[u32],
    wanted: &[bool],
) -> Result<Vec<Vec<usize>>, NoMemory>
    requires steps { AllWithin (length wanted.now) steps.now }
    requires successors { AreSuccessors steps.now (length wanted.now) successors.now }
    requires sources { All (λ p. p < length wanted.now) sources.now }
    ensures { IfOk result (λ v. AreReached steps.now sources.now wanted.now (lists_of v)) }
{
    let mut search = FeedSearch::new(alloc, wanted.len())?;
    for (i, start) in sources.iter().enumerate() {
        search.walk(wanted, i, *start, steps, successors)?;
    }
    let FeedSearch {
        stamps: _,
        lists,
        pending: _,
    } = search;
    Ok(lists)
}
