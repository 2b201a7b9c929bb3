//! Tables of dependencies, and the algebraic loops in them. A table of a source of activation says which of the blocks that it may activate
//! depend on which; the blocks of a loop have no order in which their values could be computed.
#![tactic(auto)]

ghost use Rattle.std.specs.Prelude.{◌≡◌, IfSome, IfNone, IfOk};
ghost use Rattle.sci_loop.specs.Table.{Needs, IsTable};
ghost use Rattle.sci_loop.specs.Sorted.{IsSorted};
ghost use Rattle.sci_loop.specs.Loops.{IsLoop, HasNoLoop, IsFromLeast};

mod listing;
pub mod relation;
mod search;
mod table;
pub mod walk;

pub use listing::Sorted;
use sci_base::NoMemory;
use std::alloc::Global;
pub use table::DepTable;

/// A loop of the table, listed from its least block, each block depending on the one before it and the first on the last; None
/// exactly where the table has no loop. The time is that of a look at each need, and of one list of places by number, as long as the
/// greatest member.
pub fn find(alloc: Global, table: &DepTable) -> Result<Option<Vec<u32>>, NoMemory>
    requires { IsTable table.now }
    ensures some { IfOk result (λ o. IfSome o (λ found. IsLoop (Needs table.now) found.items)) }
    ensures least { IfOk result (λ o. IfSome o (λ found. IsFromLeast found.items)) }
    ensures none { IfOk result (λ o. IfNone o (HasNoLoop (Needs table.now))) }
{
    match sort(alloc, table)? {
        Sorted::Loop(found) => Ok(Some(found)),
        Sorted::Order(_) => Ok(None),
    }
}

/// The members, each once and after all that it depends on; or, exactly where the table has one, a loop from its least block. The
/// time is that of `find`.
pub fn sort(alloc: Global, table: &DepTable) -> Result<Sorted, NoMemory>
    requires { IsTable table.now }
    ensures { IfOk result (λ o. IsSorted table.now o) }
{
    listing::order_or_loop(alloc, table)
}
