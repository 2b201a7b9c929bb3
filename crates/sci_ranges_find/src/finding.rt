// A table that no rule widens.
ghost use Rattle.std.specs.Prelude.{◌≡◌, true, IfOk, OnOk};
ghost use Rattle.sci_reaction.specs.Memory.{AreColumns};
ghost use Rattle.sci_reaction.specs.Schedule.{IsSchedule};
ghost use Rattle.sci_run.specs.Laws.{AreLoopFree};
ghost use Rattle.sci_ranges_rows.specs.Marks.{AreMarks};
ghost use Rattle.sci_ranges_pass.specs.Pass.{is_closed};
ghost use Rattle.sci_ranges_pass.specs.Ranges.{table_of};
ghost use Rattle.sci_ranges.specs.Closed.{IsClosed};
ghost use Rattle.sci_ranges_marks.specs.View.{marks_of, lists_of, IsFirstPlace};
ghost use Rattle.sci_ranges_find.specs.Live.{AreLive};
ghost use Rattle.sci_ranges_find.specs.View.{ranges_of};

use crate::live::{first_marks, make_live, mark_live};
use crate::pass::is_closed;
use crate::search::{Search, acting_blocks, visiting_order};
use crate::table::RangeTable;
use crate::widest::widest_table;
use sci_base::NoMemory;
use sci_net::Net;
use sci_ranges_marks::{RowMarks, first_place};
use sci_reaction::Entry;
use sci_trace::inputs::Inputs;
use std::alloc::Global;

/// A table of ranges, and the marks for which no rule widens it: which sources are live, which branches dead.
#[derive(Drop)]
pub struct Found {
    /// What each block may show and remember, and the stops that it may come to.
    pub table: RangeTable,
    /// The rows of the schedule, with the branches that are dead, the sources that are live, and the blocks that each may activate.
    pub marks: RowMarks,
}

/// How often branches may come to be taken by what the table tells, before none is dead any longer.
const ROUNDS: u32 = 32;

/// Widens the table until nothing changes, with the branches dead that are. Then each of these that may be taken is so no longer, and it tells
/// whether there was one. `first` is the place of the source whose event fires first, and `order` has the blocks, from 1, as they are visited.
fn round(
    alloc: Global,
    net: &Net,
    inputs: &Inputs,
    first: Option<u32>,
    order: &[u32],
    marks: &mut RowMarks,
    search: &mut Search,
) -> Result<bool, NoMemory>
    requires rows { IsSchedule net.now (marks_of marks.old).rows }
    requires free { AreLoopFree net.now }
    requires first { IsFirstPlace net.now first }
    ensures { IfOk result (λ _. (marks_of marks.new).rows ≡ (marks_of marks.old).rows) }
{
    marks.mark(alloc, net, first)?;
    make_live(alloc, net, marks)?;
    let acting = acting_blocks(alloc, net, marks)?;
    search.settle(alloc, net, inputs, &acting, order)?;
    let changed = search.revive(alloc, net, inputs, &acting, marks)?;
    Ok(changed)
}

/// The same with no branch dead.
fn last_round(
    alloc: Global,
    net: &Net,
    inputs: &Inputs,
    first: Option<u32>,
    order: &[u32],
    marks: &mut RowMarks,
    search: &mut Search,
) -> Result<(), NoMemory>
    requires rows { IsSchedule net.now (marks_of marks.old).rows }
    requires free { AreLoopFree net.now }
    requires first { IsFirstPlace net.now first }
    ensures { OnOk result ((marks_of marks.new).rows ≡ (marks_of marks.old).rows) }
{
    marks.revive_all(alloc);
    round(alloc, net, inputs, first, order, marks, search)?;
    Ok(())
}

/// Rounds until no branch changes.
fn rounds(
    alloc: Global,
    net: &Net,
    inputs: &Inputs,
    first: Option<u32>,
    order: &[u32],
    marks: &mut RowMarks,
    search: &mut Search,
) -> Result<(), NoMemory>
    requires rows { IsSchedule net.now (marks_of marks.old).rows }
    requires free { AreLoopFree net.now }
    requires first { IsFirstPlace net.now first }
    ensures { OnOk result ((marks_of marks.new).rows ≡ (marks_of marks.old).rows) }
{
    for _ in 0..ROUNDS {
        let changed = round(alloc, net, inputs, first, order, marks, search)?;
        if !changed {
            return Ok(());
        }
    }
    last_round(alloc, net, inputs, first, order, marks, search)?;
    Ok(())
}

/// A table that was widened until nothing changed, and then narrowed, and the marks for it.
fn searched(
    alloc: Global,
    net: &Net,
    rows: Vec<Vec<Entry>>,
    inputs: &Inputs,
    first: Option<u32>,
) -> Result<Found, NoMemory>
    requires rows { IsSchedule net.now (lists_of rows.items) }
    requires free { AreLoopFree net.now }
    requires first { IsFirstPlace net.now first }
    ensures { IfOk result (λ f. (marks_of f.marks).rows ≡ lists_of rows.items) }
{
    let mut marks = first_marks(alloc, net, rows)?;
    let order = visiting_order(alloc, net, &marks)?;
    let mut search = Search::new(alloc, net, inputs)?;
    rounds(alloc, net, inputs, first, &order, &mut marks, &mut search)?;
    let acting = acting_blocks(alloc, net, &marks)?;
    search.narrow(alloc, net, inputs, &acting, &order)?;
    let table = search.into_table();
    Ok(Found { table, marks })
}

/// The widest table, with the marks for it: no branch is dead.
fn widest(
    alloc: Global,
    net: &Net,
    inputs: &Inputs,
    mut marks: RowMarks,
    first: Option<u32>,
) -> Result<Found, NoMemory>
    requires rows { IsSchedule net.now (marks_of marks).rows }
    requires free { AreLoopFree net.now }
    requires columns { AreColumns net.now inputs.now }
    requires first { IsFirstPlace net.now first }
    ensures closed { IfOk result (λ f. is_closed net.now inputs.now (marks_of f.marks) (ranges_of f.table) ≡ true) }
    ensures marks { IfOk result (λ f. AreMarks net.now (marks_of f.marks)) }
    ensures live { IfOk result (λ f. AreLive net.now (marks_of f.marks)) }
{
    net.well_formed();
    marks.revive_all(alloc);
    marks.mark(alloc, net, first)?;
    mark_live(alloc, net, &mut marks)?;
    let table = widest_table(alloc, net)?;
    Ok(Found { table, marks })
}

/// What was found, where it passes; else the widest table.
fn chosen(
    alloc: Global,
    net: &Net,
    inputs: &Inputs,
    found: Found,
    first: Option<u32>,
) -> Result<Found, NoMemory>
    requires rows { IsSchedule net.now (marks_of found.marks).rows }
    requires free { AreLoopFree net.now }
    requires columns { AreColumns net.now inputs.now }
    requires first { IsFirstPlace net.now first }
    ensures closed { IfOk result (λ f. is_closed net.now inputs.now (marks_of f.marks) (ranges_of f.table) ≡ true) }
    ensures marks { IfOk result (λ f. AreMarks net.now (marks_of f.marks)) }
    ensures live { IfOk result (λ f. AreLive net.now (marks_of f.marks)) }
{
    net.well_formed();
    let Found { table, mut marks } = found;
    marks.mark(alloc, net, first)?;
    mark_live(alloc, net, &mut marks)?;
    let passed = is_closed(alloc, net, inputs, &marks, &table)?;
    if passed {
        return Ok(Found { table, marks });
    }
    widest(alloc, net, inputs, marks, first)
}

/// A table that passes, and the marks for it.
fn passing(
    alloc: Global,
    net: &Net,
    rows: Vec<Vec<Entry>>,
    inputs: &Inputs,
) -> Result<Found, NoMemory>
    requires rows { IsSchedule net.now (lists_of rows.items) }
    requires free { AreLoopFree net.now }
    requires columns { AreColumns net.now inputs.now }
    ensures closed { IfOk result (λ f. is_closed net.now inputs.now (marks_of f.marks) (ranges_of f.table) ≡ true) }
    ensures marks { IfOk result (λ f. AreMarks net.now (marks_of f.marks)) }
    ensures live { IfOk result (λ f. AreLive net.now (marks_of f.marks)) }
{
    let first = first_place(alloc, net)?;
    let found = searched(alloc, net, rows, inputs, first)?;
    chosen(alloc, net, inputs, found, first)
}

/// A table that no rule widens, of a net and its schedule, for the input files whose columns keep within the given one's. Exactly the sources are marked
/// as live that may ever react while its dead branches are dead. The only error is want of memory.
pub fn find(
    alloc: Global,
    net: &Net,
    rows: Vec<Vec<Entry>>,
    inputs: &Inputs,
) -> Result<Found, NoMemory>
    requires rows { IsSchedule net.now (lists_of rows.items) }
    requires free { AreLoopFree net.now }
    requires columns { AreColumns net.now inputs.now }
    ensures closed { IfOk result (λ f. IsClosed net.now inputs.now (table_of net.now (marks_of f.marks).dead (ranges_of f.table))) }
    ensures marks { IfOk result (λ f. AreMarks net.now (marks_of f.marks)) }
    ensures live { IfOk result (λ f. AreLive net.now (marks_of f.marks)) }
{
    net.well_formed();
    let found = passing(alloc, net, rows, inputs)?;
    Ok(found)
}
