// What goes in with a sum or a switch, by a table.
ghost use Rattle.std.specs.Prelude.{◌≡◌, length, true, IfOk, IfSome};
ghost use Rattle.sci_net.specs.Parts.{IsBlock, spec_of};
ghost use Rattle.sci_net.specs.Sources.{sources_of};
ghost use Rattle.sci_ranges_pass.specs.Taken.{is_choice};
ghost use Rattle.sci_ranges_pass.specs.Told.{aim};
ghost use Rattle.sci_ranges_marks.specs.View.{marks_of};
ghost use Rattle.sci_ranges_choices.specs.View.{AreFollowed};
ghost use Rattle.sci_ranges_find.specs.View.{ranges_of};
ghost use Rattle.sci_ranges_find.specs.Beside.{Follows, IsBeside, IsBefore};

use crate::reads::{entered, readings_of};
use crate::table::RangeTable;
use sci_base::NoMemory;
use sci_net::Net;
use sci_ranges_choices::{Choice, addition, comparison};
use sci_ranges_marks::RowMarks;
use sci_ranges_sums::{Beside, Followed, aim, find_leak};
use sci_trace::inputs::Inputs;
use std::alloc::Global;

/// What goes into a block, where there is one.
fn followed_of(
    alloc: Global,
    net: &Net,
    inputs: &Inputs,
    marks: &RowMarks,
    table: &RangeTable,
    of: Option<u32>,
) -> Result<Option<Followed>, NoMemory>
    requires rows { length (marks_of marks.now).rows ≡ length (sources_of net.now) }
    requires block { IfSome of (λ b. IsBlock net.now b) }
    ensures { IfOk result (λ f. Follows net.now inputs.now (marks_of marks.now) (ranges_of table.now) of f) }
{
    match of {
        Some(block) => {
            let readings = readings_of(alloc, net, marks, block)?;
            let ins = entered(alloc, net, inputs, &readings, table, block)?;
            Ok(Some(Followed { block, ins }))
        }
        None => Ok(None),
    }
}

/// What goes into the block whose difference a sum follows.
fn followed_by(
    alloc: Global,
    net: &Net,
    inputs: &Inputs,
    marks: &RowMarks,
    table: &RangeTable,
    block: u32,
) -> Result<Option<Followed>, NoMemory>
    requires rows { length (marks_of marks.now).rows ≡ length (sources_of net.now) }
    requires block { IsBlock net.now block }
    ensures { IfOk result (λ f. Follows net.now inputs.now (marks_of marks.now) (ranges_of table.now) (aim net.now (marks_of marks.now) block) f) }
{
    let aimed = aim(net, marks, block);
    let followed = followed_of(alloc, net, inputs, marks, table, aimed)?;
    Ok(followed)
}

/// What goes in with a sum: into the block whose difference it follows, and what it leaks.
pub fn beside_of(
    alloc: Global,
    net: &Net,
    inputs: &Inputs,
    marks: &RowMarks,
    table: &RangeTable,
    block: u32,
) -> Result<Beside, NoMemory>
    requires rows { length (marks_of marks.now).rows ≡ length (sources_of net.now) }
    requires block { IsBlock net.now block }
    ensures { IfOk result (λ b. IsBeside net.now inputs.now (marks_of marks.now) (ranges_of table.now) block b) }
{
    let followed = followed_by(alloc, net, inputs, marks, table, block)?;
    let leak = find_leak(net, marks, block);
    Ok(Beside { followed, leak })
}

/// What goes in with a switch of one element: into the comparison that it looks at, and into the sums that it takes.
pub fn choice_of(
    alloc: Global,
    net: &Net,
    inputs: &Inputs,
    marks: &RowMarks,
    table: &RangeTable,
    block: u32,
) -> Result<Choice, NoMemory>
    requires rows { length (marks_of marks.now).rows ≡ length (sources_of net.now) }
    requires block { IsBlock net.now block }
    requires choice { is_choice (spec_of net.now block) ≡ true }
    ensures before { IfOk result (λ b. IsBefore net.now inputs.now (marks_of marks.now) (ranges_of table.now) block b) }
    ensures followed { IfOk result (λ b. AreFollowed net.now b) }
{
    let looked = comparison(net, marks, block);
    let compared = followed_of(alloc, net, inputs, marks, table, looked)?;
    let upper = addition(net, marks, block, true);
    let first = followed_of(alloc, net, inputs, marks, table, upper)?;
    let lower = addition(net, marks, block, false);
    let third = followed_of(alloc, net, inputs, marks, table, lower)?;
    Ok(Choice {
        compared,
        first,
        third,
    })
}
