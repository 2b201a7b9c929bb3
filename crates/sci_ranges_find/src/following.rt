// The blocks that are looked at with a block, in a search. Nothing is proved of what comes of them, since the pass decides.
ghost use Rattle.std.specs.Prelude.{◌≡◌, ◌&&◌, nat_eq, length, IfOk, IfSome};
ghost use Rattle.sci_forms.specs.Words.{size};
ghost use Rattle.sci_net.specs.Parts.{IsBlock, spec_of};
ghost use Rattle.sci_net.specs.Sources.{sources_of};
ghost use Rattle.sci_ranges_refined.specs.Sums.{is_sum};
ghost use Rattle.sci_ranges_marks.specs.View.{marks_of};
ghost use Rattle.sci_ranges_choices.specs.View.{IsCompared, IsAdded, AreFollowed};

use crate::reads::{Reading, entered, readings_of};
use crate::table::RangeTable;
use sci_base::NoMemory;
use sci_net::Net;
use sci_ranges_base::Interval;
use sci_ranges_choices::{Choice, addition, compares, comparison, is_choice, taken_ranges};
use sci_ranges_kinds::size;
use sci_ranges_marks::RowMarks;
use sci_ranges_sums::{Followed, is_sum};
use sci_trace::inputs::Inputs;
use std::alloc::Global;

/// How a block that is looked at with another one takes its inputs.
#[derive(Drop)]
pub struct Following {
    pub block: u32,
    pub readings: Vec<Reading>,
}

/// The same of the blocks before a switch of one element: the comparison that it looks at, and the sums that it takes.
#[derive(Drop)]
pub struct Choosing {
    pub compared: Option<Following>,
    pub first: Option<Following>,
    pub third: Option<Following>,
}

/// How a block takes its inputs, where there is one.
pub fn following_of(
    alloc: Global,
    net: &Net,
    marks: &RowMarks,
    of: Option<u32>,
) -> Result<Option<Following>, NoMemory>
    requires rows { length (marks_of marks.now).rows ≡ length (sources_of net.now) }
    requires block { IfSome of (λ b. IsBlock net.now b) }
{
    match of {
        Some(block) => {
            let readings = readings_of(alloc, net, marks, block)?;
            Ok(Some(Following { block, readings }))
        }
        None => Ok(None),
    }
}

/// The blocks before a switch of one element; nothing of another block.
pub fn choosing_of(
    alloc: Global,
    net: &Net,
    marks: &RowMarks,
    block: u32,
) -> Result<Option<Choosing>, NoMemory>
    requires rows { length (marks_of marks.now).rows ≡ length (sources_of net.now) }
    requires block { IsBlock net.now block }
{
    if !is_choice(net.spec(block)) {
        return Ok(None);
    }
    let looked = comparison(net, marks, block);
    let compared = following_of(alloc, net, marks, looked)?;
    let upper = addition(net, marks, block, true);
    let first = following_of(alloc, net, marks, upper)?;
    let lower = addition(net, marks, block, false);
    let third = following_of(alloc, net, marks, lower)?;
    Ok(Some(Choosing {
        compared,
        first,
        third,
    }))
}

/// What goes into a block, by a table.
pub fn followed_in(
    alloc: Global,
    net: &Net,
    inputs: &Inputs,
    table: &RangeTable,
    following: Option<&Following>,
) -> Result<Option<Followed>, NoMemory>
    ensures { IfOk result (λ o. IfSome o (λ f. IsBlock net.now f.block)) }
{
    let Some(following) = following else {
        return Ok(None);
    };
    let block = following.block;
    if block < 1 || block > net.len() {
        return Ok(None);
    }
    let ins = entered(alloc, net, inputs, &following.readings, table, block)?;
    Ok(Some(Followed { block, ins }))
}

/// What goes into a block that compares; nothing of another block.
fn only_compared(net: &Net, followed: Followed) -> Option<Followed>
    requires { IsBlock net.now followed.block }
    ensures { IfSome result (λ f. IsCompared net.now f.block) }
{
    if compares(net.spec(followed.block).kind) {
        Some(followed)
    } else {
        None
    }
}

/// The same, where there is one.
fn compared_in(net: &Net, followed: Option<Followed>) -> Option<Followed>
    requires { IfSome followed (λ f. IsBlock net.now f.block) }
    ensures { IfSome result (λ f. IsCompared net.now f.block) }
{
    match followed {
        Some(followed) => only_compared(net, followed),
        None => None,
    }
}

/// Whether a block adds up numbers of one element.
fn is_single_sum(net: &Net, block: u32) -> bool
    requires { IsBlock net.now block }
    ensures { result ≡ (is_sum (spec_of net.now block).kind && nat_eq (size (spec_of net.now block)) 1) }
{
    let spec = net.spec(block);
    is_sum(spec.kind) && size(spec) == 1
}

/// What goes into such a sum; nothing of another block.
fn only_added(net: &Net, followed: Followed) -> Option<Followed>
    requires { IsBlock net.now followed.block }
    ensures { IfSome result (λ f. IsAdded net.now f.block) }
{
    if is_single_sum(net, followed.block) {
        Some(followed)
    } else {
        None
    }
}

/// The same, where there is one.
fn added_in(net: &Net, followed: Option<Followed>) -> Option<Followed>
    requires { IfSome followed (λ f. IsBlock net.now f.block) }
    ensures { IfSome result (λ f. IsAdded net.now f.block) }
{
    match followed {
        Some(followed) => only_added(net, followed),
        None => None,
    }
}

/// What goes in with a switch.
fn choice_in(
    alloc: Global,
    net: &Net,
    inputs: &Inputs,
    table: &RangeTable,
    choosing: &Choosing,
) -> Result<Choice, NoMemory>
    ensures { IfOk result (λ b. AreFollowed net.now b) }
{
    let compared = followed_in(alloc, net, inputs, table, choosing.compared.as_ref())?;
    let first = followed_in(alloc, net, inputs, table, choosing.first.as_ref())?;
    let third = followed_in(alloc, net, inputs, table, choosing.third.as_ref())?;
    Ok(Choice {
        compared: compared_in(net, compared),
        first: added_in(net, first),
        third: added_in(net, third),
    })
}

/// What its rule is told to go into a block: of a switch of one element its inputs as where each is taken.
pub fn told_inputs(
    alloc: Global,
    net: &Net,
    inputs: &Inputs,
    table: &RangeTable,
    choosing: Option<&Choosing>,
    block: u32,
    ins: Vec<Option<Interval>>,
) -> Result<Vec<Option<Interval>>, NoMemory>
    requires { IsBlock net.now block }
{
    let Some(choosing) = choosing else {
        return Ok(ins);
    };
    if !is_choice(net.spec(block)) {
        return Ok(ins);
    }
    let choice = choice_in(alloc, net, inputs, table, choosing)?;
    let taken = taken_ranges(alloc, net, block, &ins, &choice)?;
    Ok(taken)
}
