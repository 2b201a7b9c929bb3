// The pass over a table: whether a rule widens it.
ghost use Rattle.std.specs.Prelude.{◌≡◌, ◌<◌, ◌≤◌, ◌||◌, ◌&&◌, not, IfOk, IfSome, MatchOption, length, true};
ghost use Rattle.sci_base.specs.declared.limits.TheConstants.{ALL_ELEMENTS};
ghost use Rattle.sci_base.specs.Lists.{spread};
ghost use Rattle.sci_forms.specs.Ports.{total};
ghost use Rattle.sci_forms.specs.Typed.{typed};
ghost use Rattle.sci_net.specs.Parts.{IsBlock, spec_of};
ghost use Rattle.sci_net.specs.Sources.{sources_of, source_of};
ghost use Rattle.sci_ranges_reads.specs.Live.{may_program};
ghost use Rattle.sci_ranges_rows.specs.Marks.{may_act};
ghost use Rattle.sci_ranges_pass.specs.Pass.{holds_cells, holds_values, holds_told, holds_next, holds_first, is_possible, holds_block, is_closed, marks_dated, marks_programmed, marks_live};
ghost use Rattle.sci_ranges_refined.specs.Sums.{is_sum};
ghost use Rattle.sci_ranges_pass.specs.Ranges.{masks_for};
ghost use Rattle.sci_ranges_pass.specs.Taken.{is_choice, taken_ranges};
ghost use Rattle.sci_ranges_marks.specs.View.{marks_of};
ghost use Rattle.sci_ranges_find.specs.Live.{IsMissing};
ghost use Rattle.sci_ranges_find.specs.View.{ranges_of, untaken_on, dead_on, alive_on, rule_on, sums_on, is_dated, marked_by_all, marked_place};

use crate::beside::{beside_of, choice_of};
use crate::reads::{entered, masks_for, readings_of};
use crate::table::{RangeTable, elements_of, range_at};
use sci_base::NoMemory;
use sci_kinds::Spec;
use sci_net::{Feed, Net, Source};
use sci_ranges_base::{Cells, Interval, Masks, meet, within};
use sci_ranges_choices::{is_choice, taken_ranges};
use sci_ranges_kinds::{cells, next_range, state_range, taking};
use sci_ranges_marks::{RowMarks, may_program};
use sci_ranges_sums::{Beside, is_sum, told_sum};
use sci_trace::inputs::Inputs;
use std::alloc::Global;

impl RangeTable {
    /// Whether the table has the cells of an element.
    fn holds_cells(&self, block: u32, e: usize, cells: Cells) -> bool
        ensures { result ≡ holds_cells (ranges_of self.now) block e cells }
    {
        within(cells.values, self.shown(block, e))
            && (!cells.overflow || self.may_overflow(block))
            && (!cells.zero || self.may_divide_by_zero(block))
    }

    /// Whether the rule tells nothing of the values that the table doesn't.
    fn holds_values(
        &self,
        spec: &Spec,
        block: u32,
        masks: &[Masks],
        ins: &[Option<Interval>],
    ) -> bool
        requires is_typed { typed spec.now ≡ true }
        requires few { total spec.now.outs ≤ ALL_ELEMENTS }
        ensures { result ≡ holds_values spec.now (ranges_of self.now) block masks.now ins.now }
    {
        let state = self.state(block);
        for e in 0..elements_of(&spec.outs) {
            if !self.holds_cells(block, e, cells(spec, state, masks, ins, e)) {
                return false;
            }
        }
        true
    }

    /// Whether nothing is told of a sum that the table doesn't have.
    fn holds_sums(&self, net: &Net, block: u32, ins: &[Option<Interval>], beside: &Beside) -> bool
        requires block { IsBlock net.now block }
        requires kind { is_sum (spec_of net.now block).kind ≡ true }
        requires followed { IfSome beside.now.followed (λ f. IsBlock net.now f.block) }
        ensures { result ≡ sums_on net.now (ranges_of self.now) block ins.now beside.now }
    {
        net.well_formed();
        for e in 0..elements_of(&net.spec(block).outs) {
            if !self.holds_cells(block, e, told_sum(net, block, ins, beside, e)) {
                return false;
            }
        }
        true
    }

    /// Whether it tells nothing of the next state that the table doesn't.
    fn holds_next(&self, spec: &Spec, block: u32, ins: &[Option<Interval>]) -> bool
        requires { typed spec.now ≡ true }
        ensures { result ≡ holds_next spec.now (ranges_of self.now) block ins.now }
    {
        let state = self.state(block);
        for k in 0..spec.state_len() {
            if !within(next_range(spec, state, ins, k), Some(state_range(state, k))) {
                return false;
            }
        }
        true
    }

    /// Whether the table has the first state.
    fn holds_first(&self, spec: &Spec, block: u32) -> bool
        requires { typed spec.now ≡ true }
        ensures { result ≡ holds_first spec.now (ranges_of self.now) block }
    {
        let state = self.state(block);
        for k in 0..spec.state_len() {
            if !state_range(state, k).has(first_state(spec, k)) {
                return false;
            }
        }
        true
    }
}

/// Value `k` of a block's first state; one value stands for all.
pub(crate) fn first_state(spec: &Spec, k: usize) -> i64
    ensures { result ≡ spread spec.now.state k }
{
    if spec.state.len() == 1 {
        spec.state.at(0)
    } else {
        spec.state.at(k)
    }
}

/// Whether some live source may activate a block.
pub fn is_possible(marks: &RowMarks, block: u32) -> bool
    ensures { result ≡ is_possible (marks_of marks.now) block }
{
    for k in 0..marks.sources() {
        if marks.may_act(k, block) {
            return true;
        }
    }
    false
}

/// Whether a branch of a condition isn't dead, or the condition reads no number that takes it.
fn is_untaken(net: &Net, marks: &RowMarks, block: u32, read: Option<Interval>, branch: u32) -> bool
    requires { IsBlock net.now block }
    ensures { result ≡ untaken_on net.now (marks_of marks.now) block read branch }
{
    let numbers = taking(net.spec(block), branch);
    !marks.is_dead(block, branch) || meet(read, Some(numbers)).is_none()
}

/// Whether a condition reads no number that takes one of its dead branches.
fn are_dead(net: &Net, marks: &RowMarks, block: u32, read: Option<Interval>) -> bool
    requires { IsBlock net.now block }
    ensures { result ≡ dead_on net.now (marks_of marks.now) block read }
{
    for p in 0..marks.branches(block) {
        if !is_untaken(net, marks, block, read, p) {
            return false;
        }
    }
    true
}

/// Whether a block is no condition, or one that reads no number that takes one of its dead branches.
fn is_alive(net: &Net, marks: &RowMarks, block: u32, ins: &[Option<Interval>]) -> bool
    requires { IsBlock net.now block }
    ensures { result ≡ alive_on net.now (marks_of marks.now) block ins.now }
{
    !net.spec(block).kind.is_sync() || are_dead(net, marks, block, range_at(ins, 0))
}

/// Whether nothing is told of a switch, by the inputs that it takes, that the table doesn't have.
fn holds_choice(
    alloc: Global,
    net: &Net,
    inputs: &Inputs,
    marks: &RowMarks,
    table: &RangeTable,
    block: u32,
    ins: &[Option<Interval>],
) -> Result<bool, NoMemory>
    requires rows { length (marks_of marks.now).rows ≡ length (sources_of net.now) }
    requires block { IsBlock net.now block }
    requires choice { is_choice (spec_of net.now block) ≡ true }
    ensures { IfOk result (λ b. b ≡ holds_values (spec_of net.now block) (ranges_of table.now) block (masks_for net.now (marks_of marks.now) block)
        (taken_ranges net.now inputs.now (marks_of marks.now) (ranges_of table.now) block ins.now)) }
{
    net.well_formed();
    let spec = net.spec(block);
    let choice = choice_of(alloc, net, inputs, marks, table, block)?;
    let taken = taken_ranges(alloc, net, block, ins, &choice)?;
    let masks = masks_for(alloc, net, marks, block)?;
    Ok(table.holds_values(spec, block, &masks, &taken))
}

/// Whether nothing is told of a block's values that the table doesn't have.
fn holds_told(
    alloc: Global,
    net: &Net,
    inputs: &Inputs,
    marks: &RowMarks,
    table: &RangeTable,
    block: u32,
    ins: &[Option<Interval>],
) -> Result<bool, NoMemory>
    requires rows { length (marks_of marks.now).rows ≡ length (sources_of net.now) }
    requires block { IsBlock net.now block }
    ensures { IfOk result (λ b. b ≡ holds_told net.now inputs.now (marks_of marks.now) (ranges_of table.now) block ins.now) }
{
    net.well_formed();
    let spec = net.spec(block);
    if is_sum(spec.kind) {
        let beside = beside_of(alloc, net, inputs, marks, table, block)?;
        return Ok(table.holds_sums(net, block, ins, &beside));
    }
    if is_choice(spec) {
        let told = holds_choice(alloc, net, inputs, marks, table, block, ins)?;
        return Ok(told);
    }
    let masks = masks_for(alloc, net, marks, block)?;
    Ok(table.holds_values(spec, block, &masks, ins))
}

/// Whether a block never acts, or nothing is told of it that the table doesn't have.
fn holds_rule(
    alloc: Global,
    net: &Net,
    inputs: &Inputs,
    marks: &RowMarks,
    table: &RangeTable,
    block: u32,
    ins: &[Option<Interval>],
) -> Result<bool, NoMemory>
    requires rows { length (marks_of marks.now).rows ≡ length (sources_of net.now) }
    requires block { IsBlock net.now block }
    ensures { IfOk result (λ b. b ≡ (not (is_possible (marks_of marks.now) block)
        || rule_on net.now inputs.now (marks_of marks.now) (ranges_of table.now) block ins.now)) }
{
    net.well_formed();
    if !is_possible(marks, block) {
        return Ok(true);
    }
    let told = holds_told(alloc, net, inputs, marks, table, block, ins)?;
    if !told {
        return Ok(false);
    }
    Ok(table.holds_next(net.spec(block), block, ins))
}

fn all_hold(first: bool, alive: bool, rule: bool) -> bool
    ensures { result ≡ (first && (alive && rule)) }
{
    first && (alive && rule)
}

/// Whether no rule widens what the table tells of a block.
fn holds_block(
    alloc: Global,
    net: &Net,
    inputs: &Inputs,
    marks: &RowMarks,
    table: &RangeTable,
    block: u32,
) -> Result<bool, NoMemory>
    requires rows { length (marks_of marks.now).rows ≡ length (sources_of net.now) }
    requires block { IsBlock net.now block }
    ensures { IfOk result (λ b. b ≡ holds_block net.now inputs.now (marks_of marks.now) (ranges_of table.now) block) }
{
    net.well_formed();
    let first = table.holds_first(net.spec(block), block);
    let readings = readings_of(alloc, net, marks, block)?;
    let ins = entered(alloc, net, inputs, &readings, table, block)?;
    let alive = is_alive(net, marks, block, &ins);
    let rule = holds_rule(alloc, net, inputs, marks, table, block, &ins)?;
    Ok(all_hold(first, alive, rule))
}

/// Whether no rule widens the table.
pub fn is_closed(
    alloc: Global,
    net: &Net,
    inputs: &Inputs,
    marks: &RowMarks,
    table: &RangeTable,
) -> Result<bool, NoMemory>
    requires { length (marks_of marks.now).rows ≡ length (sources_of net.now) }
    ensures { IfOk result (λ b. b ≡ is_closed net.now inputs.now (marks_of marks.now) (ranges_of table.now)) }
{
    for at in 0..net.len() {
        let holds = holds_block(alloc, net, inputs, marks, table, at + 1)?;
        if !holds {
            return Ok(false);
        }
    }
    Ok(true)
}

/// Whether an activation output has a first event.
pub(crate) fn is_dated(net: &Net, port: Feed) -> bool
    requires { IsBlock net.now port.block }
    ensures { result ≡ is_dated net.now port }
{
    let firing = &net.spec(port.block).firing;
    if port.port == 0 {
        return false;
    }
    if port.port as usize > firing.len() {
        return false;
    }
    0 <= firing.get(port.port as usize - 1)
}

/// Whether the place of a source is marked, where its source has a first event.
fn marks_dated(net: &Net, marks: &RowMarks, place: u32) -> bool
    requires { place < length (sources_of net.now) }
    ensures { result ≡ marks_dated net.now (marks_of marks.now) place (source_of net.now place) }
{
    match net.source(place) {
        Source::Start => marks.is_live(place as usize),
        Source::Port(q) => !is_dated(net, q) || marks.is_live(place as usize),
    }
}

/// Whether the source of a place may make a block program its activation output.
fn programs(net: &Net, marks: &RowMarks, by: usize, block: u32) -> bool
    requires { IsBlock net.now block }
    ensures { result ≡ (may_act (marks_of marks.now) by block && may_program (spec_of net.now block)) }
{
    marks.may_act(by, block) && may_program(net.spec(block))
}

/// Whether the place of a source is marked, where the source of another place programs it.
fn marks_programmed(net: &Net, marks: &RowMarks, by: usize, place: u32) -> bool
    requires { place < length (sources_of net.now) }
    ensures { result ≡ marks_programmed net.now (marks_of marks.now) by place (source_of net.now place) }
{
    match net.source(place) {
        Source::Start => marks.is_live(place as usize),
        Source::Port(q) => !programs(net, marks, by, q.block) || marks.is_live(place as usize),
    }
}

/// The same of each place that may program it.
fn marks_by_all(net: &Net, marks: &RowMarks, place: u32) -> bool
    requires { place < length (sources_of net.now) }
    ensures { result ≡ marked_by_all net.now (marks_of marks.now) place }
{
    for by in 0..marks.sources() {
        if !marks_programmed(net, marks, by, place) {
            return false;
        }
    }
    true
}

/// Whether the place of a source is marked, where it may ever react.
pub(crate) fn marks_place(net: &Net, marks: &RowMarks, place: u32) -> bool
    requires { place < length (sources_of net.now) }
    ensures { result ≡ marked_place net.now (marks_of marks.now) place }
{
    marks_dated(net, marks, place) && marks_by_all(net, marks, place)
}

/// The first place that isn't marked, though its source may ever react by the marks so far.
pub(crate) fn first_missing(net: &Net, marks: &RowMarks) -> Option<u32>
    requires { length (marks_of marks.now).rows ≡ length (sources_of net.now) }
    ensures { MatchOption result (marks_live net.now (marks_of marks.now) ≡ true) (λ j. IsMissing net.now (marks_of marks.now) j) }
{
    for place in 0..net.source_count() {
        if !marks_place(net, marks, place) {
            return Some(place);
        }
    }
    None
}
