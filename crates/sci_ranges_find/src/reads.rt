// What goes into a block, by a table.
ghost use Rattle.std.specs.Prelude.{◌≡◌, ◌<◌, ◌≤◌, ◌+◌, ◌-◌, ◌++◌, nat_eq, if◌then◌else◌, IfOk, OnOk, Some, length, slice_index_or, true, None, []};
ghost use Rattle.sci_forms.specs.Ports.{before, elements, total};
ghost use Rattle.sci_net.specs.Parts.{IsBlock, IsInput, numbered, spec_of, input_of};
ghost use Rattle.sci_net.specs.Sources.{sources_of};
ghost use Rattle.sci_ranges.specs.Columns.{sensed_range};
ghost use Rattle.sci_ranges_pass.specs.Ranges.{masks_for};
ghost use Rattle.sci_ranges_marks.specs.View.{marks_of};
ghost use Rattle.sci_ranges_find.specs.View.{ranges_of, decides_on, narrowed, IsTaken, fed_range};
ghost use Rattle.sci_ranges_find.specs.Readings.{no_reading, port_by, ports_by, entered_by, IsReading, AreReadings};

use crate::table::{RangeTable, before};
use sci_base::NoMemory;
use sci_kinds::Spec;
use sci_net::{Feed, Net, Wire};
use sci_ranges_base::{Interval, Masks, hull_of, meet};
use sci_ranges_kinds::taking;
use sci_ranges_marks::RowMarks;
use sci_ranges_sums::same_wire;
use sci_trace::inputs::Inputs;
use std::alloc::Global;

/// How a block takes one of its inputs.
#[derive(Clone, Copy, Drop)]
pub struct Reading {
    /// Whether it takes what the feeder shows, and not what that holds.
    pub shown: bool,
    /// The numbers to which the branch under which alone it acts keeps the first element, where it does.
    pub numbers: Option<Interval>,
}

/// Where the elements of an output begin, among all elements of its block's outputs.
fn output_from(net: &Net, wire: Wire) -> usize
    requires block { IsBlock net.now wire.block }
    requires least { 1 ≤ wire.port }
    requires most { wire.port ≤ length (spec_of net.now wire.block).outs }
    ensures { result ≡ before (spec_of net.now wire.block).outs (wire.port - 1) }
{
    net.well_formed();
    before(&net.spec(wire.block).outs, wire.port as usize - 1)
}

/// Whether a block is a condition on this wire.
fn decides_on(net: &Net, block: u32, wire: Wire) -> bool
    ensures { result ≡ decides_on net.now block wire }
{
    net.well_formed();
    if block == 0 {
        return false;
    }
    if block > net.len() {
        return false;
    }
    net.spec(block).kind.is_sync() && same_wire(net.wire(block, 1), wire)
}

/// The numbers that take a branch, where a block acts under it alone, and an input of the block has the wire of its condition.
fn taken_by(net: &Net, marks: &RowMarks, block: u32, port: u32, branch: Feed) -> Option<Interval>
    requires { IsInput net.now block port }
    ensures { IsTaken net.now (marks_of marks.now) block port (Some branch) result }
{
    if !decides_on(net, branch.block, net.wire(block, port)) {
        return None;
    }
    if !marks.is_under(branch, block) {
        return None;
    }
    Some(taking(net.spec(branch.block), branch.port))
}

/// The same of the branch that the marks tell.
fn taken(net: &Net, marks: &RowMarks, block: u32, port: u32) -> Option<Interval>
    requires { IsInput net.now block port }
    ensures { IsTaken net.now (marks_of marks.now) block port (slice_index_or (marks_of marks.now).under block None) result }
{
    match marks.under(block) {
        Some(branch) => taken_by(net, marks, block, port, branch),
        None => None,
    }
}

fn narrowed(numbers: Option<Interval>, plain: Option<Interval>) -> Option<Interval>
    ensures { result ≡ narrowed numbers plain }
{
    match numbers {
        Some(numbers) => meet(plain, Some(numbers)),
        None => plain,
    }
}

/// What an element of a feeder is to a reader: what it shows, or what it holds.
fn fed(table: &RangeTable, net: &Net, shown: bool, block: u32, e: usize) -> Option<Interval>
    requires block { IsBlock net.now block }
    requires element { e < total (spec_of net.now block).outs }
    ensures { result ≡ fed_range net.now (ranges_of table.now) shown block e }
{
    if shown {
        table.shown(block, e)
    } else {
        table.held(net, block, e)
    }
}

/// What element `d` of an input may be, where the first one is a number of these.
fn first_narrowed(numbers: Option<Interval>, d: usize, plain: Option<Interval>) -> Option<Interval>
    ensures { result ≡ (if nat_eq d 0 then narrowed numbers plain else plain) }
{
    if d == 0 {
        narrowed(numbers, plain)
    } else {
        plain
    }
}

/// How many elements an input has.
fn input_elements(net: &Net, block: u32, port: u32) -> usize
    requires { IsInput net.now block port }
    ensures { result ≡ elements (input_of net.now block port) }
{
    net.well_formed();
    net.spec(block).ins.port(port as usize - 1).elements() as usize
}

/// How a block takes an input, by the marks.
fn reading_of(net: &Net, marks: &RowMarks, block: u32, port: u32) -> Reading
    requires rows { length (marks_of marks.now).rows ≡ length (sources_of net.now) }
    requires input { IsInput net.now block port }
    ensures { IsReading net.now (marks_of marks.now) block port result }
{
    let shown = marks.is_shown(net, block, port - 1);
    let numbers = taken(net, marks, block, port);
    Reading { shown, numbers }
}

/// How it takes each of its inputs.
pub fn readings_of(
    alloc: Global,
    net: &Net,
    marks: &RowMarks,
    block: u32,
) -> Result<Vec<Reading>, NoMemory>
    requires rows { length (marks_of marks.now).rows ≡ length (sources_of net.now) }
    requires block { IsBlock net.now block }
    ensures { IfOk result (λ v. AreReadings net.now (marks_of marks.now) block v.items) }
{
    let spec = net.spec(block);
    let mut readings = Vec::new(alloc);
    for k in 0..spec.ins.len() {
        let port = k as u32 + 1;
        let reading = reading_of(net, marks, block, port);
        readings.push(reading)?;
    }
    Ok(readings)
}

/// Reading `k` of a list; where there is none, what is held is taken.
fn reading_at(readings: &[Reading], k: usize) -> Reading
    ensures { result ≡ slice_index_or readings.now k no_reading }
{
    if k < readings.len() {
        readings[k]
    } else {
        Reading {
            shown: false,
            numbers: None,
        }
    }
}

/// What the elements of one input of a block may be, pushed behind those of the inputs before it.
fn read_port(
    net: &Net,
    table: &RangeTable,
    block: u32,
    port: u32,
    reading: Reading,
    entered: &mut Vec<Option<Interval>>,
) -> Result<(), NoMemory>
    requires { IsInput net.now block port }
    ensures { OnOk result (entered.new.items ≡ entered.old.items
        ++ port_by net.now (ranges_of table.now) reading block port (elements (input_of net.now block port))) }
{
    net.well_formed();
    let wire = net.wire(block, port);
    let from = output_from(net, wire);
    for d in 0..input_elements(net, block, port) {
        let plain = fed(table, net, reading.shown, wire.block, from + d);
        let element = first_narrowed(reading.numbers, d, plain);
        entered.push(element)?;
    }
    Ok(())
}

/// What the elements of all inputs of a block may be, one input after the other.
fn read_ports(
    alloc: Global,
    net: &Net,
    readings: &[Reading],
    table: &RangeTable,
    block: u32,
) -> Result<Vec<Option<Interval>>, NoMemory>
    requires { IsBlock net.now block }
    ensures { IfOk result (λ v. v.items ≡ ports_by net.now (ranges_of table.now) readings.now block 0 (spec_of net.now block).ins) }
{
    let spec = net.spec(block);
    let mut all = Vec::new(alloc);
    for k in 0..spec.ins.len() {
        let port = k as u32 + 1;
        let reading = reading_at(readings, k);
        read_port(net, table, block, port, reading, &mut all)?;
    }
    Ok(all)
}

/// The values of a column, counted from 1; none where there is no such column.
fn column(inputs: &Inputs, number: usize) -> &[i64]
    ensures { result.now ≡ numbered [] inputs.now number }
{
    let columns = inputs.columns();
    if 1 <= number && number <= columns.len() {
        columns[number - 1].as_slice()
    } else {
        &[]
    }
}

/// What a sensor may take: from the least value of its column to the greatest, and any number of its type where the column has none.
fn sensed(inputs: &Inputs, spec: &Spec) -> Interval
    ensures { result ≡ sensed_range inputs.now spec.now }
{
    let values = column(inputs, spec.params.at(0).unsigned_abs() as usize);
    match hull_of(values) {
        Some(range) => range,
        None => Interval::whole(spec.outs.port(0).kind_of_type()),
    }
}

/// What goes into a block, element by element, where it takes its inputs so.
pub fn entered(
    alloc: Global,
    net: &Net,
    inputs: &Inputs,
    readings: &[Reading],
    table: &RangeTable,
    block: u32,
) -> Result<Vec<Option<Interval>>, NoMemory>
    requires { IsBlock net.now block }
    ensures { IfOk result (λ v. v.items ≡ entered_by net.now inputs.now (ranges_of table.now) readings.now block) }
{
    let spec = net.spec(block);
    if spec.kind.is_sensor() {
        let range = sensed(inputs, spec);
        let value = vec![in alloc; Some(range); 1]?;
        return Ok(value);
    }
    let ports = read_ports(alloc, net, readings, table, block)?;
    Ok(ports)
}

/// The masks that a block may have; where its kind doesn't read them, any at all.
pub fn masks_for(
    alloc: Global,
    net: &Net,
    marks: &RowMarks,
    block: u32,
) -> Result<Vec<Masks>, NoMemory>
    requires { IsBlock net.now block }
    ensures { IfOk result (λ v. v.items ≡ masks_for net.now (marks_of marks.now) block) }
{
    if net.spec(block).kind.reads_mask() {
        let masks = marks.masks_of(alloc, block)?;
        return Ok(masks);
    }
    let any = vec![in alloc; Masks { certain: 0, may: 1 }; 1]?;
    Ok(any)
}
