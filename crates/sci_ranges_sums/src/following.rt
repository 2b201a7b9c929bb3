// The block whose difference a sum follows.
ghost use Rattle.std.specs.Prelude.{◌≡◌, IfSome};
ghost use Rattle.sci_net.specs.Parts.{IsBlock, IsInput};
ghost use Rattle.sci_ranges_pass.specs.Ranges.{same_wire};
ghost use Rattle.sci_ranges_pass.specs.Told.{shrinks_along, step_back, stepped_back, subtracts_along, aim_at, aim};
ghost use Rattle.sci_ranges_marks.specs.View.{marks_of};

use crate::shapes::{adds_two, shrinks, subtracted, takes_difference};
use sci_net::{Net, Wire};
use sci_ranges_marks::RowMarks;

/// Whether two wires come from one output.
pub fn same_wire(one: Wire, other: Wire) -> bool
    ensures { result ≡ same_wire one other }
{
    one.block == other.block && one.port == other.port
}

/// Whether a wire comes from a block that shows a part of what its input has, and acts wherever the given block does.
fn shrinks_along(net: &Net, marks: &RowMarks, block: u32, wire: Wire) -> bool
    requires { IsBlock net.now wire.block }
    ensures { result ≡ shrinks_along net.now (marks_of marks.now) block wire }
{
    net.well_formed();
    wire.port == 1 && (shrinks(net.spec(wire.block)) && marks.is_along(wire.block, block))
}

/// The wire of which this one has a part; this one, where there is none.
fn step_back(net: &Net, marks: &RowMarks, block: u32, wire: Wire) -> Wire
    requires { IsBlock net.now wire.block }
    ensures value { result ≡ step_back net.now (marks_of marks.now) block wire }
    ensures lead { IsBlock net.now result.block }
{
    net.well_formed();
    if shrinks_along(net, marks, block, wire) {
        net.wire(wire.block, 1)
    } else {
        wire
    }
}

/// Three steps back.
fn stepped_back(net: &Net, marks: &RowMarks, block: u32, wire: Wire) -> Wire
    requires { IsBlock net.now wire.block }
    ensures value { result ≡ stepped_back net.now (marks_of marks.now) block wire }
    ensures lead { IsBlock net.now result.block }
{
    let first = step_back(net, marks, block, wire);
    let second = step_back(net, marks, block, first);
    step_back(net, marks, block, second)
}

/// Whether a wire comes from a block that subtracts what another wire has, and acts wherever the given block does.
fn subtracts_along(net: &Net, marks: &RowMarks, block: u32, from: Wire, wire: Wire) -> bool
    requires { IsBlock net.now wire.block }
    ensures { result ≡ subtracts_along net.now (marks_of marks.now) block from wire }
{
    net.well_formed();
    let spec = net.spec(wire.block);
    if wire.port != 1 {
        return false;
    }
    if !takes_difference(spec) {
        return false;
    }
    if !marks.is_along(wire.block, block) {
        return false;
    }
    let port = subtracted(spec) + 1;
    let taken = net.wire(wire.block, port);
    same_wire(from, taken)
}

/// The block whose difference a sum follows on input `more`, where it has on input `from` what that subtracts.
fn aim_at(net: &Net, marks: &RowMarks, block: u32, from: u32, more: u32) -> Option<u32>
    requires from { IsInput net.now block from }
    requires more { IsInput net.now block more }
    ensures value { result ≡ aim_at net.now (marks_of marks.now) block from more }
    ensures lead { IfSome result (λ f. IsBlock net.now f) }
{
    net.well_formed();
    let other = net.wire(block, more);
    let back = stepped_back(net, marks, block, other);
    let own = net.wire(block, from);
    if subtracts_along(net, marks, block, own, back) {
        Some(back.block)
    } else {
        None
    }
}

/// The block whose difference a sum follows: it adds to what that subtracts a part of the difference.
pub fn aim(net: &Net, marks: &RowMarks, block: u32) -> Option<u32>
    requires { IsBlock net.now block }
    ensures value { result ≡ aim net.now (marks_of marks.now) block }
    ensures lead { IfSome result (λ f. IsBlock net.now f) }
{
    net.well_formed();
    if !adds_two(net.spec(block)) {
        return None;
    }
    match aim_at(net, marks, block, 1, 2) {
        Some(followed) => Some(followed),
        None => aim_at(net, marks, block, 2, 1),
    }
}
