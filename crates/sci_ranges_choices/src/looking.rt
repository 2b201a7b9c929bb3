// The blocks before a switch of which it is told.
ghost use Rattle.std.specs.Prelude.{◌≡◌, ◌&&◌, IfSome, true};
ghost use Rattle.sci_net.specs.Parts.{IsBlock, spec_of};
ghost use Rattle.sci_ranges_refined.specs.Sums.{is_sum};
ghost use Rattle.sci_ranges_refined.specs.Choices.{compares, taken_input};
ghost use Rattle.sci_ranges_pass.specs.Taken.{is_single, comparison, addition, is_choice};
ghost use Rattle.sci_ranges_marks.specs.View.{marks_of};
ghost use Rattle.sci_ranges_choices.specs.View.{IsCompared, IsAdded};

use crate::shapes::compares;
use sci_net::{Net, Wire};
use sci_ranges_kinds::size;
use sci_ranges_marks::RowMarks;
use sci_ranges_sums::is_sum;

/// Whether a wire comes from the first output of a block that shows one number, and acts wherever the given block does.
fn is_single(net: &Net, marks: &RowMarks, block: u32, wire: Wire) -> bool
    requires { IsBlock net.now wire.block }
    ensures { result ≡ is_single net.now (marks_of marks.now) block wire }
{
    net.well_formed();
    wire.port == 1 && (size(net.spec(wire.block)) == 1 && marks.is_along(wire.block, block))
}

/// Whether that block compares.
fn is_compared(net: &Net, marks: &RowMarks, block: u32, wire: Wire) -> bool
    requires { IsBlock net.now wire.block }
    ensures { result ≡ (compares (spec_of net.now wire.block).kind && is_single net.now (marks_of marks.now) block wire) }
{
    compares(net.spec(wire.block).kind) && is_single(net, marks, block, wire)
}

/// Whether it adds.
fn is_added(net: &Net, marks: &RowMarks, block: u32, wire: Wire) -> bool
    requires { IsBlock net.now wire.block }
    ensures { result ≡ (is_sum (spec_of net.now wire.block).kind && is_single net.now (marks_of marks.now) block wire) }
{
    is_sum(net.spec(wire.block).kind) && is_single(net, marks, block, wire)
}

/// The comparison that a switch looks at, where it looks at one.
pub fn comparison(net: &Net, marks: &RowMarks, block: u32) -> Option<u32>
    requires block { IsBlock net.now block }
    requires choice { is_choice (spec_of net.now block) ≡ true }
    ensures value { result ≡ comparison net.now (marks_of marks.now) block }
    ensures lead { IfSome result (λ g. IsCompared net.now g) }
{
    net.well_formed();
    let wire = net.wire(block, 2);
    if is_compared(net, marks, block, wire) {
        Some(wire.block)
    } else {
        None
    }
}

/// The number of a switch's first input, or of its third.
fn taken_input(first: bool) -> u32
    ensures { result ≡ taken_input first }
{
    if first { 1 } else { 3 }
}

/// The sum that is a switch's first input, or its third, where it is one.
pub fn addition(net: &Net, marks: &RowMarks, block: u32, first: bool) -> Option<u32>
    requires block { IsBlock net.now block }
    requires choice { is_choice (spec_of net.now block) ≡ true }
    ensures value { result ≡ addition net.now (marks_of marks.now) block first }
    ensures lead { IfSome result (λ g. IsAdded net.now g) }
{
    net.well_formed();
    let input = taken_input(first);
    let wire = net.wire(block, input);
    if is_added(net, marks, block, wire) {
        Some(wire.block)
    } else {
        None
    }
}
