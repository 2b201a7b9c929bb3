// What a switch takes, from what goes in with it.
ghost use Rattle.std.specs.Prelude.{◌≡◌, ◌<◌, true, false, length, option_map, IfSome, IfOk};
ghost use Rattle.sci_net.specs.Parts.{IsBlock, spec_of};
ghost use Rattle.sci_ranges_base.specs.Intervals.{HasEnds, summands, range_at};
ghost use Rattle.sci_ranges_base.specs.Wide.{numbers};
ghost use Rattle.sci_ranges_refined.specs.Sums.{sum_cells};
ghost use Rattle.sci_ranges_refined.specs.Choices.{sum_of};
ghost use Rattle.sci_ranges_pass.specs.Taken.{by_condition, by_input, by_truth, is_choice};
ghost use Rattle.sci_ranges_choices.specs.View.{IsCompared, IsAdded, AreFollowed, by_looked, kept_by, summand_by, by_added, taken_by, all_taken_by};

use crate::numbers::{compared_of, taken_of};
use crate::parts::Choice;
use crate::shapes::known_truth;
use sci_base::NoMemory;
use sci_net::{Net, Wire};
use sci_ranges_base::{Interval, Wide, meet};
use sci_ranges_kinds::fitted_out;
use sci_ranges_sums::{Followed, same_wire};
use std::alloc::Global;

/// Interval `e` of a list.
fn range_at(ranges: &[Option<Interval>], e: usize) -> Option<Interval>
    ensures { result ≡ range_at ranges.now e }
{
    if e < ranges.len() { ranges[e] } else { None }
}

// ---- what a wire has

/// Of the numbers on a wire those on which a switch takes an input, where the wire is its condition.
fn by_condition(
    net: &Net,
    block: u32,
    first: bool,
    wire: Wire,
    o: Option<Interval>,
) -> Option<Interval>
    requires block { IsBlock net.now block }
    requires choice { is_choice (spec_of net.now block) ≡ true }
    ensures { result ≡ by_condition net.now block first wire o }
{
    net.well_formed();
    let condition = net.wire(block, 2);
    if same_wire(condition, wire) {
        taken_of(net.spec(block), first, o)
    } else {
        o
    }
}

/// Of the numbers on a wire those that may compare so, where it goes into input `k` of a comparison, from 0.
fn by_input(
    net: &Net,
    compared: &Followed,
    k: u32,
    holds: bool,
    wire: Wire,
    o: Option<Interval>,
) -> Option<Interval>
    requires compared { IsCompared net.now compared.now.block }
    requires input { k < 2 }
    ensures { result ≡ by_input net.now compared.now.block k holds compared.now.ins.items wire o }
{
    net.well_formed();
    let own = net.wire(compared.block, k + 1);
    if !same_wire(own, wire) {
        return o;
    }
    let other = range_at(&compared.ins, 1 - k as usize);
    let numbers = compared_of(net.spec(compared.block), k, holds, other);
    meet(o, numbers)
}

/// The same of both inputs, where it is known how the comparison comes out.
fn by_truth(
    net: &Net,
    compared: &Followed,
    known: Option<bool>,
    wire: Wire,
    o: Option<Interval>,
) -> Option<Interval>
    requires { IsCompared net.now compared.now.block }
    ensures { result ≡ by_truth net.now compared.now.block compared.now.ins.items wire known o }
{
    match known {
        Some(holds) => {
            let first = by_input(net, compared, 0, holds, wire, o);
            by_input(net, compared, 1, holds, wire, first)
        }
        None => o,
    }
}

/// The same of the comparison that a switch looks at, if it looks at one.
fn by_looked(
    net: &Net,
    block: u32,
    first: bool,
    choice: &Choice,
    wire: Wire,
    o: Option<Interval>,
) -> Option<Interval>
    requires block { IsBlock net.now block }
    requires followed { AreFollowed net.now choice.now }
    ensures { result ≡ by_looked net.now block first wire choice.now.compared o }
{
    match &choice.compared {
        Some(compared) => {
            let known = known_truth(net.spec(block), first);
            by_truth(net, compared, known, wire, o)
        }
        None => o,
    }
}

/// Of the numbers on a wire those that are left where a switch takes its first input, or its third.
fn kept_by(
    net: &Net,
    block: u32,
    first: bool,
    choice: &Choice,
    wire: Wire,
    o: Option<Interval>,
) -> Option<Interval>
    requires block { IsBlock net.now block }
    requires choice { is_choice (spec_of net.now block) ≡ true }
    requires followed { AreFollowed net.now choice.now }
    ensures { result ≡ kept_by net.now block first choice.now wire o }
{
    let own = by_condition(net, block, first, wire, o);
    by_looked(net, block, first, choice, wire, own)
}

// ---- a sum that is taken

/// What input `j` of a sum may have, from 0, where the sum is taken.
fn summand(
    net: &Net,
    block: u32,
    first: bool,
    choice: &Choice,
    sum: &Followed,
    j: usize,
) -> Option<Interval>
    requires block { IsBlock net.now block }
    requires choice { is_choice (spec_of net.now block) ≡ true }
    requires followed { AreFollowed net.now choice.now }
    requires sum { IsAdded net.now sum.now.block }
    requires input { j < length (spec_of net.now sum.now.block).ins }
    ensures { result ≡ summand_by net.now block first choice.now sum.now j }
{
    net.well_formed();
    let port = j as u32 + 1;
    let wire = net.wire(sum.block, port);
    let read = range_at(&sum.ins, j);
    kept_by(net, block, first, choice, wire, read)
}

/// The exact sums of these.
fn sum_of(net: &Net, block: u32, first: bool, choice: &Choice, sum: &Followed) -> Option<Wide>
    requires block { IsBlock net.now block }
    requires choice { is_choice (spec_of net.now block) ≡ true }
    requires followed { AreFollowed net.now choice.now }
    requires sum { IsAdded net.now sum.now.block }
    ensures value { option_map numbers result ≡ sum_of (spec_of net.now sum.now.block) (summand_by net.now block first choice.now sum.now) }
    ensures ends { IfSome result (λ w. HasEnds summands (numbers w)) }
{
    net.well_formed();
    let spec = net.spec(sum.block);
    let mut sums = Wide::new(0, 0);
    for j in 0..spec.ins.len() {
        let i = summand(net, block, first, choice, sum, j)?;
        let sign = spec.params.at(j + 1);
        sums = sums.plus(Wide::of(i).times(sign));
    }
    Some(sums)
}

/// What the sum may give then.
fn sum_values(
    net: &Net,
    block: u32,
    first: bool,
    choice: &Choice,
    sum: &Followed,
) -> Option<Interval>
    requires block { IsBlock net.now block }
    requires choice { is_choice (spec_of net.now block) ≡ true }
    requires followed { AreFollowed net.now choice.now }
    requires sum { IsAdded net.now sum.now.block }
    ensures { result ≡ (sum_cells (spec_of net.now sum.now.block) (sum_of (spec_of net.now sum.now.block) (summand_by net.now block first choice.now sum.now))).values }
{
    match sum_of(net, block, first, choice, sum) {
        Some(sums) => fitted_out(net.spec(sum.block), sums).values,
        None => None,
    }
}

/// Of the numbers on the first input of a switch, or on its third, those that a sum may give there, where it is one.
fn by_added(
    net: &Net,
    block: u32,
    first: bool,
    choice: &Choice,
    sum: &Option<Followed>,
    o: Option<Interval>,
) -> Option<Interval>
    requires block { IsBlock net.now block }
    requires choice { is_choice (spec_of net.now block) ≡ true }
    requires followed { AreFollowed net.now choice.now }
    requires sum { IfSome sum.now (λ f. IsAdded net.now f.block) }
    ensures { result ≡ by_added net.now block first choice.now sum.now o }
{
    match sum {
        Some(sum) => meet(o, sum_values(net, block, first, choice, sum)),
        None => o,
    }
}

// ---- what is taken

/// What the first input of a switch may have, where it is taken.
fn first_taken(net: &Net, block: u32, ins: &[Option<Interval>], choice: &Choice) -> Option<Interval>
    requires block { IsBlock net.now block }
    requires choice { is_choice (spec_of net.now block) ≡ true }
    requires followed { AreFollowed net.now choice.now }
    ensures { result ≡ taken_by net.now block ins.now choice.now true }
{
    net.well_formed();
    let wire = net.wire(block, 1);
    let kept = kept_by(net, block, true, choice, wire, range_at(ins, 0));
    by_added(net, block, true, choice, &choice.first, kept)
}

/// What its third may have.
fn third_taken(net: &Net, block: u32, ins: &[Option<Interval>], choice: &Choice) -> Option<Interval>
    requires block { IsBlock net.now block }
    requires choice { is_choice (spec_of net.now block) ≡ true }
    requires followed { AreFollowed net.now choice.now }
    ensures { result ≡ taken_by net.now block ins.now choice.now false }
{
    net.well_formed();
    let wire = net.wire(block, 3);
    let kept = kept_by(net, block, false, choice, wire, range_at(ins, 2));
    by_added(net, block, false, choice, &choice.third, kept)
}

/// What goes into a switch of one element, each of the two inputs as where it is taken.
pub fn taken_ranges(
    alloc: Global,
    net: &Net,
    block: u32,
    ins: &[Option<Interval>],
    choice: &Choice,
) -> Result<Vec<Option<Interval>>, NoMemory>
    requires block { IsBlock net.now block }
    requires choice { is_choice (spec_of net.now block) ≡ true }
    requires followed { AreFollowed net.now choice.now }
    ensures { IfOk result (λ v. v.items ≡ all_taken_by net.now block ins.now choice.now) }
{
    let mut taken = Vec::new(alloc);
    taken.push(first_taken(net, block, ins, choice))?;
    taken.push(range_at(ins, 1))?;
    taken.push(third_taken(net, block, ins, choice))?;
    Ok(taken)
}
