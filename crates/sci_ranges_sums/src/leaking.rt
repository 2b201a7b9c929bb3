// What a sum leaks.
ghost use Rattle.std.specs.Prelude.{◌≡◌, ◌<◌, ◌≤◌, ◌+◌, length, option_map, unsigned_abs, true};
ghost use Rattle.sci_forms.specs.Typed.{typed};
ghost use Rattle.sci_net.specs.Parts.{IsBlock, IsInput, spec_of};
ghost use Rattle.sci_ranges_refined.specs.Sums.{shifts_right, places_of};
ghost use Rattle.sci_ranges_pass.specs.Told.{first_of, loses, keeps, kept_at, leak_at, leak};
ghost use Rattle.sci_ranges_marks.specs.View.{marks_of};
ghost use Rattle.sci_ranges_sums.specs.View.{leak_of};

use crate::following::same_wire;
use crate::parts::Leak;
use crate::shapes::{is_sum, shifts_right};
use sci_forms::values::is_equal;
use sci_kinds::Spec;
use sci_net::Net;
use sci_ranges_marks::RowMarks;

/// By how many places a block shifts to the right.
fn places_of(spec: &Spec) -> u32
    requires is_typed { typed spec.now ≡ true }
    requires shifts { shifts_right spec.now ≡ true }
    ensures value { result ≡ places_of spec.now }
    ensures few { result < 32 }
{
    spec.params.at(0).unsigned_abs() as u32
}

/// Whether input `l`, from 0, is subtracted, and comes from a block that shifts to the right wherever this one acts.
fn loses(net: &Net, marks: &RowMarks, block: u32, l: u32) -> bool
    requires { IsInput net.now block (l + 1) }
    ensures { result ≡ loses net.now (marks_of marks.now) block l }
{
    net.well_formed();
    let wire = net.wire(block, l + 1);
    is_equal(net.spec(block).params.at(l as usize + 1), -1)
        && (wire.port == 1
            && (shifts_right(net.spec(wire.block)) && marks.is_along(wire.block, block)))
}

/// Whether input `k`, from 0, is added, and has what another block shifts.
fn keeps(net: &Net, block: u32, shift: u32, k: u32) -> bool
    requires input { IsInput net.now block (k + 1) }
    requires shift { IsInput net.now shift 1 }
    ensures { result ≡ keeps net.now block shift k }
{
    is_equal(net.spec(block).params.at(k as usize + 1), 1)
        && same_wire(net.wire(shift, 1), net.wire(block, k + 1))
}

/// The first such input.
fn kept_by(net: &Net, block: u32, shift: u32) -> Option<u32>
    requires block { IsBlock net.now block }
    requires shift { IsInput net.now shift 1 }
    ensures { result ≡ first_of (kept_at net.now block shift) (length (spec_of net.now block).ins) }
{
    for k in 0..net.spec(block).ins.len() {
        let input = k as u32;
        if keeps(net, block, shift, input) {
            return Some(input);
        }
    }
    None
}

/// What a sum leaks by input `l`, from 0.
fn leak_at(net: &Net, marks: &RowMarks, block: u32, l: u32) -> Option<Leak>
    requires { IsInput net.now block (l + 1) }
    ensures { option_map leak_of result ≡ leak_at net.now (marks_of marks.now) block l }
{
    net.well_formed();
    if !loses(net, marks, block, l) {
        return None;
    }
    let shift = net.wire(block, l + 1).block;
    let kept = kept_by(net, block, shift)?;
    Some(Leak {
        kept: kept as usize,
        lost: l as usize,
        places: places_of(net.spec(shift)),
    })
}

/// What a sum leaks by the first input that there is.
pub fn find_leak(net: &Net, marks: &RowMarks, block: u32) -> Option<Leak>
    requires { IsBlock net.now block }
    ensures { option_map leak_of result ≡ leak net.now (marks_of marks.now) block }
{
    let spec = net.spec(block);
    if !is_sum(spec.kind) {
        return None;
    }
    for l in 0..spec.ins.len() {
        let found = leak_at(net, marks, block, l as u32);
        if found.is_some() {
            return found;
        }
    }
    None
}
