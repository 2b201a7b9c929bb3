// The ties of parts: along wires, and by equal negative numbers of one block.
ghost use Rattle.std.specs.Prelude.{◌≡◌, ◌<◌, ◌≤◌, ◌<ℤ◌, ◌↔◌, pos, length, IsTrue, IfSome, IfNone, OnOk};
ghost use Rattle.sci_net.specs.Parts.{Parts, IsOutput};
ghost use Rattle.sci_infer.specs.PortParts.{parts_in};
ghost use Rattle.sci_infer.specs.Layout.{IsLayout, IsOutputAt};
ghost use Rattle.sci_infer.specs.Ties.{IsLike, IsWireTie, HasNoWireTie, WiresTied, IsFirstLike, BeginsAt, IsSharedTie, HasNoSharedTie, SharedTied};

use crate::classes::Tie;
use crate::parts::{PartLayout, PortPart, Side, What};
use sci_base::NoMemory;
use sci_net::{Flat, Wire};

/// Where a part of an output stands.
fn output_place(flat: &Flat, layout: &PartLayout, wire: Wire, what: What) -> usize
    requires layout { IsLayout flat.now layout.now }
    requires wire { IsOutput flat.now wire.block wire.port }
    ensures { IsOutputAt flat.now wire what result }
{
    let _total = layout.parts.len();
    let inputs = flat.spec(wire.block).ins.len();
    let port = wire.port as usize - 1;
    layout.starts[wire.block as usize - 1] + (3 * inputs + (3 * port + what.offset()))
}

/// The tie of the part at a place to the output that feeds it, if it is an input's.
fn wire_tie(flat: &Flat, layout: &PartLayout, at: usize) -> Option<Tie>
    requires layout { IsLayout flat.now layout.now }
    requires within { at < length layout.now.parts.items }
    ensures some { IfSome result (λ t. IsWireTie flat.now at t) }
    ensures none { IfNone result (HasNoWireTie flat.now at) }
{
    flat.well_formed();
    let part = layout.parts[at];
    match part.side {
        Side::Input => {
            let wire = flat.wire(part.block, part.port);
            let right = output_place(flat, layout, wire, part.what);
            Some(Tie { left: at, right })
        }
        Side::Output => None,
    }
}

/// The ties along wires.
pub fn tie_wires(flat: &Flat, layout: &PartLayout, ties: &mut Vec<Tie>) -> Result<(), NoMemory>
    requires layout { IsLayout flat.now layout.now }
    ensures { OnOk result (WiresTied flat.now (length (parts_in flat.now)) ties.old.items ties.new.items) }
{
    for at in 0..layout.parts.len() {
        if let Some(tie) = wire_tie(flat, layout, at) {
            ties.push(tie)?;
        }
    }
    Ok(())
}

/// Whether two parts have one number in one block, both of types or both of sizes.
fn is_like(left: &PortPart, right: &PortPart) -> bool
    ensures { IsTrue result ↔ IsLike left.now right.now }
{
    left.block == right.block
        && left.what.is_type() == right.what.is_type()
        && left.declared == right.declared
}

/// The first part, not before `start`, that is like the one at a place.
fn first_like(parts: &[PortPart], start: usize, at: usize) -> usize
    requires within { at < length parts.now }
    requires start { start ≤ at }
    requires begins { BeginsAt parts.now start at }
    ensures { IsFirstLike parts.now at result }
{
    for k in start..at {
        if is_like(&parts[k], &parts[at]) {
            return k;
        }
    }
    at
}

/// Whether the block leaves a number open that other parts of it may share.
fn is_negative(part: &PortPart) -> bool
    ensures { IsTrue result ↔ (part.now.declared <ℤ pos 0) }
{
    part.declared < 0
}

/// The tie of the part at a place to the first of its block with its negative number.
fn shared_tie(layout: &PartLayout, at: usize) -> Option<Tie>
    requires layout { (n : Parts) × IsLayout n layout.now }
    requires within { at < length layout.now.parts.items }
    ensures some { IfSome result (λ t. IsSharedTie layout.now.parts.items at t) }
    ensures none { IfNone result (HasNoSharedTie layout.now.parts.items at) }
{
    let part = layout.parts[at];
    if is_negative(&part) {
        let start = layout.starts[part.block as usize - 1];
        let right = first_like(layout.parts.as_slice(), start, at);
        Some(Tie { left: at, right })
    } else {
        None
    }
}

/// The ties by negative numbers.
pub fn tie_shared(layout: &PartLayout, ties: &mut Vec<Tie>) -> Result<(), NoMemory>
    requires { (n : Parts) × IsLayout n layout.now }
    ensures { OnOk result (SharedTied layout.now.parts.items (length layout.now.parts.items) ties.old.items ties.new.items) }
{
    for at in 0..layout.parts.len() {
        if let Some(tie) = shared_tie(layout, at) {
            ties.push(tie)?;
        }
    }
    Ok(())
}
