// What one block gives, by its instance in the banks.
ghost use Rattle.std.specs.Prelude.{◌≡◌, ◌≢◌, ℕ, ◌+◌, ◌≤◌, if◌then◌else◌};
ghost use Rattle.sci_base.specs.declared.limits.TheConstants.{ALL_ELEMENTS};
ghost use Rattle.sci_forms.specs.Ports.{Fills};
ghost use Rattle.sci_forms.specs.Form.{is_sync};
ghost use Rattle.sci_kinds.specs.Asks.{IsMask, entering};
ghost use Rattle.sci_kinds.specs.Table.{branch};
ghost use Rattle.sci_net.specs.Parts.{IsBlock, spec_of};
ghost use Rattle.sci_net.specs.Net.{all_elements};
ghost use Rattle.sci_reaction.specs.Equations.{AreInRange};
ghost use Rattle.sci_places.specs.Flat.{values_at, IsWhole};
ghost use Rattle.sci_places.specs.Layout.{block_span};
ghost use Rattle.sci_store.specs.Frame.{AreSeated};
ghost use Rattle.sci_store.specs.Passed.{called, IsBlockComputed};

use crate::frame::Frame;
use sci_bank::library::Library;
use sci_bank::{Bank, Fate};
use sci_places::Span;

/// Where the values of a block lie among those of all.
#[inline(always)]
pub fn place(frame: &Frame, block: u32) -> Span
    requires { IsBlock frame.now.net block }
    ensures place { result ≡ block_span frame.now.net block }
    ensures within { result.start + result.len ≤ all_elements frame.now.net.specs }
    ensures small { all_elements frame.now.net.specs ≤ ALL_ELEMENTS }
{
    frame.well_formed();
    frame.places.outs(block)
}

/// Computes the values of a block on what goes into it, and writes them at the block's place among those of all.
#[inline(always)]
pub fn compute<B: Bank>(
    frame: &Frame,
    lib: &mut Library<B>,
    block: u32,
    mask: u64,
    ins: &[i64],
    values: &mut [i64],
) -> Fate
    requires seated { AreSeated frame.now lib.old }
    requires block { IsBlock frame.now.net block }
    requires mask { IsMask (spec_of frame.now.net block) mask }
    requires filled { Fills (entering (spec_of frame.now.net block)) ins.now }
    requires whole { IsWhole frame.now.net values.old }
    requires values { AreInRange frame.now.net (values_at frame.now.net values.old) }
    ensures computed { let before = lib.old in IsBlockComputed frame.now before block mask ins.now values.old values.new result }
    ensures called { lib.new ≡ called frame.now lib.old block }
    ensures others { (c : ℕ) → IsBlock frame.now.net c → c ≢ block → values_at frame.now.net values.new c ≡ values_at frame.now.net values.old c }
    ensures whole { IsWhole frame.now.net values.new }
    ensures values { AreInRange frame.now.net (values_at frame.now.net values.new) }
    ensures seated { AreSeated frame.now lib.new }
{
    let seat = frame.seat(block);
    let place = place(frame, block);
    let outs = &mut values[place.start..place.start + place.len];
    lib.out(seat.kind, seat.slot, mask, ins, outs)
}

/// The branch that a block takes on what goes into it; 0 for a block that isn't synchronous.
#[inline(always)]
pub fn take_branch<B: Bank>(frame: &Frame, lib: &Library<B>, block: u32, ins: &[i64]) -> u32
    requires seated { AreSeated frame.now lib.now }
    requires block { IsBlock frame.now.net block }
    requires filled { Fills (entering (spec_of frame.now.net block)) ins.now }
    ensures { result ≡ (if is_sync (spec_of frame.now.net block).kind then branch (spec_of frame.now.net block) ins.now else 0) }
{
    frame.well_formed();
    let seat = frame.seat(block);
    if seat.kind.is_sync() {
        lib.branch(seat.kind, seat.slot, ins)
    } else {
        0
    }
}
