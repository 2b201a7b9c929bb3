// The instances of a net's blocks.
ghost use Rattle.std.specs.Prelude.{◌≡◌, ℕ, ◌≤◌, ◌+◌, ◌<◌, length, true, IfOk};
ghost use Rattle.sci_bank.specs.Bank.{after_add};
ghost use Rattle.sci_bank.specs.Library.{bank_of, with_bank, IsFull};
ghost use Rattle.sci_forms.specs.Typed.{typed};
ghost use Rattle.sci_net.specs.Parts.{IsBlock, spec_of, rows_of};
ghost use Rattle.sci_net.specs.Sources.{block_sources};
ghost use Rattle.sci_store.specs.Seating.{AreReset, IsSeating, IsSeatingBy, begun};

use sci_bank::Bank;
use sci_bank::library::Library;
use sci_base::{Ints, NoMemory};
use sci_forms::KINDS;
use sci_kinds::{Kind, Spec};
use sci_net::Net;
use std::alloc::Global;

/// Where a block is kept: its kind's bank and its slot there; and the place of its first activation output among the net's sources.
#[derive(Clone, Copy, Drop)]
pub struct Seat {
    pub kind: Kind,
    pub slot: usize,
    /// Of a block that isn't synchronous: its activation output `p` is source `first_source + p - 1`.
    pub first_source: u32,
}

/// Drops all instances of all kinds.
fn reset_all<B: Bank>(lib: &mut Library<B>)
    requires full { IsFull lib.old }
    ensures { AreReset lib.new }
{
    lib.well_formed();
    for number in 1..KINDS + 1 {
        if let Some(kind) = sci_names::kind_at(number) {
            lib.reset(kind);
        }
    }
}

/// How many sources a block is.
fn source_count(net: &Net, block: u32) -> u32
    requires least { 1 ≤ block }
    requires most { block ≤ length net.now.specs }
    ensures { result ≡ length (block_sources block (spec_of net.now block)) }
{
    let spec = net.spec(block);
    if spec.kind.is_sync() { 0 } else { spec.evtout }
}

/// Resets all banks, and adds an instance for each block of a net, in its first state.
pub fn seat_all<B: Bank>(
    alloc: Global,
    net: &Net,
    lib: &mut Library<B>,
) -> Result<Vec<Seat>, NoMemory>
    requires full { IsFull lib.old }
    ensures seated { IfOk result (λ v. IsSeating net.now v.items lib.new) }
    ensures full { IsFull lib.new }
{
    net.well_formed();
    reset_all(lib);
    let mut seats = Vec::with_capacity(alloc, net.len() as usize)?;
    let mut first_source = 1;
    for block in 0..net.len() {
        let spec = net.spec(block + 1);
        let slot = lib.add(spec.kind, spec)?;
        seats.push(Seat {
            kind: spec.kind,
            slot,
            first_source,
        })?;
        first_source += source_count(net, block + 1);
    }
    Ok(seats)
}

/// A spec with these values in place of the state that it begins with.
fn with_state(alloc: Global, spec: &Spec, state: &[i64]) -> Result<Spec, NoMemory>
    ensures { IfOk result (λ s. s ≡ record spec.now { state = state.now }) }
{
    let mut begun = spec.copy(alloc)?;
    begun.state = Ints::of(state.to_vec(alloc)?);
    Ok(begun)
}

/// Adds an instance of a block with these values in place of the state that it begins with. The answer is its slot.
fn add_in_state<B: Bank>(
    alloc: Global,
    spec: &Spec,
    state: &[i64],
    lib: &mut Library<B>,
) -> Result<usize, NoMemory>
    requires full { IsFull lib.old }
    requires is_typed { typed (record spec.now { state = state.now }) ≡ true }
    ensures added { let banks = lib.old in let kind = spec.now.kind in IfOk result (λ slot. (slot ≡ length (bank_of banks kind).rows)
        × (lib.new ≡ with_bank banks kind (after_add (bank_of banks kind) (record spec.now { state = state.now })))) }
    ensures full { IsFull lib.new }
{
    lib.well_formed();
    let begun = with_state(alloc, spec, state)?;
    lib.add(spec.kind, &begun)
}

/// Resets all banks, and adds an instance for each block of a net, in its state among these.
pub fn seat_in_states<B: Bank>(
    alloc: Global,
    net: &Net,
    states: &[Vec<i64>],
    lib: &mut Library<B>,
) -> Result<Vec<Seat>, NoMemory>
    requires full { IsFull lib.old }
    requires one_each { length states.now ≡ length net.now.specs }
    requires is_typed { (b : ℕ) → IsBlock net.now b → typed (begun net.now (rows_of states.now) b) ≡ true }
    ensures seated { IfOk result (λ v. IsSeatingBy net.now (begun net.now (rows_of states.now)) v.items lib.new) }
    ensures full { IsFull lib.new }
{
    net.well_formed();
    reset_all(lib);
    let mut seats = Vec::with_capacity(alloc, net.len() as usize)?;
    let mut first_source = 1;
    for block in 0..net.len() {
        let spec = net.spec(block + 1);
        let slot = add_in_state(alloc, spec, &states[block as usize], lib)?;
        seats.push(Seat {
            kind: spec.kind,
            slot,
            first_source,
        })?;
        first_source += source_count(net, block + 1);
    }
    Ok(seats)
}
