// What each block waits for, whatever the source is.
ghost use Rattle.std.specs.Prelude.{◌≡◌, ℕ, ◌≤◌, ◌<◌, ◌+◌, ◌↔◌, [], length, All, Contains, IfOk, OnOk, vec_len};
ghost use Rattle.sci_loop.specs.Lists.{plain, Adds};
ghost use Rattle.sci_net.specs.Parts.{numbered, spec_of};
ghost use Rattle.sci_reaction.specs.Links.{SuppliesThrough};
ghost use Rattle.sci_reaction.specs.Depends.{Conditions};
ghost use Rattle.sci_inherit.specs.Origins.{AreOrigins};
ghost use Rattle.sci_dep.specs.Tables.{AreWaits};
ghost use Rattle.sci_dep.specs.Building.{Puts, SuppliesAt, IsPutTo, AreConditions, IsWaitsOf};

use sci_base::NoMemory;
use sci_inherit::Reach;
use sci_loop::walk::{empty_lists, push_at};
use sci_net::Net;
use std::alloc::Global;
use std::marker::Model;

/// By block, the blocks that it waits for, whatever the source is: the source blocks of its inputs with feedthrough, and the synchronous
/// blocks with a branch that reaches it.
#[derive(Drop)]
pub struct Waits {
    lists: Vec<Vec<u32>>,
}

impl Model for Waits {
    ghost use Rattle.std.specs.Prelude.{List, ℕ};
    ghost use Rattle.sci_loop.specs.Lists.{plain};

    ghost Value = { List (List ℕ) };

    ghost view = { λ w. plain w.lists.items };
}

impl Waits {
    /// The blocks that a block waits for, by number, without repeats.
    pub fn of(&self, block: u32) -> &[u32]
        requires least { 1 ≤ block }
        requires most { block ≤ length self.now }
        ensures { result.now ≡ numbered [] self.now block }
    {
        self.lists[block as usize - 1].as_slice()
    }
}

// Puts the source block of a block's input, if the input has feedthrough.
fn push_source(blocks: &mut Vec<u32>, net: &Net, block: u32, input: u32) -> Result<(), NoMemory>
    requires least { 1 ≤ block }
    requires most { block ≤ length net.now.specs }
    requires input_least { 1 ≤ input }
    requires input_most { input ≤ length (spec_of net.now block).ins }
    ensures { OnOk result (Puts (SuppliesAt net.now block input) blocks.old.items blocks.new.items) }
{
    if net.spec(block).feed.at(input as usize - 1) {
        let wire = net.wire(block, input);
        blocks.push(wire.block)?;
        Ok(())
    } else {
        Ok(())
    }
}

// Puts the source blocks of a block's inputs with feedthrough.
fn push_sources(blocks: &mut Vec<u32>, net: &Net, block: u32) -> Result<(), NoMemory>
    requires least { 1 ≤ block }
    requires most { block ≤ length net.now.specs }
    ensures { OnOk result (Puts (λ b. SuppliesThrough net.now b block) blocks.old.items blocks.new.items) }
{
    net.well_formed();
    for at in 0..net.spec(block).ins.len() {
        push_source(blocks, net, block, at as u32 + 1)?;
    }
    Ok(())
}

// Puts a synchronous block at the end of the lists of the blocks that its branches reach.
fn put(lists: &mut Vec<Vec<u32>>, condition: u32, reached: &[u32]) -> Result<(), NoMemory>
    requires { All (λ b. b < vec_len lists.old) reached.now }
    ensures adds { OnOk result (Adds (IsPutTo reached.now condition) (plain lists.old.items) (plain lists.new.items)) }
    ensures len { OnOk result (vec_len lists.new ≡ vec_len lists.old) }
{
    for block in reached {
        push_at(lists, *block as usize, condition)?;
    }
    Ok(())
}

// By number, the synchronous blocks with a branch that reaches the block.
fn conditions(alloc: Global, net: &Net, reach: &Reach) -> Result<Vec<Vec<u32>>, NoMemory>
    requires { AreOrigins net.now reach.now }
    ensures conditions { IfOk result (λ v. AreConditions net.now (plain v.items)) }
    ensures len { IfOk result (λ v. vec_len v ≡ length net.now.specs + 1) }
{
    net.well_formed();
    let onward = reach.onward();
    let mut lists = empty_lists(alloc, net.len() as usize + 1)?;
    for at in 0..net.len() {
        let block = at + 1;
        put(&mut lists, block, &onward[block as usize])?;
    }
    Ok(lists)
}

// The blocks that a block waits for, by the synchronous blocks with a branch that reaches it.
fn waits_of(alloc: Global, net: &Net, conditions: &[u32], block: u32) -> Result<Vec<u32>, NoMemory>
    requires least { 1 ≤ block }
    requires most { block ≤ length net.now.specs }
    requires conditions { (c : ℕ) → Contains conditions.now c ↔ Conditions net.now c block }
    ensures { IfOk result (λ v. IsWaitsOf net.now block v.items) }
{
    let mut blocks = Vec::from_slice(alloc, conditions)?;
    push_sources(&mut blocks, net, block)?;
    blocks.sort_unstable();
    blocks.dedup();
    Ok(blocks)
}

/// What each block waits for.
pub fn made(alloc: Global, net: &Net, reach: &Reach) -> Result<Waits, NoMemory>
    requires { AreOrigins net.now reach.now }
    ensures { IfOk result (λ w. AreWaits net.now w) }
{
    net.well_formed();
    let conditions = conditions(alloc, net, reach)?;
    let mut lists = Vec::new(alloc);
    for at in 0..net.len() {
        let block = at + 1;
        lists.push(waits_of(alloc, net, &conditions[block as usize], block)?)?;
    }
    Ok(Waits { lists })
}
