// The links of a net by block, from where they begin: the blocks that inherit from each block, and those that its activation outputs feed.
ghost use Rattle.std.specs.Prelude.{◌≡◌, ◌≤◌, ◌<◌, ◌+◌, ◌-◌, length, All, Contains, IfOk, OnOk, IsTrue, vec_len};
ghost use Rattle.sci_loop.specs.Lists.{plain, Adds};
ghost use Rattle.sci_net.specs.Parts.{spec_of};
ghost use Rattle.sci_inherit.specs.Followers.{InputGives, HeirGiven, AreHeirs, IsTarget, SenderGets, TargetGiven, AreTargets, Upto};

use sci_base::NoMemory;
use sci_loop::walk::{empty_lists, push_at};
use sci_net::{Feed, Net};
use std::alloc::Global;

/// The links of a net by number, from 0 on, which is no block.
#[derive(Drop)]
pub struct Followers {
    /// By block, the blocks that inherit and have it as a source block of an input.
    pub heirs: Vec<Vec<u32>>,
    /// By block, the blocks that its activation outputs feed.
    pub targets: Vec<Vec<u32>>,
}

// Gives a block to the source blocks of its inputs.
fn push_to_sources(heirs: &mut Vec<Vec<u32>>, net: &Net, block: u32) -> Result<(), NoMemory>
    requires least { 1 ≤ block }
    requires most { block ≤ length net.now.specs }
    requires long { vec_len heirs.old ≡ length net.now.specs + 1 }
    ensures heirs { OnOk result (Adds (Upto (InputGives net.now block) (length (spec_of net.now block).ins)) (plain heirs.old.items) (plain heirs.new.items)) }
    ensures len { OnOk result (vec_len heirs.new ≡ vec_len heirs.old) }
{
    net.well_formed();
    for at in 0..net.spec(block).ins.len() {
        let wire = net.wire(block, at as u32 + 1);
        push_at(heirs, wire.block as usize, block)?;
    }
    Ok(())
}

// The same, if the block inherits.
fn push_heir(heirs: &mut Vec<Vec<u32>>, net: &Net, block: u32) -> Result<(), NoMemory>
    requires least { 1 ≤ block }
    requires most { block ≤ length net.now.specs }
    requires long { vec_len heirs.old ≡ length net.now.specs + 1 }
    ensures heirs { OnOk result (Adds (HeirGiven net.now (block - 1)) (plain heirs.old.items) (plain heirs.new.items)) }
    ensures len { OnOk result (vec_len heirs.new ≡ vec_len heirs.old) }
{
    if net.spec(block).evtin == 0 {
        push_to_sources(heirs, net, block)
    } else {
        Ok(())
    }
}

// By number, the blocks that inherit and have the block as a source block of an input.
fn heirs(alloc: Global, net: &Net) -> Result<Vec<Vec<u32>>, NoMemory>
    ensures heirs { IfOk result (λ v. AreHeirs net.now (plain v.items)) }
    ensures len { IfOk result (λ v. vec_len v ≡ length net.now.specs + 1) }
{
    let mut heirs = empty_lists(alloc, net.len() as usize + 1)?;
    for at in 0..net.len() {
        push_heir(&mut heirs, net, at + 1)?;
    }
    Ok(heirs)
}

// Whether a block stands at the end of a list.
fn ends_with(list: &[u32], block: u32) -> bool
    ensures { IsTrue result → Contains list.now block }
{
    list.last() == Some(&block)
}

// Gives a block to one that feeds it, unless it was given last.
fn push_target(targets: &mut Vec<Vec<u32>>, sender: u32, block: u32) -> Result<(), NoMemory>
    requires { sender < vec_len targets.old }
    ensures targets { OnOk result (Adds (IsTarget sender block) (plain targets.old.items) (plain targets.new.items)) }
    ensures len { OnOk result (vec_len targets.new ≡ vec_len targets.old) }
{
    if ends_with(&targets[sender as usize], block) {
        Ok(())
    } else {
        push_at(targets, sender as usize, block)
    }
}

// Gives a block to those whose activation outputs these are.
fn push_to_senders(targets: &mut Vec<Vec<u32>>, feeds: &[Feed], block: u32) -> Result<(), NoMemory>
    requires { All (λ q. q.block < vec_len targets.old) feeds.now }
    ensures targets { OnOk result (Adds (SenderGets feeds.now block) (plain targets.old.items) (plain targets.new.items)) }
    ensures len { OnOk result (vec_len targets.new ≡ vec_len targets.old) }
{
    for feed in feeds {
        push_target(targets, feed.block, block)?;
    }
    Ok(())
}

// Gives a block to those that feed one of its activation inputs.
fn push_inputs(targets: &mut Vec<Vec<u32>>, net: &Net, block: u32) -> Result<(), NoMemory>
    requires least { 1 ≤ block }
    requires most { block ≤ length net.now.specs }
    requires long { vec_len targets.old ≡ length net.now.specs + 1 }
    ensures targets { OnOk result (Adds (TargetGiven net.now (block - 1)) (plain targets.old.items) (plain targets.new.items)) }
    ensures len { OnOk result (vec_len targets.new ≡ vec_len targets.old) }
{
    net.well_formed();
    for at in 0..net.spec(block).evtin {
        push_to_senders(targets, net.feeds(block, at + 1), block)?;
    }
    Ok(())
}

// By number, the blocks that the activation outputs of the block feed.
fn targets(alloc: Global, net: &Net) -> Result<Vec<Vec<u32>>, NoMemory>
    ensures targets { IfOk result (λ v. AreTargets net.now (plain v.items)) }
    ensures len { IfOk result (λ v. vec_len v ≡ length net.now.specs + 1) }
{
    net.well_formed();
    let mut targets = empty_lists(alloc, net.len() as usize + 1)?;
    for at in 0..net.len() {
        push_inputs(&mut targets, net, at + 1)?;
    }
    Ok(targets)
}

impl Followers {
    ghost use Rattle.sci_inherit.specs.Followers.{AreFollowers};

    /// Those of a net.
    pub fn of(alloc: Global, net: &Net) -> Result<Followers, NoMemory>
        ensures { IfOk result (λ l. AreFollowers net.now l) }
    {
        let heirs = heirs(alloc, net)?;
        let targets = targets(alloc, net)?;
        Ok(Followers { heirs, targets })
    }
}
