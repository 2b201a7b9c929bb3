// The blocks that some source may activate.
ghost use Rattle.std.specs.Prelude.{◌≡◌, ℕ, ◌≤◌, ◌+◌, ◌⊎◌, ◌↔◌, length, Contains, IfOk, OnOk};
ghost use Rattle.sci_loop.specs.Lists.{plain};
ghost use Rattle.sci_inherit.specs.Followers.{AreFollowers};
ghost use Rattle.sci_inherit.specs.Live.{FedFrom, SetOffUpto, AreLive, IsWanted, AreWanted};
ghost use Rattle.sci_inherit.specs.Gather.{AreEach, AreOnward};

use crate::always::constants;
use crate::followers::Followers;
use sci_base::NoMemory;
use sci_loop::walk::Walk;
use sci_net::Net;
use std::alloc::Global;

// Finds besides the blocks that the activation outputs of a block feed, if they are sources.
fn add_targets(net: &Net, links: &Followers, walk: &mut Walk, block: u32) -> Result<(), NoMemory>
    requires least { 1 ≤ block }
    requires most { block ≤ length net.now.specs }
    requires links { AreFollowers net.now links.now }
    requires walk { walk.old.count ≡ length net.now.specs + 1 }
    ensures found { OnOk result ((b : ℕ) → Contains walk.new.found b ↔ (Contains walk.old.found b ⊎ FedFrom net.now block b)) }
    ensures count { walk.new.count ≡ walk.old.count }
{
    if net.spec(block).kind.is_sync() {
        Ok(())
    } else {
        walk.add_all(&links.targets[block as usize])
    }
}

// Finds the blocks that some source sets off.
fn find_set_off(
    alloc: Global,
    net: &Net,
    links: &Followers,
    walk: &mut Walk,
) -> Result<(), NoMemory>
    requires links { AreFollowers net.now links.now }
    requires walk { walk.old.count ≡ length net.now.specs + 1 }
    ensures found { OnOk result ((b : ℕ) → Contains walk.new.found b ↔ SetOffUpto net.now (length net.now.specs) b) }
    ensures count { walk.new.count ≡ walk.old.count }
{
    net.well_formed();
    let constants = constants(alloc, net)?;
    walk.take(&constants)?;
    for at in 0..net.len() {
        add_targets(net, links, walk, at + 1)?;
    }
    Ok(())
}

/// Finds the blocks that some source may activate: from those that it sets off, first what inherits, and then what branches reach.
pub fn find_live(
    alloc: Global,
    net: &Net,
    links: &Followers,
    onward: &[Vec<u32>],
    walk: &mut Walk,
) -> Result<(), NoMemory>
    requires links { AreFollowers net.now links.now }
    requires onward { AreEach (AreOnward net.now) (plain onward.now) }
    requires onward_long { length onward.now ≡ length net.now.specs + 1 }
    requires walk { walk.old.count ≡ length net.now.specs + 1 }
    ensures live { OnOk result (AreLive net.now walk.new.found) }
    ensures count { walk.new.count ≡ walk.old.count }
{
    net.well_formed();
    find_set_off(alloc, net, links, walk)?;
    let set_off = Vec::from_slice(alloc, walk.found())?;
    walk.walk(&links.heirs, &set_off)?;
    let always = Vec::from_slice(alloc, walk.found())?;
    walk.walk(onward, &always)
}

// Whether the rows of a block's activation outputs are wanted, where the walk has found what some source may activate.
fn is_wanted(net: &Net, walk: &Walk, block: u32) -> bool
    requires least { 1 ≤ block }
    requires most { block ≤ length net.now.specs }
    requires walk { walk.now.count ≡ length net.now.specs + 1 }
    requires live { AreLive net.now walk.now.found }
    ensures { IsWanted net.now block result }
{
    !net.spec(block).kind.is_sync() || walk.has(block)
}

/// By number, the blocks that aren't synchronous, and those that some source may activate, which the walk has found.
pub fn wanted(alloc: Global, net: &Net, walk: &Walk) -> Result<Vec<bool>, NoMemory>
    requires walk { walk.now.count ≡ length net.now.specs + 1 }
    requires live { AreLive net.now walk.now.found }
    ensures { IfOk result (λ v. AreWanted net.now v.items) }
{
    net.well_formed();
    let mut wanted = Vec::new(alloc);
    wanted.push(false)?;
    for at in 0..net.len() {
        wanted.push(is_wanted(net, walk, at + 1))?;
    }
    Ok(wanted)
}
