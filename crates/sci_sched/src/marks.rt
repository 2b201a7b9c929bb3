// What is marked of one source after the other, by number of block, while its row is built.
ghost use Rattle.std.specs.Prelude.{◌≡◌, ◌<◌, ◌+◌, ℕ, [], All, Contains, length, vec_len, IfOk, OnOk};
ghost use Rattle.sci_loop.specs.Lists.{plain, list_at, Adds};
ghost use Rattle.sci_net.specs.Sources.{sources_of, source_of};
ghost use Rattle.sci_inherit.specs.Origins.{AreOrigins};
ghost use Rattle.sci_dep.specs.Tables.{ArePossible};
ghost use Rattle.sci_sched.specs.Marks.{IsFitting, HaveFed, IsPutTo, PutOnward, LeavesOthers, AreSized, AreClear, MarkSource};

use sci_base::NoMemory;
use sci_base::bits::set_bit;
use sci_inherit::{Fed, Reach};
use sci_loop::walk::{Walk, empty_lists, push_at};
use sci_net::Net;
use std::alloc::Global;

/// What a source does. The walk is over all numbers, and so are the lists and the masks, from 0, which is no block.
#[derive(Drop)]
pub struct Marks {
    /// The blocks that it activates whatever the values are.
    pub always: Walk,
    /// By block, the synchronous blocks that it may activate and that have a branch which reaches the block.
    pub conditions: Vec<Vec<u32>>,
    /// By block, the activation inputs that it feeds: bit `p - 1` for input `p`.
    pub masks: Vec<u64>,
}

// Sets the bits of these activation inputs in masks that have none.
fn set_fed(masks: &mut [u64], feeding: &[Fed])
    requires fit { All (IsFitting (length masks.old)) feeding.now }
    requires clear { HaveFed [] masks.old }
    ensures { HaveFed feeding.now masks.new }
{
    for fed in feeding {
        masks[fed.block as usize] = set_bit(masks[fed.block as usize], fed.input - 1);
    }
}

// Clears the masks, which have the bits of these activation inputs alone.
fn clear_fed(masks: &mut [u64], feeding: &[Fed])
    requires fit { All (IsFitting (length masks.old)) feeding.now }
    requires fed { HaveFed feeding.now masks.old }
    ensures { HaveFed [] masks.new }
{
    for fed in feeding {
        masks[fed.block as usize] = 0;
    }
}

// Puts a synchronous block at the end of the lists of the blocks that its branches reach.
fn put(conditions: &mut Vec<Vec<u32>>, condition: u32, reached: &[u32]) -> Result<(), NoMemory>
    requires { All (λ b. b < vec_len conditions.old) reached.now }
    ensures adds { OnOk result (Adds (IsPutTo reached.now condition) (plain conditions.old.items) (plain conditions.new.items)) }
    ensures len { OnOk result (vec_len conditions.new ≡ vec_len conditions.old) }
{
    for block in reached {
        push_at(conditions, *block as usize, condition)?;
    }
    Ok(())
}

// Puts each of these blocks at the end of the lists of the blocks that its branches reach, if any.
fn put_all(
    conditions: &mut Vec<Vec<u32>>,
    onward: &[Vec<u32>],
    blocks: &[u32],
) -> Result<(), NoMemory>
    requires blocks { All (λ c. c < length onward.now) blocks.now }
    requires reached { (c : ℕ) → All (λ b. b < vec_len conditions.old) (list_at (plain onward.now) c) }
    ensures adds { OnOk result (Adds (PutOnward (plain onward.now) blocks.now) (plain conditions.old.items) (plain conditions.new.items)) }
    ensures len { OnOk result (vec_len conditions.new ≡ vec_len conditions.old) }
{
    for condition in blocks {
        put(conditions, *condition, &onward[*condition as usize])?;
    }
    Ok(())
}

// Empties the lists of these blocks.
fn empty(conditions: &mut [Vec<u32>], blocks: &[u32])
    requires { All (λ b. b < length conditions.old) blocks.now }
    ensures { LeavesOthers blocks.now (plain conditions.old) (plain conditions.new) }
{
    for block in blocks {
        conditions[*block as usize].clear();
    }
}

impl Marks {
    /// For so many numbers, with nothing marked.
    pub fn new(alloc: Global, count: usize) -> Result<Marks, NoMemory>
        ensures sized { IfOk result (λ m. AreSized count m) }
        ensures clear { IfOk result (λ m. AreClear m) }
    {
        let always = Walk::new(alloc, count)?;
        let conditions = empty_lists(alloc, count)?;
        let masks = vec![in alloc; 0; count]?;
        Ok(Marks {
            always,
            conditions,
            masks,
        })
    }

    /// Marks what the source at this place does, whose possible blocks these are. The lists are empty, and no mask has a bit.
    pub fn mark(
        &mut self,
        net: &Net,
        reach: &Reach,
        at: u32,
        blocks: &[u32],
    ) -> Result<(), NoMemory>
        requires reach { AreOrigins net.now reach.now }
        requires at { at < length (sources_of net.now) }
        requires blocks { ArePossible net.now (source_of net.now at) blocks.now }
        requires sized { AreSized (length net.now.specs + 1) self.old }
        requires clear { AreClear self.old }
        ensures sized { OnOk result (AreSized (length net.now.specs + 1) self.new) }
        ensures marks { OnOk result (MarkSource net.now (source_of net.now at) self.new) }
    {
        net.well_formed();
        self.always.take(reach.always(at))?;
        put_all(&mut self.conditions, reach.onward(), blocks)?;
        set_fed(&mut self.masks, reach.feeding(at));
        Ok(())
    }

    /// Empties the lists and takes all bits out of the masks, which are those of the source at this place, whose possible blocks these are.
    pub fn clear(&mut self, net: &Net, reach: &Reach, at: u32, blocks: &[u32])
        requires reach { AreOrigins net.now reach.now }
        requires at { at < length (sources_of net.now) }
        requires blocks { ArePossible net.now (source_of net.now at) blocks.now }
        requires sized { AreSized (length net.now.specs + 1) self.old }
        requires marks { MarkSource net.now (source_of net.now at) self.old }
        ensures sized { AreSized (length net.now.specs + 1) self.new }
        ensures clear { AreClear self.new }
    {
        net.well_formed();
        empty(&mut self.conditions, blocks);
        clear_fed(&mut self.masks, reach.feeding(at));
    }
}
