// The whole diagram.
ghost use Rattle.std.specs.Prelude.{◌≡◌, ◌≤◌, ◌++◌, length, map, IfOk};
ghost use Rattle.sci_diagram.specs.Objects.{object_view, diagram_view};
ghost use Rattle.sci_bulk.specs.Bulk.{clock, data_object, clock_link, links_into, links_from, bulk};

use crate::data_block::{DataBlock, data_blocks};
use crate::objects::{activates, clock, data_object, feeds};
use sci_base::NoMemory;
use sci_diagram::{Diagram, Obj};
use std::alloc::Global;

/// Every how many ticks each clock fires.
const CLOCKS: [u32; 8] = [1, 2, 3, 4, 5, 6, 7, 8];

fn push_clocks(alloc: Global, clocks: &[u32], objs: &mut Vec<Obj>) -> Result<(), NoMemory>
    ensures { IfOk result (λ _. map object_view objs.new.items ≡ map object_view objs.old.items ++ map clock clocks.now) }
{
    for ticks in clocks {
        objs.push(clock(alloc, *ticks)?)?;
    }
    Ok(())
}

fn push_data(alloc: Global, blocks: &[DataBlock], objs: &mut Vec<Obj>) -> Result<(), NoMemory>
    ensures { IfOk result (λ _. map object_view objs.new.items ≡ map object_view objs.old.items ++ map data_object blocks.now) }
{
    for block in blocks {
        objs.push(data_object(alloc, *block)?)?;
    }
    Ok(())
}

fn push_clock_links(clocks: &[u32], objs: &mut Vec<Obj>) -> Result<(), NoMemory>
    ensures { IfOk result (λ _. map object_view objs.new.items ≡ map object_view objs.old.items ++ map clock_link clocks.now) }
{
    for clock in clocks {
        objs.push(activates(*clock, *clock))?;
    }
    Ok(())
}

// The links into one object.
fn push_links_into(object: u32, block: DataBlock, objs: &mut Vec<Obj>) -> Result<(), NoMemory>
    ensures { IfOk result (λ _. map object_view objs.new.items ≡ map object_view objs.old.items ++ links_into object block) }
{
    match block {
        DataBlock::One => {}
        DataBlock::Delay(clock, source) => {
            objs.push(activates(clock, object))?;
            objs.push(feeds(source, object, 1))?;
        }
        DataBlock::Sum(first, second) => {
            objs.push(feeds(first, object, 1))?;
            objs.push(feeds(second, object, 2))?;
        }
        DataBlock::Triple(source) => objs.push(feeds(source, object, 1))?,
    }
    Ok(())
}

fn push_links(blocks: &[DataBlock], objs: &mut Vec<Obj>) -> Result<(), NoMemory>
    requires { length blocks.now ≤ 2000 }
    ensures { IfOk result (λ _. map object_view objs.new.items ≡ map object_view objs.old.items ++ links_from 9 blocks.now) }
{
    for (at, block) in blocks.iter().enumerate() {
        push_links_into(9 + at as u32, *block, objs)?;
    }
    Ok(())
}

/// The bulk diagram of a seed and a size, from 1 to 2,000. Objects 1 to 8 are clocks: object j fires first at date j, and then every j ticks.
/// Data block i, from 1 to the size, is object 8 + i: the constant 1, and then delays, sums and gains of earlier data blocks, drawn from the
/// seed. Links stand behind the blocks.
pub fn bulk_diagram(alloc: Global, seed: u32, size: u32) -> Result<Diagram, NoMemory>
    requires least { 1 ≤ size }
    requires most { size ≤ 2000 }
    ensures { IfOk result (λ d. diagram_view d ≡ bulk seed size) }
{
    let blocks = data_blocks(alloc, seed, size)?;
    let mut objs = Vec::new(alloc);
    push_clocks(alloc, &CLOCKS, &mut objs)?;
    push_data(alloc, blocks.as_slice(), &mut objs)?;
    push_clock_links(&CLOCKS, &mut objs)?;
    push_links(blocks.as_slice(), &mut objs)?;
    Ok(Diagram { objs })
}
