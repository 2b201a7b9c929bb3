ghost use Rattle.std.specs.Prelude.{◌≡◌, ◌≤◌, Ok, IfOk, length};
ghost use Rattle.sci_diagram.specs.Objects.{diagram_view};
ghost use Rattle.sci_net.specs.Parts.{IsBlock};
ghost use Rattle.sci_flat.specs.Numbered.{IsNumbered};
ghost use Rattle.sci_flat.specs.Flat.{blocks};
ghost use Rattle.sci_flat.specs.Tagged.{all_steps};
ghost use Rattle.sci_flat.specs.Placed.{placed_all};
ghost use Rattle.sci_flat.specs.Ready.{IsReady};
ghost use Rattle.sci_flat.specs.Answer.{IsFlattened};

use crate::blocks::Blocks;
use crate::ends::{feeding_of, sharing_of};
use crate::reach::successors_of;
use crate::steps::{Numbered, join_tags, number};
use crate::wires::{feeds, wires};
use sci_base::Stop;
use sci_blocks::{PortClass, links, parts};
use sci_diagram::Diagram;
use sci_goto::serve;
use sci_net::Flat;
use std::alloc::Global;

/// The flat net of these blocks.
fn net_of(alloc: Global, d: &Diagram, numbered: &Numbered, found: Blocks) -> Result<Flat, Stop>
    requires ready { IsReady (diagram_view d.now) }
    requires blocks { blocks (diagram_view d.now) ≡ Ok (placed_all found.specs.items found.places.items) }
    requires long { length found.places.items ≡ length found.specs.items }
    requires numbered { IsNumbered (diagram_view d.now) (placed_all found.specs.items found.places.items) (all_steps (diagram_view d.now)) numbered.now }
    ensures { IsFlattened (diagram_view d.now) result }
{
    let Blocks { specs, places } = found;
    let ports = numbered.ports;
    let steps = numbered.steps.as_slice();
    let seats = numbered.blocks.as_slice();
    let successors = successors_of(alloc, steps, ports as usize)?;
    let regular = feeding_of(
        alloc,
        ports,
        steps,
        &successors,
        seats,
        PortClass::Output,
        PortClass::Input,
    )?;
    let wires = wires(alloc, &regular, seats, &specs, &places)?;
    let activation = sharing_of(alloc, ports, steps, &successors, seats)?;
    let feeds = feeds(alloc, &activation, seats)?;
    Ok(Flat::new(specs, wires, feeds, places))
}

/// The flat net of a diagram: its blocks that are neither superblocks nor pass-through objects, numbered from 1 in tree order, and which
/// output feeds each regular input, which activation outputs feed each activation input. Refused is the first rule that the diagram breaks,
/// in this order: more tag objects than there may be (rule 34), a tag object in tree order (rules 31 and 32), a tag that is taken and not
/// given (rule 33); an object in tree order (rules 14, 7, 9, 10, 11 and 8); a link in tree order (rules 12 and 13); a block by number, of
/// which no output feeds a regular input (rule 15), or whose column an earlier sensor reads (rule 16).
pub fn flatten(alloc: Global, d: &Diagram) -> Result<Flat, Stop>
    requires { IsReady (diagram_view d.now) }
    ensures { IsFlattened (diagram_view d.now) result }
{
    let servings = serve(alloc, d)?;
    let parts = parts(alloc, d)?;
    links(alloc, d)?;
    let mut numbered = number(alloc, d)?;
    join_tags(&mut numbered.steps, &numbered.tags, &servings)?;
    let found = Blocks::of(alloc, parts)?;
    net_of(alloc, d, &numbered, found)
}
