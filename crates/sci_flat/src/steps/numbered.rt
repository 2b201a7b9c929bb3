ghost use Rattle.std.specs.Prelude.{◌≡◌, ◌<◌, ◌^◌, List, Ok, IfOk};
ghost use Rattle.sci_diagram.specs.Objects.{diagram_view};
ghost use Rattle.sci_blocks.specs.Blocks.{Placed, parts_of};
ghost use Rattle.sci_blocks.specs.Wiring.{links_of};
ghost use Rattle.sci_flat.specs.Ready.{ports_in};
ghost use Rattle.sci_flat.specs.Ports.{tree_steps};
ghost use Rattle.sci_flat.specs.Numbered.{IsNumbered};

use crate::steps::numberer::PortNumberer;
use crate::steps::port_numbers::PortNumbers;
use sci_base::NoMemory;
use sci_diagram::Diagram;
use std::alloc::Global;

/// A diagram by the numbers of its ports, which are counted from 0.
#[derive(Drop)]
pub struct Numbered {
    /// How many ports there are.
    pub ports: u32,
    /// The steps, each from one port to another.
    pub steps: Vec<(u32, u32)>,
    /// The blocks that are neither superblocks nor pass-through objects, in tree order.
    pub blocks: Vec<PortNumbers>,
    /// The tag objects, in tree order: each by the number of its port. Of one that hasn't exactly one port the entry has no meaning.
    pub tags: Vec<u32>,
}

/// Numbers the ports of a diagram, and gives the steps that are drawn, its blocks and its tag objects by these numbers.
pub fn number(alloc: Global, d: &Diagram) -> Result<Numbered, NoMemory>
    requires { ports_in (diagram_view d.now) < 2 ^ 32 }
    ensures { IfOk result (λ n. (ps : List Placed) → parts_of (diagram_view d.now) ≡ Ok ps
        → links_of (diagram_view d.now) ≡ Ok tt → IsNumbered (diagram_view d.now) ps (tree_steps (diagram_view d.now)) n) }
{
    let mut walk = PortNumberer {
        next: 0,
        steps: Vec::new(alloc),
        blocks: Vec::new(alloc),
        tags: Vec::new(alloc),
    };
    walk.diagram(alloc, d, PortNumbers::empty(0))?;
    let PortNumberer {
        next,
        steps,
        blocks,
        tags,
    } = walk;
    Ok(Numbered {
        ports: next,
        steps,
        blocks,
        tags,
    })
}
