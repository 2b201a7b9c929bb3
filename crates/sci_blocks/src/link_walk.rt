// The rules on each link, in tree order.
ghost use Rattle.std.specs.Prelude.{◌≡◌, ◌++◌, [], List, IfOk, IfErr, OnOk, Ok};
ghost use Rattle.sci_diagram.specs.declared.diagram.End.{End as LinkEnd};
ghost use Rattle.sci_diagram.specs.Objects.{object_view, diagram_view};
ghost use Rattle.sci_blocks.specs.Wiring.{fed_by, links_in, object_links, links_of};
ghost use Rattle.sci_blocks.specs.Ending.{HoldsEnds};
ghost use Rattle.sci_blocks.specs.Sizes.{AreListsShort, IsInsideShort};
ghost use Rattle.sci_base.specs.Stops.{Stops};

use crate::fed::FedInputs;
use crate::link::link_judged;
use sci_base::Stop;
use sci_diagram::{Diagram, Obj, child};
use std::alloc::Global;

/// The links of the diagram at a place.
#[cycle(wires)]
fn links_in(alloc: Global, d: &Diagram, at: &[u32]) -> Result<(), Stop>
    requires short { AreListsShort (diagram_view d.now) }
    ensures ok { OnOk result (links_in at.now (diagram_view d.now) [] 1 (diagram_view d.now) ≡ Ok tt) }
    ensures stop { IfErr result (λ e. Stops (links_in at.now (diagram_view d.now) [] 1 (diagram_view d.now)) e) }
{
    let mut fed = FedInputs::new(alloc);
    for (i, obj) in d.objs.iter().enumerate() {
        let here = child(alloc, at, i as u32 + 1)?;
        object_links(alloc, here.as_slice(), d, &mut fed, obj)?;
    }
    Ok(())
}

/// The links of an object of a diagram.
#[cycle(wires)]
#[tactic(auto, unfolding(crate::specs::Wiring::object_links))]
fn object_links(
    alloc: Global,
    here: &[u32],
    d: &Diagram,
    fed: &mut FedInputs,
    obj: &Obj,
) -> Result<(), Stop>
    requires short { IsInsideShort (object_view obj.now) }
    ensures ok { (ends : List LinkEnd) → HoldsEnds fed.old ends → OnOk result (object_links here.now (diagram_view d.now) ends (object_view obj.now) ≡ Ok tt) }
    ensures more { (ends : List LinkEnd) → HoldsEnds fed.old ends → OnOk result (HoldsEnds fed.new (ends ++ fed_by (object_view obj.now))) }
    ensures stop { (ends : List LinkEnd) → HoldsEnds fed.old ends
        → IfErr result (λ e. Stops (object_links here.now (diagram_view d.now) ends (object_view obj.now)) e) }
{
    match obj {
        Obj::Block(b) => match &b.inner {
            Some(inner) => links_in(alloc, inner, here),
            None => Ok(()),
        },
        Obj::Link(l) => link_judged(alloc, here, d, fed, l),
        Obj::Text => Ok(()),
        Obj::Deleted => Ok(()),
    }
}

/// Whether every link of a diagram keeps the rules. Refused is the first link in tree order that breaks one: its type is
/// neither 1 nor -1, or it doesn't come from an output or doesn't end at an input of its type, of a block or superblock of the
/// same diagram (rule 12); an earlier link of the same diagram ends at the same regular input (rule 13).
#[tactic(auto, unfolding(crate::specs::Wiring::links_of))]
pub fn links(alloc: Global, d: &Diagram) -> Result<(), Stop>
    requires short { AreListsShort (diagram_view d.now) }
    ensures ok { OnOk result (links_of (diagram_view d.now) ≡ Ok tt) }
    ensures stop { IfErr result (λ e. Stops (links_of (diagram_view d.now)) e) }
{
    links_in(alloc, d, &[])
}
