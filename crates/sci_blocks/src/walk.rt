// The rules on each object, in tree order.
ghost use Rattle.std.specs.Prelude.{◌≡◌, map, IfOk, IfErr, OnOk, Ok};
ghost use Rattle.sci_base.specs.Plain.{fields_of};
ghost use Rattle.sci_diagram.specs.Objects.{object_view, diagram_view};
ghost use Rattle.sci_blocks.specs.Blocks.{parts_in, superblock_parts, object_parts, parts_of, part_view};
ghost use Rattle.sci_blocks.specs.Adding.{onto};
ghost use Rattle.sci_blocks.specs.Sizes.{AreListsShort, IsInsideShort};
ghost use Rattle.sci_base.specs.Stops.{Stops};

use crate::block::add_block;
use crate::placed_block::PlacedBlock;
use crate::superblock::{outermost_matched, superblock_matched};
use sci_base::{BlockFields, Stop};
use sci_diagram::{Diagram, Obj, child};
use std::alloc::Global;

/// Adds the blocks of the diagram at a place.
#[cycle(parts)]
fn add_parts(
    alloc: Global,
    d: &Diagram,
    at: &[u32],
    parts: &mut Vec<PlacedBlock>,
) -> Result<(), Stop>
    requires short { AreListsShort (diagram_view d.now) }
    ensures ok { OnOk result (onto (map part_view parts.old.items) (parts_in at.now 1 (diagram_view d.now)) ≡ Ok (map part_view parts.new.items)) }
    ensures stop { IfErr result (λ e. Stops (parts_in at.now 1 (diagram_view d.now)) e) }
{
    for (i, obj) in d.objs.iter().enumerate() {
        let here = child(alloc, at, i as u32 + 1)?;
        add_object(alloc, obj, here.as_slice(), parts)?;
    }
    Ok(())
}

/// Adds the blocks of an object.
#[cycle(parts)]
#[tactic(auto, unfolding(crate::specs::Blocks::object_parts))]
fn add_object(
    alloc: Global,
    obj: &Obj,
    here: &[u32],
    parts: &mut Vec<PlacedBlock>,
) -> Result<(), Stop>
    requires short { IsInsideShort (object_view obj.now) }
    ensures ok { OnOk result (onto (map part_view parts.old.items) (object_parts here.now (object_view obj.now)) ≡ Ok (map part_view parts.new.items)) }
    ensures stop { IfErr result (λ e. Stops (object_parts here.now (object_view obj.now)) e) }
{
    match obj {
        Obj::Block(b) => match &b.inner {
            Some(inner) => add_superblock(alloc, &b.fields, inner, here, parts),
            None => add_block(alloc, here, b.gui.as_str(), &b.fields, parts),
        },
        Obj::Link(_) => Ok(()),
        Obj::Text => Ok(()),
        Obj::Deleted => Ok(()),
    }
}

/// Adds the blocks inside a superblock.
#[cycle(parts)]
#[tactic(auto, using(sci_base::proofs::Stopping::stops_then, sci_base::proofs::Stopping::stops_after))]
fn add_superblock(
    alloc: Global,
    f: &BlockFields,
    inner: &Diagram,
    here: &[u32],
    parts: &mut Vec<PlacedBlock>,
) -> Result<(), Stop>
    requires short { AreListsShort (diagram_view inner.now) }
    ensures ok { OnOk result (onto (map part_view parts.old.items) (superblock_parts here.now (fields_of f.now) (diagram_view inner.now))
        ≡ Ok (map part_view parts.new.items)) }
    ensures stop { IfErr result (λ e. Stops (superblock_parts here.now (fields_of f.now) (diagram_view inner.now)) e) }
{
    superblock_matched(alloc, here, f, inner)?;
    add_parts(alloc, inner, here, parts)
}

/// The blocks of a diagram that are neither superblocks nor pass-through objects, in tree order, each with its place and its
/// spec. Refused is the first object in tree order that breaks a rule, a superblock before what is inside: a superblock whose
/// ports don't match the port blocks directly inside (rule 14; the outermost diagram counts as a superblock without ports), a
/// pass-through object by its counts of ports or a port block's number (rules 9 and 8), and any other block by rules 7, 9, 10,
/// 11 and 8 in this order.
#[tactic(auto, using(sci_base::proofs::Stopping::stops_then, sci_base::proofs::Stopping::stops_after), unfolding(crate::specs::Blocks::parts_of))]
pub fn parts(alloc: Global, d: &Diagram) -> Result<Vec<PlacedBlock>, Stop>
    requires short { AreListsShort (diagram_view d.now) }
    ensures ok { IfOk result (λ ps. parts_of (diagram_view d.now) ≡ Ok (map part_view ps.items)) }
    ensures stop { IfErr result (λ e. Stops (parts_of (diagram_view d.now)) e) }
{
    outermost_matched(alloc, d)?;
    let mut parts = Vec::new(alloc);
    add_parts(alloc, d, &[], &mut parts)?;
    Ok(parts)
}
