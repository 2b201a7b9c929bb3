// The tag objects of a diagram, with where they stand.
ghost use Rattle.std.specs.Prelude.{◌≡◌, ◌++◌, ◌∷◌, [], map, IfOk, OnOk};
ghost use Rattle.sci_base.specs.Plain.{fields_of};
ghost use Rattle.sci_diagram.specs.Objects.{object_view, diagram_view};
ghost use Rattle.sci_blocks.specs.Rows.{pass_through};
ghost use Rattle.sci_blocks.specs.Sizes.{AreListsShort, IsInsideShort};
ghost use Rattle.sci_goto.specs.Forms.{form_of};
ghost use Rattle.sci_goto.specs.Phase.{standing_as, standing_in, object_standing, standing};
ghost use Rattle.sci_goto.specs.Placed.{standing_of};

use crate::tag::TagForm;
use sci_base::{BlockFields, NoMemory, Place};
use sci_diagram::{Diagram, Obj, child};
use std::alloc::Global;

/// A tag object.
#[derive(Drop)]
pub(crate) struct PlacedTag {
    /// The place of the diagram that it stands in.
    pub(crate) around: Place,
    /// Its position there, from 1.
    pub(crate) position: u32,
    pub(crate) form: TagForm,
}

/// Adds a block that is no superblock, where it is a tag object.
fn add_block(
    alloc: Global,
    gui: &str,
    f: &BlockFields,
    at: &[u32],
    position: u32,
    tags: &mut Vec<PlacedTag>,
) -> Result<(), NoMemory>
    ensures { OnOk result (map standing_of tags.new.items ≡ map standing_of tags.old.items
        ++ standing_as at.now (at.now ++ position ∷ []) (form_of (pass_through gui.now) (fields_of f.now))) }
{
    match TagForm::of(gui, f) {
        None => Ok(()),
        Some(form) => {
            let around = Place::of(alloc, at)?;
            tags.push(PlacedTag {
                around,
                position,
                form,
            })?;
            Ok(())
        }
    }
}

/// Adds the tag objects inside a superblock.
#[cycle(walk)]
fn add_inside(
    alloc: Global,
    inner: &Diagram,
    at: &[u32],
    position: u32,
    tags: &mut Vec<PlacedTag>,
) -> Result<(), NoMemory>
    requires short { AreListsShort (diagram_view inner.now) }
    ensures { OnOk result (map standing_of tags.new.items ≡ map standing_of tags.old.items
        ++ standing_in (at.now ++ position ∷ []) 1 (diagram_view inner.now)) }
{
    let here = child(alloc, at, position)?;
    add_diagram(alloc, inner, here.as_slice(), tags)
}

/// Adds the tag objects of an object.
#[cycle(walk)]
#[tactic(auto, unfolding(crate::specs::Phase::object_standing))]
fn add_object(
    alloc: Global,
    obj: &Obj,
    at: &[u32],
    position: u32,
    tags: &mut Vec<PlacedTag>,
) -> Result<(), NoMemory>
    requires short { IsInsideShort (object_view obj.now) }
    ensures { OnOk result (map standing_of tags.new.items ≡ map standing_of tags.old.items
        ++ object_standing at.now (at.now ++ position ∷ []) (object_view obj.now)) }
{
    match obj {
        Obj::Block(b) => match &b.inner {
            Some(inner) => add_inside(alloc, inner, at, position, tags),
            None => add_block(alloc, b.gui.as_str(), &b.fields, at, position, tags),
        },
        Obj::Link(_) => Ok(()),
        Obj::Text => Ok(()),
        Obj::Deleted => Ok(()),
    }
}

/// Adds the tag objects of the diagram at a place.
#[cycle(walk)]
fn add_diagram(
    alloc: Global,
    d: &Diagram,
    at: &[u32],
    tags: &mut Vec<PlacedTag>,
) -> Result<(), NoMemory>
    requires short { AreListsShort (diagram_view d.now) }
    ensures { OnOk result (map standing_of tags.new.items ≡ map standing_of tags.old.items ++ standing_in at.now 1 (diagram_view d.now)) }
{
    for (i, obj) in d.objs.iter().enumerate() {
        add_object(alloc, obj, at, i as u32 + 1, tags)?;
    }
    Ok(())
}

/// The tag objects of a diagram over all levels, in tree order.
pub(crate) fn placed_tags(alloc: Global, d: &Diagram) -> Result<Vec<PlacedTag>, NoMemory>
    requires short { AreListsShort (diagram_view d.now) }
    ensures { IfOk result (λ ts. map standing_of ts.items ≡ standing (diagram_view d.now)) }
{
    let mut tags = Vec::new(alloc);
    add_diagram(alloc, d, &[], &mut tags)?;
    Ok(tags)
}
