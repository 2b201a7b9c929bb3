ghost use Rattle.std.specs.Prelude.{◌≡◌, ◌^◌, ◌<◌, ◌≤◌, Ok, IfOk, IfErr, pos, codes, map, Some, None, string_bytes, if◌then◌else◌};
ghost use Rattle.sci_base.specs.declared.limits.TheConstants.{LEVELS};
ghost use Rattle.sci_json.specs.View.{view, items_view};
ghost use Rattle.sci_json.specs.Field.{field};
ghost use Rattle.sci_diagram.specs.Objects.{objects_of, object_view, block_view, diagram_view};
ghost use Rattle.sci_diagram.specs.Tree.{modelled, required, whole_object, read_block, read_object, walk, list_of, diagram_at};
ghost use Rattle.sci_base.specs.Stops.{Stops};
ghost use Rattle.sci_diagram.specs.Telling.{Tells};
ghost use Rattle.sci_diagram.specs.Weight.{weight, items_weight};

use crate::diagram::{BlockObj, Diagram, Obj};
use crate::fields::{missing, required_text, too_deep, wrong};
use crate::keys;
use crate::links::read_link;
use crate::model::{is_super, read_fields};
use crate::places::child;
use crate::sorts::{ObjectRole, Sort, read_sort};
use crate::table::{Fields, look_up, nothing};
use sci_base::Stop;
use sci_json::FieldStop;
use sci_json::document::{Items, Value};
use std::alloc::Global;

/// The diagram at a place, where `left` levels are left.
#[cycle(walk)]
#[tactic(auto, using(sci_base::proofs::Stopping::stops_then))]
pub(crate) fn read_diagram(
    alloc: Global,
    v: &Value<'_, '_>,
    at: &[u32],
    left: u32,
) -> Result<Diagram, Stop>
    requires light { weight (view v.now) < 2 ^ 32 }
    requires levels { left ≤ LEVELS }
    ensures ok { IfOk result
        (λ d. diagram_at left at.now (view v.now) ≡ Ok (diagram_view d)) }
    ensures stop { IfErr result (λ e. Stops (diagram_at left at.now (view v.now)) e) }
{
    if left == 0 {
        return Err(too_deep(alloc, at));
    }
    let items = list_of(alloc, v, at)?;
    let objs = read_objs(alloc, items, at, left - 1)?;
    Ok(Diagram { objs })
}

/// The objects of a diagram, in their order.
#[cycle(walk)]
fn read_objs(
    alloc: Global,
    mut items: Items<'_, '_>,
    at: &[u32],
    left: u32,
) -> Result<Vec<Obj>, Stop>
    requires light { items_weight (items_view items) < 2 ^ 32 }
    requires levels { left ≤ LEVELS }
    ensures ok { IfOk result (λ os. walk (diagram_at left) at.now 1 (items_view items.entry)
        ≡ Ok (objects_of (map object_view os.items))) }
    ensures stop { IfErr result
        (λ e. Stops (walk (diagram_at left) at.now 1 (items_view items.entry)) e) }
{
    let mut objs = Vec::new(alloc);
    while let Some(item) = items.next() {
        let place = child(alloc, at, objs.len() as u32 + 1)?;
        objs.push(read_obj(alloc, &item, place.as_slice(), left)?)?;
    }
    Ok(objs)
}

/// One object.
#[cycle(walk)]
fn read_obj(alloc: Global, v: &Value<'_, '_>, at: &[u32], left: u32) -> Result<Obj, Stop>
    requires light { weight (view v.now) < 2 ^ 32 }
    requires levels { left ≤ LEVELS }
    ensures ok { IfOk result
        (λ o. read_object (diagram_at left) at.now (view v.now) ≡ Ok (object_view o)) }
    ensures stop { IfErr result
        (λ e. Stops (read_object (diagram_at left) at.now (view v.now)) e) }
{
    let mut found = nothing();
    look_up(v, &mut found);
    obj_of(alloc, &Fields::of(&*v, &found), at, left)
}

/// An object by its fields.
#[cycle(walk)]
#[tactic(auto, using(sci_base::proofs::Stopping::stops_then, crate::proofs::Told::told_then), unfolding(crate::specs::Tree::read_object))]
fn obj_of(alloc: Global, v: &Fields<'_, '_, '_>, at: &[u32], left: u32) -> Result<Obj, Stop>
    requires light { weight (view v.now) < 2 ^ 32 }
    requires levels { left ≤ LEVELS }
    ensures ok { IfOk result
        (λ o. read_object (diagram_at left) at.now (view v.now) ≡ Ok (object_view o)) }
    ensures stop { IfErr result
        (λ e. Stops (read_object (diagram_at left) at.now (view v.now)) e) }
{
    match read_sort(alloc, v, at)? {
        Sort::Block => Ok(Obj::Block(read_block(alloc, v, at, left)?)),
        Sort::Link => Ok(Obj::Link(read_link(alloc, v, at)?)),
        Sort::Text => Ok(Obj::Text),
        Sort::Deleted => Ok(Obj::Deleted),
    }
}

/// A block, with what is inside a superblock.
#[cycle(walk)]
#[tactic(auto, using(sci_base::proofs::Stopping::stops_then, crate::proofs::Told::told_then), unfolding(crate::specs::Tree::read_block))]
fn read_block(
    alloc: Global,
    v: &Fields<'_, '_, '_>,
    at: &[u32],
    left: u32,
) -> Result<BlockObj, Stop>
    requires light { weight (view v.now) < 2 ^ 32 }
    requires levels { left ≤ LEVELS }
    ensures ok { IfOk result
        (λ b. read_block (diagram_at left) at.now (view v.now) ≡ Ok (block_view b)) }
    ensures stop { IfErr result
        (λ e. Stops (read_block (diagram_at left) at.now (view v.now)) e) }
{
    let gui = required_text(alloc, v, keys::GUI, at)?;
    let value = model_of(alloc, v, at)?;
    let mut found = nothing();
    look_up(value, &mut found);
    block_of(alloc, gui, &Fields::of(&*value, &found), at, left)
}

/// A block of this name by the fields of its model.
#[cycle(walk)]
#[tactic(auto, using(sci_base::proofs::Stopping::stops_then, crate::proofs::Told::told_then))]
fn block_of(
    alloc: Global,
    gui: String,
    model: &Fields<'_, '_, '_>,
    at: &[u32],
    left: u32,
) -> Result<BlockObj, Stop>
    requires light { weight (view model.now) < 2 ^ 32 }
    requires levels { left ≤ LEVELS }
    ensures ok { IfOk result
        (λ b. modelled (diagram_at left) at.now (string_bytes gui) (view model.now) ≡ Ok (block_view b)) }
    ensures stop { IfErr result
        (λ e. Stops (modelled (diagram_at left) at.now (string_bytes gui) (view model.now)) e) }
{
    if is_super(alloc, model, at)? {
        let fields = read_fields(alloc, ObjectRole::Super, model, at)?;
        let Some(rpar) = model.get(keys::RPAR) else {
            return Err(missing(alloc, at, keys::RPAR));
        };
        let inner = Box::new(alloc, read_diagram(alloc, rpar, at, left)?)?;
        Ok(BlockObj {
            gui,
            fields,
            inner: Some(inner),
        })
    } else {
        let fields = read_fields(alloc, ObjectRole::of(gui.as_str()), model, at)?;
        Ok(BlockObj {
            gui,
            fields,
            inner: None,
        })
    }
}

#[tactic(auto, using(crate::proofs::Told::tells_violation), unfolding(crate::specs::Tree::list_of))]
fn list_of<'t, 'a>(alloc: Global, v: &Value<'t, 'a>, at: &[u32]) -> Result<Items<'t, 'a>, Stop>
    ensures ok { IfOk result (λ s. list_of at.now (view v.now) ≡ Ok (items_view s)) }
    ensures stop { IfErr result (λ e. Tells (list_of at.now (view v.now)) e) }
{
    if !v.is_object() {
        return Err(wrong(alloc, at, keys::OBJS));
    }
    match sci_json::list(v, "objs") {
        Ok(items) => Ok(items),
        Err(FieldStop::Missing) => Err(missing(alloc, at, keys::OBJS)),
        Err(FieldStop::Wrong) => Err(wrong(alloc, at, keys::OBJS)),
        Err(FieldStop::Memory) => Err(Stop::Memory),
    }
}

#[tactic(auto, using(crate::proofs::Told::tells_violation))]
fn model_of<'v, 't, 'a>(
    alloc: Global,
    v: &Fields<'v, 't, 'a>,
    at: &[u32],
) -> Result<&'v Value<'t, 'a>, Stop>
    ensures ok { IfOk result
        (λ m. required at.now (pos 4) (field whole_object (codes "model") (view v.now)) ≡ Ok (view m.now)) }
    ensures stop { IfErr result
        (λ e. Tells (required at.now (pos 4) (field whole_object (codes "model") (view v.now))) e) }
{
    match v.get(keys::MODEL) {
        None => Err(missing(alloc, at, keys::MODEL)),
        Some(found) => if is_object(found) {
            Ok(found)
        } else {
            Err(wrong(alloc, at, keys::MODEL))
        },
    }
}

fn is_object(v: &Value<'_, '_>) -> bool
    ensures { whole_object (view v.now) ≡ if result then Some (view v.now) else None }
{
    v.is_object()
}
