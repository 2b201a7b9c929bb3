ghost use Rattle.std.specs.Prelude.{◌≡◌, ◌<◌, ◌^◌};
ghost use Rattle.sci_diagram.specs.Objects.{diagram_view, object_view};
ghost use Rattle.sci_diagram.specs.Count.{blocks_in, blocks_of, links_in, links_of, one_of_kind};
ghost use Rattle.sci_diagram.specs.Tree.{role_of};

use crate::diagram::{Diagram, Obj};
use crate::sorts::ObjectRole;

/// The blocks that are neither superblocks nor pass-through nor tag objects, over all levels.
#[cycle(count)]
pub fn count_blocks(d: &Diagram) -> u64
    requires { blocks_in (diagram_view d.now) < 2 ^ 64 }
    ensures { result ≡ blocks_in (diagram_view d.now) }
{
    let mut sum = 0;
    for obj in &d.objs {
        sum += count_object(obj);
    }
    sum
}

#[cycle(count)]
fn count_object(obj: &Obj) -> u64
    requires { blocks_of (object_view obj.now) < 2 ^ 64 }
    ensures { result ≡ blocks_of (object_view obj.now) }
{
    match obj {
        Obj::Block(block) => match &block.inner {
            Some(inner) => count_blocks(inner),
            None => of_kind(block.gui.as_str()),
        },
        Obj::Link(_) => 0,
        Obj::Text => 0,
        Obj::Deleted => 0,
    }
}

fn of_kind(gui: &str) -> u64
    ensures { result ≡ one_of_kind (role_of gui.now) }
{
    match ObjectRole::of(gui) {
        ObjectRole::Kind => 1,
        ObjectRole::Port | ObjectRole::Joint | ObjectRole::Tag | ObjectRole::Super => 0,
    }
}

/// The links over all levels.
#[cycle(links)]
pub fn count_links(d: &Diagram) -> u64
    requires { links_in (diagram_view d.now) < 2 ^ 64 }
    ensures { result ≡ links_in (diagram_view d.now) }
{
    let mut sum = 0;
    for obj in &d.objs {
        sum += links_of(obj);
    }
    sum
}

#[cycle(links)]
fn links_of(obj: &Obj) -> u64
    requires { links_of (object_view obj.now) < 2 ^ 64 }
    ensures { result ≡ links_of (object_view obj.now) }
{
    match obj {
        Obj::Block(block) => match &block.inner {
            Some(inner) => count_links(inner),
            None => 0,
        },
        Obj::Link(_) => 1,
        Obj::Text => 0,
        Obj::Deleted => 0,
    }
}
