// Diagrams as they are read.
ghost use Rattle.std.specs.Prelude.{◌≤◌, length};
ghost use Rattle.sci_base.specs.declared.limits.TheConstants.{DIAGRAM_BYTES};

use crate::print::show_stop;
use sci_diagram::{Obj, is_pass_through, is_tag, read};
use std::alloc::Global;

/// Prints the objects of a diagram.
pub fn show(rt: &impl Print, alloc: Global, bytes: &[u8]) -> anyhow::Result<()>
    requires { length bytes.now ≤ DIAGRAM_BYTES }
{
    match read(alloc, bytes) {
        Ok(diagram) => {
            let count = diagram.objs.len();
            println!(rt; " -> {count}")?;
            for obj in diagram.objs.iter() {
                show_obj(rt, obj)?;
            }
            Ok(())
        }
        Err(stop) => show_stop(rt, &stop),
    }
}

/// Prints an object: a block with its sort, its activation inputs and whether it has a diagram inside, or a link with its end and its kind.
fn show_obj(rt: &impl Print, obj: &Obj) -> anyhow::Result<()> {
    match obj {
        Obj::Block(block) => {
            let gui = block.gui.as_str();
            let (passes, tag) = (is_pass_through(gui), is_tag(gui));
            let (evtin, inner) = (block.fields.evtin, block.inner.is_some());
            println!(rt;
                "  {gui}: pass-through {passes}, tag {tag}, evtin {evtin}, inner {inner}"
            )?;
        }
        Obj::Link(link) => {
            let from = [link.from.block, link.from.port, link.from.side];
            let to = [link.to.block, link.to.port, link.to.side];
            let kind = link.kind;
            println!(rt; "  {from:?} to {to:?} of kind {kind}")?;
        }
        Obj::Text => println!(rt; "  a text")?,
        Obj::Deleted => println!(rt; "  a deleted object")?,
    }
    Ok(())
}
