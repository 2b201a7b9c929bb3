// Diagrams as they are drawn: their blocks, their tags, and the flat net.
ghost use Rattle.std.specs.Prelude.{◌≤◌, length};
ghost use Rattle.sci_base.specs.declared.limits.TheConstants.{DIAGRAM_BYTES};

use crate::print::{show_feeds, show_stop};
use sci_base::Stop;
use sci_blocks::{PassThrough, PlacedBlock, links, parts};
use sci_diagram::read;
use sci_flat::flatten;
use sci_goto::{Serving, serve};
use sci_net::Flat;
use std::alloc::Global;
use std::io;

/// The blocks of a diagram whose objects and links break no rule.
fn parts_of(alloc: Global, bytes: &[u8]) -> Result<Vec<PlacedBlock>, Stop>
    requires { length bytes.now ≤ DIAGRAM_BYTES }
{
    match read(alloc, bytes) {
        Ok(diagram) => {
            let blocks = parts(alloc, &diagram)?;
            links(alloc, &diagram)?;
            Ok(blocks)
        }
        Err(stop) => Err(stop),
    }
}

/// Prints the blocks of a diagram.
pub fn show_parts(rt: &impl Print, alloc: Global, bytes: &[u8]) -> anyhow::Result<()>
    requires { length bytes.now ≤ DIAGRAM_BYTES }
{
    match parts_of(alloc, bytes) {
        Ok(parts) => {
            println!(rt; "")?;
            for part in parts.iter() {
                show_part(rt, part)?;
            }
            Ok(())
        }
        Err(stop) => show_stop(rt, &stop),
    }
}

/// Prints a block: its kind, where it stands, its parameters, the rows of its inputs, and which of these feed through.
fn show_part(rt: &impl Print, part: &PlacedBlock) -> io::Result<()> {
    let (kind, place) = (
        sci_names::name_of(part.spec.kind),
        part.place.path.as_slice(),
    );
    let (params, feed) = (part.spec.params.as_slice(), part.spec.feed.as_slice());
    print!(rt; "  {kind} at {place:?}: parameters {params:?}, inputs of rows")?;
    for k in 0..part.spec.ins.len() {
        let rows = part.spec.ins.get(k).rows;
        print!(rt; " {rows}")?;
    }
    println!(rt; ", feedthrough {feed:?}")
}

/// Prints the pass-through object of a name.
pub fn show_pass_through(rt: &impl Print, gui: &str) -> io::Result<()> {
    let found = PassThrough::of(gui);
    println!(rt; " -> {found:?}")
}

/// Which tag object of a diagram serves which.
fn servings_of(alloc: Global, bytes: &[u8]) -> Result<Vec<Serving>, Stop>
    requires { length bytes.now ≤ DIAGRAM_BYTES }
{
    match read(alloc, bytes) {
        Ok(diagram) => serve(alloc, &diagram),
        Err(stop) => Err(stop),
    }
}

/// Prints how many objects are served, and by which each is.
pub fn show_tags(rt: &impl Print, alloc: Global, bytes: &[u8]) -> anyhow::Result<()>
    requires { length bytes.now ≤ DIAGRAM_BYTES }
{
    match servings_of(alloc, bytes) {
        Ok(servings) => {
            let count = servings.len();
            print!(rt; " -> {count}:")?;
            for serving in servings.iter() {
                let (giver, taker) = (serving.giver, serving.taker);
                print!(rt; " {giver}>{taker}")?;
            }
            println!(rt; "")?;
            Ok(())
        }
        Err(stop) => show_stop(rt, &stop),
    }
}

/// The flat net of a diagram.
fn flat_of(alloc: Global, bytes: &[u8]) -> Result<Flat, Stop>
    requires { length bytes.now ≤ DIAGRAM_BYTES }
{
    match read(alloc, bytes) {
        Ok(diagram) => flatten(alloc, &diagram),
        Err(stop) => Err(stop),
    }
}

/// Prints the flat net of a diagram.
pub fn show_flat(rt: &impl Print, alloc: Global, bytes: &[u8]) -> anyhow::Result<()>
    requires { length bytes.now ≤ DIAGRAM_BYTES }
{
    match flat_of(alloc, bytes) {
        Ok(net) => {
            println!(rt; "")?;
            for at in 0..net.len() {
                show_wires(rt, &net, at + 1)?;
            }
            Ok(())
        }
        Err(stop) => show_stop(rt, &stop),
    }
}

/// Prints a block of a flat net: where it stands, the outputs that its inputs read, and then what feeds each of its activation inputs.
fn show_wires(rt: &impl Print, net: &Flat, block: u32) -> anyhow::Result<()>
    requires least { 1 ≤ block }
    requires most { block ≤ length net.now.specs }
{
    let place = net.path(block).path.as_slice();
    print!(rt; "  {block} at {place:?}: reads")?;
    let count = u32::try_from(net.spec(block).ins.len())?;
    for port in 0..count {
        let wire = net.wire(block, port + 1);
        let (from, output) = (wire.block, wire.port);
        print!(rt; " {from}.{output}")?;
    }
    show_inputs(rt, net, block)?;
    println!(rt; "")?;
    Ok(())
}

/// Prints what feeds each activation input of a block.
fn show_inputs(rt: &impl Print, net: &Flat, block: u32) -> io::Result<()>
    requires least { 1 ≤ block }
    requires most { block ≤ length net.now.specs }
{
    for port in 0..net.spec(block).evtin {
        print!(rt; ", activated by")?;
        show_feeds(rt, net.feeds(block, port + 1))?;
    }
    Ok(())
}
