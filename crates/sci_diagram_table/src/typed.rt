// Typed nets, and what activates each block and waits for which.
ghost use Rattle.std.specs.Prelude.{◌≡◌, ◌+◌, ◌<◌, ◌≤◌, length};
ghost use Rattle.sci_base.specs.declared.limits.TheConstants.{DIAGRAM_BYTES};
ghost use Rattle.sci_net.specs.Sources.{sources_of};
ghost use Rattle.sci_inherit.specs.Origins.{AreOrigins};

use crate::print::{show_feeds, show_stop};
use anyhow::bail;
use sci_base::NoMemory;
use sci_dep::{depends, possible, waits};
use sci_inherit::{Fed, Reach, origins, reach_by_block};
use sci_loop::DepTable;
use sci_loop::walk::Walk;
use sci_net::{Net, Source};
use sci_places::Places;
use sci_verdict::typed_net;
use std::alloc::{AllocError, Global};
use std::io;

/// Prints the typed net of a diagram: of each block the sizes and types of the outputs.
pub fn show(rt: &impl Print, alloc: Global, bytes: &[u8]) -> anyhow::Result<()>
    requires { length bytes.now ≤ DIAGRAM_BYTES }
{
    match typed_net(alloc, bytes) {
        Ok(net) => {
            println!(rt; "")?;
            for at in 0..net.len() {
                show_outs(rt, &net, at + 1)?;
            }
            Ok(())
        }
        Err(stop) => show_stop(rt, &stop),
    }
}

/// Prints the outputs of a block, each as rows, columns and type.
fn show_outs(rt: &impl Print, net: &Net, block: u32) -> io::Result<()>
    requires least { 1 ≤ block }
    requires most { block ≤ length net.now.specs }
{
    print!(rt; "  {block}:")?;
    let outs = &net.spec(block).outs;
    for k in 0..outs.len() {
        let port = outs.get(k);
        let (rows, cols, ty) = (port.rows, port.cols, port.ty);
        print!(rt; " {rows}x{cols} of {ty}")?;
    }
    println!(rt; "")
}

/// The typed net of a diagram that breaks no rule.
fn net_of(alloc: Global, bytes: &[u8]) -> anyhow::Result<Net>
    requires { length bytes.now ≤ DIAGRAM_BYTES }
{
    match typed_net(alloc, bytes) {
        Ok(net) => Ok(net),
        Err(_) => bail!("no typed net"),
    }
}

/// Prints the activation outputs that reach each block, and whether start activates it.
pub fn show_reach(rt: &impl Print, alloc: Global, bytes: &[u8]) -> anyhow::Result<()>
    requires { length bytes.now ≤ DIAGRAM_BYTES }
{
    let net = net_of(alloc, bytes)?;
    let Ok(reach) = reach_by_block(alloc, &net) else {
        bail!("out of memory");
    };
    println!(rt; "")?;
    for at in 0..net.len() {
        let block = at + 1;
        print!(rt; "  {block}:")?;
        show_feeds(rt, reach.of(block))?;
        let end = if reach.at_start(block) { " start" } else { "" };
        println!(rt; "{end}")?;
    }
    Ok(())
}

/// Prints the blocks that each block waits for.
pub fn show_waits(rt: &impl Print, alloc: Global, bytes: &[u8]) -> anyhow::Result<()>
    requires { length bytes.now ≤ DIAGRAM_BYTES }
{
    let net = net_of(alloc, bytes)?;
    let Ok(reach) = origins(alloc, &net) else {
        bail!("out of memory");
    };
    let Ok(waits) = waits(alloc, &net, &reach) else {
        bail!("out of memory");
    };
    println!(rt; "")?;
    for at in 0..net.len() {
        let block = at + 1;
        let first = waits.of(block);
        println!(rt; "  {block}: {first:?}")?;
    }
    Ok(())
}

/// Prints what the sources and the branches of a diagram activate.
pub fn show_origins(rt: &impl Print, alloc: Global, bytes: &[u8]) -> anyhow::Result<()>
    requires { length bytes.now ≤ DIAGRAM_BYTES }
{
    let net = net_of(alloc, bytes)?;
    let Ok(reach) = origins(alloc, &net) else {
        bail!("out of memory");
    };
    println!(rt; "")?;
    show_always(rt, alloc, &net, &reach)?;
    show_branches(rt, &net, &reach)?;
    for (number, blocks) in reach.onward().iter().enumerate() {
        let blocks = sorted(alloc, blocks)?;
        println!(rt; "  {number} leads to {blocks:?}")?;
    }
    Ok(())
}

/// Prints for each source the blocks that it activates whatever the values are, by number, and the activation inputs that it feeds.
fn show_always(rt: &impl Print, alloc: Global, net: &Net, reach: &Reach) -> anyhow::Result<()>
    requires { AreOrigins net.now reach.now }
{
    for at in 0..net.source_count() {
        show_source(rt, net.source(at))?;
        let blocks = sorted(alloc, reach.always(at))?;
        print!(rt; " activates {blocks:?}, feeds")?;
        show_fed(rt, reach.feeding(at))?;
        println!(rt; "")?;
    }
    Ok(())
}

/// Prints activation inputs, each as its block and its number.
fn show_fed(rt: &impl Print, inputs: &[Fed]) -> io::Result<()> {
    for fed in inputs {
        let (block, input) = (fed.block, fed.input);
        print!(rt; " {block}.{input}")?;
    }
    Ok(())
}

/// Prints the branches that reach each block.
fn show_branches(rt: &impl Print, net: &Net, reach: &Reach) -> io::Result<()>
    requires { AreOrigins net.now reach.now }
{
    for at in 0..net.len() {
        let block = at + 1;
        print!(rt; "  {block} by")?;
        show_feeds(rt, reach.branches(block))?;
        println!(rt; "")?;
    }
    Ok(())
}

/// Prints what sets off a reaction.
pub fn show_source(rt: &impl Print, source: Source) -> io::Result<()> {
    match source {
        Source::Start => print!(rt; "  start:"),
        Source::Port(feed) => {
            let (block, port) = (feed.block, feed.port);
            print!(rt; "  {block}.{port}:")
        }
    }
}

/// The numbers in their order.
fn sorted(alloc: Global, numbers: &[u32]) -> Result<Vec<u32>, AllocError> {
    let mut sorted = numbers.to_vec(alloc)?;
    sorted.sort_unstable();
    Ok(sorted)
}

/// The possible blocks of a source, and what each depends on.
fn table_at(alloc: Global, net: &Net, source: u32) -> Result<DepTable, NoMemory>
    requires { source < length (sources_of net.now) }
{
    net.well_formed();
    let reach = origins(alloc, net)?;
    let waits = waits(alloc, net, &reach)?;
    let mut walk = Walk::new(alloc, net.len() as usize + 1)?;
    possible(net, &reach, source, &mut walk)?;
    let table = depends(alloc, net, &waits, &walk)?;
    Ok(table)
}

/// Prints for each source its possible blocks, and what each depends on.
pub fn show_tables(rt: &impl Print, alloc: Global, bytes: &[u8]) -> anyhow::Result<()>
    requires { length bytes.now ≤ DIAGRAM_BYTES }
{
    let net = net_of(alloc, bytes)?;
    println!(rt; "")?;
    for at in 0..net.source_count() {
        let Ok(table) = table_at(alloc, &net, at) else {
            bail!("out of memory");
        };
        show_source(rt, net.source(at))?;
        show_table(rt, &table)?;
    }
    Ok(())
}

/// Prints the members of a table, and what each depends on.
fn show_table(rt: &impl Print, table: &DepTable) -> io::Result<()> {
    for (member, needs) in table.members.iter().zip(table.needs.iter()) {
        print!(rt; " {member} after {needs:?}")?;
    }
    println!(rt; "")
}

/// Prints how many values the widest block of a diagram takes.
pub fn show_longest(rt: &impl Print, alloc: Global, bytes: &[u8]) -> anyhow::Result<()>
    requires { length bytes.now ≤ DIAGRAM_BYTES }
{
    let net = net_of(alloc, bytes)?;
    let Ok(places) = Places::new(alloc, &net) else {
        bail!("out of memory");
    };
    let longest = places.longest();
    println!(rt; " -> {longest}")?;
    Ok(())
}
