// The verdict on a diagram, and its schedules.
ghost use Rattle.std.specs.Prelude.{◌≤◌, length};
ghost use Rattle.sci_base.specs.declared.limits.TheConstants.{DIAGRAM_BYTES};

use crate::print::show_stop;
use crate::typed::show_source;
use sci_net::Net;
use sci_sched::{Entry, Schedule, measure};
use sci_verdict::check;
use std::alloc::Global;
use std::io;

/// Prints the schedule of each source of a diagram, and how long they are together.
pub fn show(rt: &impl Print, alloc: Global, bytes: &[u8]) -> anyhow::Result<()>
    requires { length bytes.now ≤ DIAGRAM_BYTES }
{
    match check(alloc, bytes) {
        Ok(checked) => {
            show_schedule(rt, &checked.net, &checked.schedule)?;
            match measure(alloc, &checked.net) {
                Ok(size) => {
                    let (entries, guards) = (size.entries, size.guards);
                    println!(rt; "  {entries} entries, {guards} guards")?;
                    Ok(())
                }
                Err(stop) => show_stop(rt, &stop),
            }
        }
        Err(stop) => show_stop(rt, &stop),
    }
}

/// Prints the row of each source.
fn show_schedule(rt: &impl Print, net: &Net, schedule: &Schedule) -> io::Result<()> {
    let count = schedule.rows.len();
    println!(rt; " -> {count} rows")?;
    for at in 0..net.source_count() {
        show_source(rt, net.source(at))?;
        if let Some(row) = schedule.rows.get(at as usize) {
            show_row(rt, row)?;
        }
        println!(rt; "")?;
    }
    Ok(())
}

/// Prints the entries of a row.
fn show_row(rt: &impl Print, row: &[Entry]) -> io::Result<()> {
    for entry in row {
        let (block, always, mask) = (entry.block, entry.always, entry.mask);
        let end = if always { " always" } else { "" };
        print!(rt; " {block}{end} with {mask}")?;
        show_guards(rt, entry)?;
        print!(rt; ";")?;
    }
    Ok(())
}

/// Prints the branches that may activate an entry's block.
fn show_guards(rt: &impl Print, entry: &Entry) -> io::Result<()> {
    for guard in entry.guards.iter() {
        let (block, port, mask) = (guard.block, guard.port, guard.mask);
        print!(rt; " if {block}.{port} with {mask}")?;
    }
    Ok(())
}
