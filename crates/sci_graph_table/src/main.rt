//! Graphs of numbers, lists of nodes, and events that wait in order.
//!
//! A line of the input is a row: what is asked, and numbers. The row is printed again, and behind an arrow what it gives. Lines that are empty
//! or begin with `#` are printed again alone. A row that is none, or whose calls may not be made, or that wants memory, ends the run with an
//! error, and the exit status isn't 0.
#![tactic(auto)]

mod events;
mod graphs;
mod linked;
mod needs;
mod walks;

use anyhow::{Context, bail};
use sci_table::{first_word, words};
use std::alloc::Global;
use std::io;

/// Prints what a row gives.
fn show(rt: &impl Print, alloc: Global, row: &str) -> anyhow::Result<()> {
    let (asked, rest) = first_word(row);
    let words = words(alloc, rest)?;
    match asked {
        "classes" => graphs::show_classes(rt, alloc, &words),
        "values" => graphs::show_values(rt, alloc, &words),
        "reached" => graphs::show_reached(rt, alloc, &words),
        "loop" => needs::show_loop(rt, alloc, &words),
        "order" => needs::show_order(rt, alloc, &words),
        "lists" => walks::show_lists(rt, alloc, &words),
        "walk" => walks::show_walk(rt, alloc, &words),
        "links" => linked::show(rt, alloc, &words),
        "chain" => events::show_chain(rt, alloc, &words),
        "wheel" => events::show_wheel(rt, alloc, &words),
        _ => bail!("no such question"),
    }
}

/// Prints all lines, and what the rows give.
fn run(rt: &(impl Input + Print), alloc: Global) -> anyhow::Result<()> {
    let text = io::read_to_string(alloc, rt.reader())?;
    for line in text.lines() {
        print!(rt; "{line}")?;
        if !line.is_empty() && !line.starts_with('#') {
            print!(rt; " ->")?;
            show(rt, alloc, line).context(format_args!("{line}"))?;
        }
        println!(rt; "")?;
    }
    Ok(())
}

fn main(rt: HostRuntime) -> anyhow::Result<()> {
    run(&rt, rt.alloc())
}
