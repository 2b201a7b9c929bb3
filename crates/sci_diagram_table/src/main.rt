//! Diagrams that are read, judged, flattened, typed and scheduled.
//!
//! A line of the input is a row: what is asked, and of which diagram; with nothing behind it of that of the last row `diagram`. In a diagram
//! `<N*PART>` stands for PART so many times. The row is printed again, and then what it gives: behind an arrow, or on lines of its own.
//! Lines that are empty or begin with `#` are printed again alone. A row that is none, or wants memory, ends the run with an error, and the
//! exit status isn't 0.
#![tactic(auto)]

ghost use Rattle.std.specs.Prelude.{◌≤◌, length, IfOk};
ghost use Rattle.sci_base.specs.declared.limits.TheConstants.{DIAGRAM_BYTES};

mod drawn;
mod planned;
mod print;
mod read;
mod typed;

use anyhow::{Context, bail};
use sci_base::limits;
use sci_table::{first_word, written_out};
use std::alloc::Global;
use std::io;

/// The bytes of a diagram that are few enough to be read.
fn short(text: &str) -> anyhow::Result<&[u8]>
    ensures { IfOk result (λ bytes. length bytes.now ≤ DIAGRAM_BYTES) }
{
    let bytes = text.as_bytes();
    if bytes.len() > limits::DIAGRAM_BYTES {
        bail!("the diagram is too long");
    }
    Ok(bytes)
}

/// Prints what a question about the bytes of a diagram gives.
fn answer(rt: &impl Print, alloc: Global, asked: &str, bytes: &[u8]) -> anyhow::Result<()>
    requires { length bytes.now ≤ DIAGRAM_BYTES }
{
    match asked {
        "read" => read::show(rt, alloc, bytes),
        "parts" => drawn::show_parts(rt, alloc, bytes),
        "tags" => drawn::show_tags(rt, alloc, bytes),
        "flat" => drawn::show_flat(rt, alloc, bytes),
        "typed" => typed::show(rt, alloc, bytes),
        "reach" => typed::show_reach(rt, alloc, bytes),
        "waits" => typed::show_waits(rt, alloc, bytes),
        "origins" => typed::show_origins(rt, alloc, bytes),
        "tables" => typed::show_tables(rt, alloc, bytes),
        "longest" => typed::show_longest(rt, alloc, bytes),
        "plan" => planned::show(rt, alloc, bytes),
        _ => bail!("no such question: {asked}"),
    }
}

/// Prints what a row gives, where `last` is the last diagram.
fn show(rt: &impl Print, alloc: Global, row: &str, last: &str) -> anyhow::Result<()> {
    let (asked, rest) = first_word(row);
    match asked {
        "pass-through" => drawn::show_pass_through(rt, rest),
        "diagram" => rt.println(""),
        _ => {
            let diagram = if rest.is_empty() { last } else { rest };
            let text = written_out(alloc, diagram)?;
            return answer(rt, alloc, asked, short(&text)?);
        }
    }?;
    Ok(())
}

/// Prints all lines, and what the rows give.
fn run(rt: &(impl Input + Print), alloc: Global) -> anyhow::Result<()> {
    let text = io::read_to_string(alloc, rt.reader())?;
    let mut last = "";
    for line in text.lines() {
        print!(rt; "{line}")?;
        if line.is_empty() || line.starts_with('#') {
            println!(rt; "")?;
            continue;
        }
        last = line.strip_prefix("diagram ").unwrap_or(last);
        show(rt, alloc, line, last).context(format_args!("{line}"))?;
    }
    Ok(())
}

fn main(rt: HostRuntime) -> anyhow::Result<()> {
    run(&rt, rt.alloc())
}
