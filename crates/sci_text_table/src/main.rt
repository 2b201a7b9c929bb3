//! Texts that are read and written: words and numbers in front of bytes, JSON and its fields, input files, observations, a text against the one
//! that is due, and value change dumps.
//!
//! A line of the input is a row: what is asked, and then texts with `|` between. In most of them `\n` and `\r` stand for a line feed and a
//! carriage return. The row is printed again, and behind an arrow what it gives. Lines that are empty or begin with `#` are printed again alone.
//! A row that is none, or wants memory, ends the run with an error, and the exit status isn't 0.
#![tactic(auto)]

mod dumps;
mod fields;
mod files;
mod front;

use anyhow::{Context, bail};
use sci_table::{first_word, unescaped, written_out};
use std::alloc::Global;
use std::io;

/// Prints what a question about two texts gives.
fn answer(rt: &impl Print, alloc: Global, asked: &str, texts: &str) -> anyhow::Result<()> {
    let (left, right) = texts.split_once('|').unwrap_or((texts, ""));
    match asked {
        "after" => front::show_after(rt, alloc, left, right),
        "digits" => front::show_digits(rt, left),
        "number" => front::show_number(rt, left, right),
        "line" => front::show_line(rt, alloc, left),
        "agree" => files::show_agreement(rt, alloc, texts),
        "inputs" => files::show_inputs(rt, alloc, left, right),
        "observed" => files::show_observation(rt, alloc, left),
        "root" => fields::show_root(rt, alloc, written_out(alloc, left)?.as_bytes()),
        "bytes" => fields::show_root(rt, alloc, &sci_table::list::<u8>(alloc, left)?),
        "field" => fields::show_field(rt, alloc, left, right),
        "read" => fields::show_read(rt, alloc, left, right),
        _ => bail!("no such question"),
    }
}

/// Prints what a row gives, where `last` is the text of the last dump.
fn show(rt: &impl Print, alloc: Global, row: &str, last: &str) -> anyhow::Result<()> {
    let (asked, texts) = first_word(row);
    match asked {
        "dump" => dumps::show_count(rt, alloc, last),
        "at" => dumps::show_values(rt, alloc, last, texts),
        "names" => dumps::show_names(rt, alloc, last, texts),
        "edited" => dumps::show_edited(rt, alloc, last, texts),
        _ => answer(rt, alloc, asked, texts),
    }?;
    println!(rt; "")?;
    Ok(())
}

/// Prints all lines, and what the rows give.
fn run(rt: &(impl Input + Print), alloc: Global) -> anyhow::Result<()> {
    let text = io::read_to_string(alloc, rt.reader())?;
    let mut last = String::new(alloc);
    for line in text.lines() {
        print!(rt; "{line}")?;
        if line.is_empty() || line.starts_with('#') {
            println!(rt; "")?;
            continue;
        }
        if let Some(dump) = line.strip_prefix("dump ") {
            last = unescaped(alloc, dump)?;
        }
        print!(rt; " ->")?;
        show(rt, alloc, line, &last).context(format_args!("{line}"))?;
    }
    Ok(())
}

fn main(rt: HostRuntime) -> anyhow::Result<()> {
    run(&rt, rt.alloc())
}
