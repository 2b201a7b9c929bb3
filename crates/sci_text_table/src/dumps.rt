// Value change dumps.
use crate::front::show_text;
use anyhow::bail;
use sci_io::MemSink;
use sci_table::{first_word, list, unescaped};
use sci_vcd::{Dump, VcdStop, read_vcd};
use std::alloc::{AllocError, Global};

/// The dump of a text.
fn dump_of(alloc: Global, text: &str) -> anyhow::Result<Dump> {
    match read_vcd(alloc, text.as_bytes()) {
        Ok(dump) => Ok(dump),
        Err(_) => bail!("no dump"),
    }
}

/// Prints how many signals a dump has.
pub fn show_count(rt: &impl Print, alloc: Global, text: &str) -> anyhow::Result<()> {
    let count = dump_of(alloc, text)?.count();
    print!(rt; " {count}")?;
    Ok(())
}

/// Prints the values of all signals at a tick.
pub fn show_values(rt: &impl Print, alloc: Global, text: &str, tick: &str) -> anyhow::Result<()> {
    let dump = dump_of(alloc, text)?;
    let tick: u64 = tick.parse()?;
    for at in 0..dump.count() {
        let value = dump.at(at + 1, tick);
        print!(rt; " {value}")?;
    }
    Ok(())
}

/// Prints the names of some signals, one behind the other.
pub fn show_names(rt: &impl Print, alloc: Global, text: &str, signals: &str) -> anyhow::Result<()> {
    let dump = dump_of(alloc, text)?;
    let Ok(mut out) = MemSink::new(alloc, Vec::new(alloc), 100) else {
        bail!("out of memory");
    };
    let signals: Vec<u32> = list(alloc, signals)?;
    for signal in signals.iter() {
        if *signal < 1 || *signal > dump.count() {
            bail!("no such signal");
        }
        if dump.write_name(*signal, &mut out).is_err() {
            bail!("not written");
        }
    }
    show_text(rt, out.taken())
}

/// Prints the first wrong line of a dump in which lines are replaced: those from one number on up to another, without that.
pub fn show_edited(rt: &impl Print, alloc: Global, text: &str, edit: &str) -> anyhow::Result<()> {
    let (range, new) = first_word(edit);
    let Some((from, to)) = range.split_once('-') else {
        bail!("no lines");
    };
    let new = unescaped(alloc, new)?;
    let text = edited(alloc, text, from.parse()?, to.parse()?, &new)?;
    match read_vcd(alloc, text.as_bytes()) {
        Ok(_) => print!(rt; " a dump")?,
        Err(VcdStop::NotVcd(line)) => print!(rt; " {line}")?,
        Err(VcdStop::Memory) => bail!("out of memory"),
    }
    Ok(())
}

/// The text with the lines from one number up to another, without that, replaced.
fn edited(alloc: Global, text: &str, from: u64, to: u64, new: &str) -> Result<String, AllocError> {
    let mut edited = String::new(alloc);
    let mut number: u64 = 1;
    for line in text.lines() {
        if number == from {
            edited.push_str(new)?;
        }
        if number < from || to <= number {
            edited.push_str(line)?;
            edited.push_str("\n")?;
        }
        number = number.wrapping_add(1);
    }
    Ok(edited)
}
