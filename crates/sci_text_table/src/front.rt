// What stands in front of a text.
use anyhow::bail;
use sci_table::unescaped;
use sci_text::{after_text, digits_len, number, split_line};
use std::alloc::Global;
use std::str::from_utf8;

/// Prints what stands behind one text in front of another.
pub fn show_after(rt: &impl Print, alloc: Global, front: &str, text: &str) -> anyhow::Result<()> {
    let text = unescaped(alloc, text)?;
    match after_text(text.as_bytes(), front.as_bytes()) {
        Some(rest) => show_text(rt, rest)?,
        None => print!(rt; " none")?,
    }
    Ok(())
}

/// Prints how many digits a text begins with.
pub fn show_digits(rt: &impl Print, text: &str) -> anyhow::Result<()> {
    let count = digits_len(text.as_bytes());
    print!(rt; " {count}")?;
    Ok(())
}

/// Prints the number below a limit that a text begins with, and what stands behind it.
pub fn show_number(rt: &impl Print, limit: &str, text: &str) -> anyhow::Result<()> {
    let limit: u64 = limit.parse()?;
    if limit > 1 << 63 {
        bail!("no limit of numbers");
    }
    match number(limit, text.as_bytes()) {
        Some((found, rest)) => {
            print!(rt; " {found}")?;
            show_text(rt, rest)?;
        }
        None => print!(rt; " none")?,
    }
    Ok(())
}

/// Prints the first line of a text, and what stands behind it.
pub fn show_line(rt: &impl Print, alloc: Global, text: &str) -> anyhow::Result<()> {
    let text = unescaped(alloc, text)?;
    match split_line(text.as_bytes()) {
        Some((line, rest)) => {
            show_text(rt, line)?;
            show_text(rt, rest)?;
        }
        None => print!(rt; " none")?,
    }
    Ok(())
}

/// Prints a text between quotes.
pub fn show_text(rt: &impl Print, bytes: &[u8]) -> anyhow::Result<()> {
    let text = from_utf8(bytes)?;
    print!(rt; " {text:?}")?;
    Ok(())
}
