//! The rows of tables that programs read: their words, numbers and lists, and texts in which a part stands many times.
#![tactic(auto)]

use anyhow::bail;
use std::alloc::{AllocError, Global};
use std::error::Error;
use std::str::FromStr;

/// The words of a row, with spaces between.
pub fn words(alloc: Global, row: &str) -> Result<Vec<&str>, AllocError> {
    let mut words = Vec::new(alloc);
    for word in row.split_whitespace() {
        words.push(word)?;
    }
    Ok(words)
}

/// The word and what stands behind the space after it.
pub fn first_word(row: &str) -> (&str, &str) {
    row.split_once(' ').unwrap_or((row, ""))
}

/// The items of a word, with commas between; `-` has none.
pub fn list<T: FromStr + Drop>(alloc: Global, word: &str) -> anyhow::Result<Vec<T>>
where
    T::Err: Error,
{
    let mut items = Vec::new(alloc);
    if word != "-" {
        for item in word.split(',') {
            items.push(item.parse::<T>()?)?;
        }
    }
    Ok(items)
}

/// The text with each `<N*PART>` written out, as PART so many times.
pub fn written_out(alloc: Global, text: &str) -> anyhow::Result<String> {
    let mut whole = String::new(alloc);
    for piece in text.split('<') {
        match piece.split_once('>') {
            Some((part, rest)) => {
                push_part(&mut whole, part)?;
                whole.push_str(rest)?;
            }
            None => whole.push_str(piece)?,
        }
    }
    Ok(whole)
}

/// Writes out `N*PART` at the end of a text.
fn push_part(whole: &mut String, part: &str) -> anyhow::Result<()> {
    let Some((times, part)) = part.split_once('*') else {
        bail!("no number of times: {part}");
    };
    for _ in 0..times.parse::<u32>()? {
        whole.push_str(part)?;
    }
    Ok(())
}

/// The text with a line feed for each `\n`, and a carriage return for each `\r`.
pub fn unescaped(alloc: Global, text: &str) -> Result<String, AllocError> {
    let mut whole = String::new(alloc);
    let mut pieces = text.split('\\');
    if let Some(first) = pieces.next() {
        whole.push_str(first)?;
    }
    for piece in pieces {
        if let Some(rest) = piece.strip_prefix('n') {
            whole.push('\n')?;
            whole.push_str(rest)?;
        } else if let Some(rest) = piece.strip_prefix('r') {
            whole.push('\r')?;
            whole.push_str(rest)?;
        } else {
            whole.push('\\')?;
            whole.push_str(piece)?;
        }
    }
    Ok(whole)
}
