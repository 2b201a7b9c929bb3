// Input files, observations, and a text against the one that is due.
use crate::front::show_text;
use anyhow::bail;
use sci_agree::Comparing;
use sci_base::{EndWord, Obs, Place, Stop, StopWord, Ty};
use sci_io::{MemSink, Sink};
use sci_table::{list, unescaped, words};
use sci_trace::inputs::{Need, read_inputs};
use sci_trace::write_obs;
use std::alloc::Global;

/// Prints the columns of an input file, where columns are needed, or the rule that it breaks.
pub fn show_inputs(rt: &impl Print, alloc: Global, needed: &str, text: &str) -> anyhow::Result<()> {
    let mut needs = Vec::new(alloc);
    for word in needed.split_whitespace() {
        needs.push(need(alloc, word)?)?;
    }
    match read_inputs(alloc, text.as_bytes(), &needs) {
        Ok(inputs) => {
            for column in inputs.columns() {
                print!(rt; " {column:?}")?;
            }
            Ok(())
        }
        Err(Stop::Refused(refusal)) => {
            let (rule, detail) = (refusal.rule.name(), refusal.detail.as_slice());
            print!(rt; " refused {rule} with {detail:?}")?;
            Ok(())
        }
        Err(Stop::Memory) => bail!("out of memory"),
    }
}

/// The need of a column, of a type, of the block of a number.
fn need(alloc: Global, word: &str) -> anyhow::Result<Need> {
    let numbers: Vec<u32> = list(alloc, word)?;
    if numbers.len() != 3 {
        bail!("three numbers");
    }
    let Some(ty) = Ty::of(i64::from(numbers[1])) else {
        bail!("no such type");
    };
    match Place::of(alloc, &numbers[2..]) {
        Ok(place) => Ok(Need {
            column: numbers[0],
            ty,
            place,
        }),
        Err(_) => bail!("out of memory"),
    }
}

/// Prints the line of an observation.
pub fn show_observation(rt: &impl Print, alloc: Global, row: &str) -> anyhow::Result<()> {
    let observation = observation(alloc, row)?;
    let Ok(mut out) = MemSink::new(alloc, Vec::new(alloc), 100) else {
        bail!("out of memory");
    };
    if write_obs(&observation, &mut out).is_err() {
        bail!("not written");
    }
    show_text(rt, out.taken())
}

/// The observation of a row: its word, and numbers.
fn observation(alloc: Global, row: &str) -> anyhow::Result<Obs> {
    let words = words(alloc, row)?;
    let Some((word, numbers)) = words.split_first() else {
        bail!("no observation");
    };
    let mut n = [0i64; 4];
    for (at, number) in numbers.iter().enumerate() {
        if at < 4 {
            n[at] = number.parse()?;
        }
    }
    Ok(match *word {
        "start" => Obs::Start,
        "event" => Obs::Event(n[0], n[1], n[2]),
        "val" => Obs::Val(n[0], n[1], n[2], n[3]),
        "until" => Obs::End(EndWord::Until),
        "zero" => Obs::Stop(StopWord::Zero, n[0], n[1]),
        "conflict" => Obs::Stop(StopWord::Conflict, n[0], n[1]),
        _ => bail!("no such observation"),
    })
}

/// Compares a text with the pieces that are put, and prints of each whether it agrees, and then the verdict.
pub fn show_agreement(rt: &impl Print, alloc: Global, texts: &str) -> anyhow::Result<()> {
    let (text, pieces) = texts.split_once('|').unwrap_or((texts, ""));
    let text = unescaped(alloc, text)?;
    let mut out = Comparing::new(text.as_bytes());
    if !pieces.is_empty() {
        for piece in pieces.split('|') {
            let piece = unescaped(alloc, piece)?;
            show_piece(rt, &mut out, piece.as_bytes())?;
        }
    }
    let verdict = out.verdict();
    print!(rt; " {verdict:?}")?;
    Ok(())
}

/// Puts a piece that has a byte, and prints whether it agrees.
fn show_piece(rt: &impl Print, out: &mut Comparing<'_>, piece: &[u8]) -> anyhow::Result<()> {
    if piece.is_empty() {
        bail!("an empty piece");
    }
    let agrees = out.put(piece).is_ok();
    print!(rt; " {agrees}")?;
    Ok(())
}
