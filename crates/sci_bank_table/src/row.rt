// The rows of the table.
ghost use Rattle.std.specs.Prelude.{◌≤◌, length};

use anyhow::bail;
use sci_base::{Ints, Truths};
use sci_kinds::{Kind, Port, Ports, Spec};
use sci_table::{list, words};
use std::alloc::Global;

/// A block, the activation inputs that are activated, and the values of its inputs, turn by turn.
#[derive(Drop)]
pub struct Row {
    pub spec: Spec,
    pub mask: u64,
    pub turns: Vec<Vec<i64>>,
}

impl Row {
    /// The row of a line: the kind's name; the sizes and the types of the inputs; the sizes and the types of the outputs; the
    /// parameters; the values, with `;` between turns; and words as `state=1,2` for what isn't as in most rows. A size is a number of
    /// rows, or as `2x3` also of columns.
    pub fn of(alloc: Global, line: &str) -> anyhow::Result<Row> {
        let words = words(alloc, line)?;
        if words.len() < 7 {
            bail!("fewer than seven words");
        }
        let turns = turns(alloc, words[6])?;
        let mut row = Row {
            spec: usual(alloc, &words)?,
            mask: 0,
            turns,
        };
        for word in &words[7..] {
            row.take(alloc, word)?;
        }
        Ok(row)
    }

    /// Takes what most rows have not: a state, the date of a first activation, activation inputs and outputs, and inputs that are activated.
    fn take(&mut self, alloc: Global, word: &str) -> anyhow::Result<()> {
        let (name, value) = word.split_once('=').unwrap_or((word, ""));
        match name {
            "state" => self.spec.state = Ints::of(list(alloc, value)?),
            "firing" => self.spec.firing = Ints::of(list(alloc, value)?),
            "evtin" => self.spec.evtin = value.parse()?,
            "evtout" => self.spec.evtout = value.parse()?,
            "mask" => self.mask = value.parse()?,
            _ => bail!("no such word: {word}"),
        }
        Ok(())
    }

    /// Room for the values of all outputs, of 65,535 at most.
    pub fn room(&self, alloc: Global) -> anyhow::Result<Vec<i64>> {
        let mut count = 0u128;
        for k in 0..self.spec.outs.len() {
            count = count.saturating_add(self.spec.outs.get(k).elements());
        }
        Ok(vec![in alloc; 0; usize::from(u16::try_from(count)?)]?)
    }
}

/// The block of the first words of a row, as most rows have it: without a state and activations.
fn usual(alloc: Global, words: &[&str]) -> anyhow::Result<Spec>
    requires { 6 ≤ length words.now }
{
    let kind = kind_of(words[0])?;
    let params = list(alloc, words[5])?;
    let outs = ports(alloc, words[3], words[4])?;
    let ins = ports(alloc, words[1], words[2])?;
    let feed = vec![in alloc; true; ins.len()]?;
    Ok(Spec {
        kind,
        params: Ints::of(params),
        state: Ints::of(Vec::new(alloc)),
        firing: Ints::of(Vec::new(alloc)),
        ins,
        outs,
        evtin: 0,
        evtout: 0,
        feed: Truths::of(feed),
    })
}

/// The kind of a name.
fn kind_of(name: &str) -> anyhow::Result<Kind> {
    match sci_names::by_name(name) {
        Some(kind) => Ok(kind),
        None => bail!("no kind {name}"),
    }
}

/// The values of each turn.
fn turns(alloc: Global, word: &str) -> anyhow::Result<Vec<Vec<i64>>> {
    let mut turns = Vec::new(alloc);
    for turn in word.split(';') {
        turns.push(list(alloc, turn)?)?;
    }
    Ok(turns)
}

/// Ports of these sizes and types.
fn ports(alloc: Global, sizes: &str, types: &str) -> anyhow::Result<Ports> {
    let types: Vec<i64> = list(alloc, types)?;
    let mut items = Vec::new(alloc);
    if sizes != "-" {
        for (size, ty) in sizes.split(',').zip(types.iter()) {
            items.push(port(size, *ty)?)?;
        }
    }
    if items.len() != types.len() {
        bail!("fewer sizes than types: {sizes}");
    }
    Ok(Ports::of(items))
}

/// A port of a size and a type.
fn port(size: &str, ty: i64) -> anyhow::Result<Port> {
    let (rows, cols) = size.split_once('x').unwrap_or((size, "1"));
    Ok(Port {
        rows: rows.parse()?,
        cols: cols.parse()?,
        ty,
    })
}
