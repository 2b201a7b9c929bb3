//! Blocks of all kinds, run in the library of all banks.
//!
//! A line of the input is a row: a block, and the values that go in, turn by turn. The row is printed again, with the block's state, and for
//! each turn behind an arrow with the values of its outputs, `overflow` or `zero`; its state after it; its branch, and its delay. The row
//! `outs` asks how many evaluations there were. Lines that are empty or begin with `#` are printed again alone. A row that is none, or
//! whose calls may not be made, ends the run with an error, and the exit status isn't 0. `tools/corner_table.py` writes the rows below its
//! line, and what must be printed; those above were worked out by hand.
#![tactic(auto)]

ghost use Rattle.std.specs.Prelude.{map, OnOk};
ghost use Rattle.sci_bank.specs.Library.{AreInOrder, IsFull};
ghost use Rattle.sci_bank_table.specs.Instances.{IsInstance};

mod calls;
mod row;

use anyhow::bail;
use calls::{add, show_state, show_turn};
use row::Row;
use sci_bank::Bank;
use sci_bank::library::Library;
use sci_library::{AnyBank, next_kind, put_fresh};
use std::alloc::Global;
use std::io::{BufRead, BufReader};

/// Prints what each turn of a row gives.
fn show_turns<B: Bank>(
    rt: &impl Print,
    lib: &mut Library<B>,
    row: &Row,
    slot: usize,
    outs: &mut [i64],
) -> anyhow::Result<()>
    requires instance { IsInstance lib.old row.now.spec slot }
    ensures full { OnOk result (IsFull lib.new) }
{
    for ins in row.turns.iter() {
        show_turn(rt, lib, row, slot, ins, outs)?;
    }
    Ok(())
}

/// Adds the block of a row, and prints its state and what each turn gives.
fn show_row<B: Bank>(
    rt: &impl Print,
    alloc: Global,
    lib: &mut Library<B>,
    line: &str,
) -> anyhow::Result<()>
    requires full { IsFull lib.old }
    ensures full { OnOk result (IsFull lib.new) }
{
    let row = Row::of(alloc, line)?;
    let mut outs = row.room(alloc)?;
    let slot = add(lib, &row.spec)?;
    show_state(rt, lib, &row.spec, slot)?;
    show_turns(rt, lib, &row, slot, &mut outs)
}

/// Prints what a line asks for: how many evaluations there were, what the block of a row gives, or nothing.
fn answer<B: Bank>(
    rt: &impl Print,
    alloc: Global,
    lib: &mut Library<B>,
    line: &str,
) -> anyhow::Result<()>
    requires full { IsFull lib.old }
    ensures full { OnOk result (IsFull lib.new) }
{
    if line.is_empty() || line.starts_with('#') {
        return Ok(());
    }
    if line == "outs" {
        let outs = lib.outs();
        print!(rt; " -> {outs}")?;
        return Ok(());
    }
    show_row(rt, alloc, lib, line)
}

/// Prints a line, and behind it what it asks for.
fn show<B: Bank>(
    rt: &impl Print,
    alloc: Global,
    lib: &mut Library<B>,
    line: &str,
) -> anyhow::Result<()>
    requires full { IsFull lib.old }
    ensures full { OnOk result (IsFull lib.new) }
{
    print!(rt; "{line}")?;
    answer(rt, alloc, lib, line)?;
    println!(rt; "")?;
    Ok(())
}

/// Prints all lines, and what the rows give.
fn run<B: Bank>(rt: &(impl Input + Print), alloc: Global, banks: Vec<B>) -> anyhow::Result<()>
    requires in_order { AreInOrder (map B.meaning banks.items) }
{
    let mut lib = Library::of(banks);
    if !lib.is_full() {
        bail!("a bank is missing");
    }
    for line in BufReader::new(alloc, rt.reader())?.lines(alloc) {
        show(rt, alloc, &mut lib, &line?)?;
    }
    Ok(())
}

fn main(rt: HostRuntime) -> anyhow::Result<()> {
    let alloc = rt.alloc();
    let mut banks: Vec<Box<dyn Bank>> = Vec::new(alloc);
    while let Some(kind) = next_kind(banks.len()) {
        let bank = Box::new(alloc, AnyBank::of_kind(alloc, kind))?;
        if put_fresh(&mut banks, kind, bank).is_err() {
            bail!("out of memory");
        }
    }
    run(&rt, alloc, banks)
}
