// Blocks in the library, and the calls that are made of them, where what the calls ask for holds.
ghost use Rattle.std.specs.Prelude.{IfOk, OnOk};
ghost use Rattle.sci_bank.specs.Library.{IsFull};
ghost use Rattle.sci_bank_table.specs.Instances.{IsInstance};

use crate::row::Row;
use anyhow::bail;
use sci_bank::library::Library;
use sci_bank::{Bank, Fate};
use sci_base::NoMemory;
use sci_kind_bank::calls::{enters, fills, masks};
use sci_kinds::Spec;

/// Adds a block to the bank of its kind. The answer is its slot.
pub fn add<B: Bank>(lib: &mut Library<B>, spec: &Spec) -> anyhow::Result<usize>
    requires full { IsFull lib.old }
    ensures instance { IfOk result (λ slot. IsInstance lib.new spec.now slot) }
{
    lib.well_formed();
    if !spec.is_typed() {
        bail!("the block isn't typed");
    }
    match lib.add(spec.kind, spec) {
        Ok(slot) => Ok(slot),
        Err(NoMemory) => bail!("out of memory"),
    }
}

/// Evaluates a block, and prints the values of its outputs, or why it has none.
fn evaluate<B: Bank>(
    rt: &impl Print,
    lib: &mut Library<B>,
    row: &Row,
    slot: usize,
    ins: &[i64],
    outs: &mut [i64],
) -> anyhow::Result<()>
    requires instance { IsInstance lib.old row.now.spec slot }
    ensures instance { OnOk result (IsInstance lib.new row.now.spec slot) }
{
    let spec = &row.spec;
    if !masks(spec, row.mask) || !enters(spec, ins) || !fills(&spec.outs, outs) {
        bail!("no such call may be made");
    }
    let fate = lib.out(spec.kind, slot, row.mask, ins, outs);
    show_fate(rt, fate, outs)?;
    Ok(())
}

/// Prints how an evaluation ended.
fn show_fate(rt: &impl Print, fate: Fate, outs: &[i64]) -> std::io::Result<()> {
    match fate {
        Fate::Done => show_values(rt, outs),
        Fate::Overflow => print!(rt; " overflow"),
        Fate::Zero => print!(rt; " zero"),
    }
}

/// Steps the state of a block.
fn step<B: Bank>(lib: &mut Library<B>, row: &Row, slot: usize, ins: &[i64]) -> anyhow::Result<()>
    requires instance { IsInstance lib.old row.now.spec slot }
    ensures instance { OnOk result (IsInstance lib.new row.now.spec slot) }
{
    let spec = &row.spec;
    if !masks(spec, row.mask) || !enters(spec, ins) {
        bail!("no such call may be made");
    }
    lib.update(spec.kind, slot, row.mask, ins);
    Ok(())
}

/// Evaluates a block, steps its state, and prints what this gives. Then come its branch, or the delay of its first activation output.
pub fn show_turn<B: Bank>(
    rt: &impl Print,
    lib: &mut Library<B>,
    row: &Row,
    slot: usize,
    ins: &[i64],
    outs: &mut [i64],
) -> anyhow::Result<()>
    requires instance { IsInstance lib.old row.now.spec slot }
    ensures instance { OnOk result (IsInstance lib.new row.now.spec slot) }
{
    print!(rt; " ->")?;
    evaluate(rt, lib, row, slot, ins, outs)?;
    step(lib, row, slot, ins)?;
    show_state(rt, lib, &row.spec, slot)?;
    show_activation(rt, lib, &row.spec, slot, ins)?;
    Ok(())
}

/// Prints the branch of a synchronous block, or the delay of a block that has one.
fn show_activation<B: Bank>(
    rt: &impl Print,
    lib: &Library<B>,
    spec: &Spec,
    slot: usize,
    ins: &[i64],
) -> anyhow::Result<()>
    requires instance { IsInstance lib.now spec.now slot }
{
    lib.well_formed();
    if !enters(spec, ins) {
        bail!("no such call may be made");
    }
    if spec.kind.is_sync() {
        let branch = lib.branch(spec.kind, slot, ins);
        print!(rt; " branch {branch}")?;
    }
    if spec.kind.has_delay() {
        let delay = lib.delay(spec.kind, slot, 1, ins);
        print!(rt; " delay {delay}")?;
    }
    Ok(())
}

/// Prints all values of a block's state, where it has one.
pub fn show_state<B: Bank>(
    rt: &impl Print,
    lib: &Library<B>,
    spec: &Spec,
    slot: usize,
) -> anyhow::Result<()>
    requires instance { IsInstance lib.now spec.now slot }
{
    let count = spec.state_len();
    if count > 0 {
        print!(rt; " state")?;
    }
    for i in 0..count {
        let value = lib.state_at(spec.kind, slot, i);
        print!(rt; " {value}")?;
    }
    Ok(())
}

/// Prints values, each behind a space.
fn show_values(rt: &impl Print, values: &[i64]) -> std::io::Result<()> {
    for value in values {
        print!(rt; " {value}")?;
    }
    Ok(())
}
