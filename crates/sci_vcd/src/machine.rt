// One line of a dump after another.

ghost use Rattle.std.specs.Prelude.{◌≡◌, ◌≤◌, ◌<◌, [], length, IfOk};
ghost use Rattle.sci_base.specs.declared.limits.TheConstants.{ALL_ELEMENTS};
ghost use Rattle.sci_base.specs.Fit.{int_eq};
ghost use Rattle.sci_vcd.specs.Waveforms.{rises};
ghost use Rattle.sci_vcd.specs.Draft.{waveforms_of, IsLinked};
ghost use Rattle.sci_text.specs.Reading.{ended};
ghost use Rattle.sci_text.specs.Stops.{Gives};
ghost use Rattle.sci_vcd.specs.Machine as machine;
ghost use Rattle.sci_vcd.specs.Machine.{state_of, at_stage};

use crate::draft::Draft;
use crate::line::{decoded, read_change, read_signal, read_tick};
use crate::signal::counts;
use crate::{Change, Signal};
use sci_base::limits;
use sci_text::{TextStop, after_text};

/// Which line comes next.
#[derive(Clone, Copy, Drop)]
pub enum Stage {
    Timescale,
    Scope,
    /// A signal, or the end of the scope.
    Signals,
    Definitions,
    /// Tick 0.
    Origin,
    Dumpvars,
    /// A first value, or the end of these.
    First,
    /// A later tick, or a further change at the last one.
    Ticks,
    /// The first change at this tick.
    Tick(u64),
}

/// What was read so far.
#[derive(Drop)]
pub struct DumpReader {
    pub stage: Stage,
    pub draft: Draft,
}

fn ended(stage: Stage, draft: Draft, rest: &[u8]) -> Result<DumpReader, TextStop>
    requires { IsLinked draft }
    ensures gives { Gives state_of result (ended (at_stage stage (waveforms_of draft)) rest.now) }
    ensures linked { IfOk result (λ r. IsLinked r.draft) }
{
    if rest.is_empty() {
        Ok(DumpReader { stage, draft })
    } else {
        Err(TextStop::Other)
    }
}

/// A line that is this text.
fn fixed(text: &[u8], line: &[u8], next: Stage, draft: Draft) -> Result<DumpReader, TextStop>
    requires { IsLinked draft }
    ensures gives { Gives state_of result (machine.fixed text.now line.now next (waveforms_of draft)) }
    ensures linked { IfOk result (λ r. IsLinked r.draft) }
{
    match after_text(line, text) {
        Some(rest) => ended(next, draft, rest),
        None => Err(TextStop::Other),
    }
}

/// Whether the signal stands behind the last of these.
fn rises(before: &[Signal], signal: &Signal) -> bool
    ensures { result ≡ rises before.now signal.now }
{
    before.is_empty() || before[before.len() - 1].precedes(signal)
}

/// Whether the signal may be the next behind these, and this is its number.
fn may_join(before: &[Signal], number: u32, signal: &Signal) -> bool
    ensures { result ≡ machine.may_join before.now number signal.now }
{
    number as usize == before.len() + 1
        && before.len() < limits::ALL_ELEMENTS as usize
        && signal.is_within()
        && rises(before, signal)
}

/// The signal of this number.
fn joining(draft: Draft, number: u32, signal: Signal) -> Result<DumpReader, TextStop>
    requires linked { IsLinked draft }
    requires unchanged { (waveforms_of draft).changes ≡ [] }
    ensures gives { Gives state_of result (machine.joining (waveforms_of draft) (number, signal)) }
    ensures linked { IfOk result (λ r. IsLinked r.draft) }
{
    if !may_join(&draft.signals, number, &signal) {
        return Err(TextStop::Other);
    }
    let draft = draft.with_signal(signal)?;
    Ok(DumpReader {
        stage: Stage::Signals,
        draft,
    })
}

/// The first value of the next signal.
fn beginning(draft: Draft, digits: &[u8], number: u32) -> Result<DumpReader, TextStop>
    requires linked { IsLinked draft }
    requires next { length draft.first.items < length draft.signals.items }
    ensures gives { Gives state_of result (machine.beginning (waveforms_of draft) (digits.now, number)) }
    ensures linked { IfOk result (λ r. IsLinked r.draft) }
{
    if number as usize != draft.first.len() + 1 {
        return Err(TextStop::Other);
    }
    let Some(value) = decoded(draft.ty(number), digits) else {
        return Err(TextStop::Other);
    };
    let draft = draft.with_first(value)?;
    Ok(DumpReader {
        stage: Stage::First,
        draft,
    })
}

pub fn is_equal(v: i64, w: i64) -> bool
    ensures { result ≡ int_eq v w }
{
    v <= w && w <= v
}

/// Whether the change is later than the last one, and to another value.
fn may_change(draft: &Draft, change: &Change) -> bool
    requires linked { IsLinked draft.now }
    requires few { length draft.now.signals.items ≤ ALL_ELEMENTS }
    requires one_each { length draft.now.first.items ≡ length draft.now.signals.items }
    requires least { 1 ≤ change.now.signal }
    requires most { change.now.signal ≤ length draft.now.signals.items }
    ensures { result ≡ machine.may_change (waveforms_of draft.now) change.now }
{
    draft.last().is_before(change) && !is_equal(change.value, draft.value(change.signal))
}

fn changing(draft: Draft, change: Change) -> Result<DumpReader, TextStop>
    requires linked { IsLinked draft }
    requires few { length draft.signals.items ≤ ALL_ELEMENTS }
    requires one_each { length draft.first.items ≡ length draft.signals.items }
    requires least { 1 ≤ change.signal }
    requires most { change.signal ≤ length draft.signals.items }
    ensures gives { Gives state_of result (machine.changing (waveforms_of draft) change) }
    ensures linked { IfOk result (λ r. IsLinked r.draft) }
{
    if !may_change(&draft, &change) {
        return Err(TextStop::Other);
    }
    let draft = draft.with_change(change)?;
    Ok(DumpReader {
        stage: Stage::Ticks,
        draft,
    })
}

/// The value of signal `signal` at this tick.
fn turning(draft: Draft, tick: u64, digits: &[u8], signal: u32) -> Result<DumpReader, TextStop>
    requires linked { IsLinked draft }
    requires few { length draft.signals.items ≤ ALL_ELEMENTS }
    requires one_each { length draft.first.items ≡ length draft.signals.items }
    ensures gives { Gives state_of result (machine.turning (waveforms_of draft) tick (digits.now, signal)) }
    ensures linked { IfOk result (λ r. IsLinked r.draft) }
{
    if !counts(draft.signals.len() as u32, signal) {
        return Err(TextStop::Other);
    }
    let Some(value) = decoded(draft.ty(signal), digits) else {
        return Err(TextStop::Other);
    };
    changing(
        draft,
        Change {
            tick,
            signal,
            value,
        },
    )
}

/// Whether the tick is later than the last one, and some signal may change at it.
fn may_tick(draft: &Draft, tick: u64) -> bool
    requires { length draft.now.signals.items ≤ ALL_ELEMENTS }
    ensures { result ≡ machine.may_tick (waveforms_of draft.now) tick }
{
    0 < draft.signals.len() && draft.last().tick < tick
}

fn ticking(draft: Draft, tick: u64) -> Result<DumpReader, TextStop>
    requires linked { IsLinked draft }
    requires few { length draft.signals.items ≤ ALL_ELEMENTS }
    ensures gives { Gives state_of result (machine.ticking (waveforms_of draft) tick) }
    ensures linked { IfOk result (λ r. IsLinked r.draft) }
{
    if may_tick(&draft, tick) {
        Ok(DumpReader {
            stage: Stage::Tick(tick),
            draft,
        })
    } else {
        Err(TextStop::Other)
    }
}

/// A signal, or the end of the scope.
fn next_signal(draft: Draft, line: &[u8]) -> Result<DumpReader, TextStop>
    requires linked { IsLinked draft }
    requires unchanged { (waveforms_of draft).changes ≡ [] }
    ensures gives { Gives state_of result (machine.pass_at Stage.Signals (waveforms_of draft) line.now) }
    ensures linked { IfOk result (λ r. IsLinked r.draft) }
{
    if let Some(rest) = after_text(line, b"$upscope $end") {
        return ended(Stage::Definitions, draft, rest);
    }
    match read_signal(line) {
        Some((number, signal)) => joining(draft, number, signal),
        None => Err(TextStop::Other),
    }
}

/// A first value, or the end of these.
fn next_value(draft: Draft, line: &[u8]) -> Result<DumpReader, TextStop>
    requires { IsLinked draft }
    ensures gives { Gives state_of result (machine.pass_at Stage.First (waveforms_of draft) line.now) }
    ensures linked { IfOk result (λ r. IsLinked r.draft) }
{
    if draft.first.len() < draft.signals.len() {
        match read_change(line) {
            Some((digits, number)) => beginning(draft, digits, number),
            None => Err(TextStop::Other),
        }
    } else {
        fixed(b"$end", line, Stage::Ticks, draft)
    }
}

/// A change at this tick.
fn next_change(draft: Draft, tick: u64, line: &[u8]) -> Result<DumpReader, TextStop>
    requires linked { IsLinked draft }
    requires few { length draft.signals.items ≤ ALL_ELEMENTS }
    requires one_each { length draft.first.items ≡ length draft.signals.items }
    ensures gives { Gives state_of result (machine.pass_at (Stage.Tick tick) (waveforms_of draft) line.now) }
    ensures linked { IfOk result (λ r. IsLinked r.draft) }
{
    match read_change(line) {
        Some((digits, number)) => turning(draft, tick, digits, number),
        None => Err(TextStop::Other),
    }
}

/// A later tick, behind its #.
fn later_tick(draft: Draft, rest: &[u8]) -> Result<DumpReader, TextStop>
    requires linked { IsLinked draft }
    requires few { length draft.signals.items ≤ ALL_ELEMENTS }
    ensures gives { Gives state_of result (machine.ticked (waveforms_of draft) rest.now) }
    ensures linked { IfOk result (λ r. IsLinked r.draft) }
{
    match read_tick(rest) {
        Some(tick) => ticking(draft, tick),
        None => Err(TextStop::Other),
    }
}

/// A later tick, or a further change at the last one.
fn next_tick(draft: Draft, line: &[u8]) -> Result<DumpReader, TextStop>
    requires linked { IsLinked draft }
    requires few { length draft.signals.items ≤ ALL_ELEMENTS }
    requires one_each { length draft.first.items ≡ length draft.signals.items }
    ensures gives { Gives state_of result (machine.pass_at Stage.Ticks (waveforms_of draft) line.now) }
    ensures linked { IfOk result (λ r. IsLinked r.draft) }
{
    if let Some(rest) = after_text(line, b"#") {
        return later_tick(draft, rest);
    }
    let told = draft.last().tick;
    next_change(draft, told, line)
}

/// One line, without its LF.
pub fn pass(reader: DumpReader, line: &[u8]) -> Result<DumpReader, TextStop>
    requires linked { IsLinked reader.draft }
    requires stands { machine.Stands reader.stage (waveforms_of reader.draft) }
    ensures gives { Gives state_of result (machine.pass line.now (state_of reader)) }
    ensures linked { IfOk result (λ r. IsLinked r.draft) }
{
    let DumpReader { stage, draft } = reader;
    match stage {
        Stage::Timescale => fixed(b"$timescale 1 ns $end", line, Stage::Scope, draft),
        Stage::Scope => fixed(b"$scope module scicos $end", line, Stage::Signals, draft),
        Stage::Signals => next_signal(draft, line),
        Stage::Definitions => fixed(b"$enddefinitions $end", line, Stage::Origin, draft),
        Stage::Origin => fixed(b"#0", line, Stage::Dumpvars, draft),
        Stage::Dumpvars => fixed(b"$dumpvars", line, Stage::First, draft),
        Stage::First => next_value(draft, line),
        Stage::Ticks => next_tick(draft, line),
        Stage::Tick(tick) => next_change(draft, tick, line),
    }
}
