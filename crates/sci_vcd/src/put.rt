// Putting the lines of a dump.

ghost use Rattle.std.specs.Prelude.{◌≡◌, ℕ, ◌≤◌, ◌<◌, ◌+◌, ◌++◌, drop, length, slice_index_or};
ghost use Rattle.sci_base.specs.declared.limits.TheConstants.{ALL_ELEMENTS};
ghost use Rattle.sci_io.specs.Taken.{Writes};
ghost use Rattle.sci_vcd.specs.Waveforms.{no_signal};
ghost use Rattle.sci_vcd.specs.Spelling as spelling;
ghost use Rattle.sci_text.specs.Lines.{with_lf, joined};
ghost use Rattle.sci_vcd.specs.Spelling.{value_lines, head_part, next_tick, change_lines};
ghost use Rattle.sci_vcd.specs.Writing.{change_here};

use crate::Signal;
use crate::machine::is_equal;
use crate::signal_lines::SignalLines;
use crate::spell::{ROOM, line_from, signal_line, tick_before};
use sci_io::{Failed, Sink};

/// The room for the lines of a page: 32 of at most 57 bytes, and that of a tick of at most 22.
pub const TEXT: usize = 1856;

fn put_signal<S: Sink>(number: u32, signal: &Signal, out: &mut S) -> Result<(), Failed>
    ensures { Writes (S.state out.old) (S.state out.new) (with_lf (spelling.signal_line number signal.now)) result }
{
    let mut line = [0; ROOM];
    let at = signal_line(&mut line, number, signal);
    out.put(line_from(&line, at))
}

fn put_value<S: Sink>(
    signals: &SignalLines,
    at: usize,
    value: i64,
    out: &mut S,
) -> Result<(), Failed>
    requires { at < length signals.now }
    ensures { Writes (S.state out.old) (S.state out.new) (with_lf (spelling.value_line (slice_index_or signals.now at no_signal).ty (at + 1) value)) result }
{
    let mut line = [0; ROOM];
    let start = signals.value_line(&mut line, at, value);
    out.put(line_from(&line, start))
}

fn put_signals<S: Sink>(signals: &[Signal], out: &mut S) -> Result<(), Failed>
    requires { length signals.now ≤ ALL_ELEMENTS }
    ensures { Writes (S.state out.old) (S.state out.new) (joined (spelling.signal_lines 1 signals.now)) result }
{
    for at in 0..signals.len() {
        put_signal(at as u32 + 1, &signals[at], out)?;
    }
    Ok(())
}

fn put_values<S: Sink>(signals: &SignalLines, values: &[i64], out: &mut S) -> Result<(), Failed>
    requires { length values.now ≡ length signals.now }
    ensures { Writes (S.state out.old) (S.state out.new) (joined (value_lines signals.now 1 values.now)) result }
{
    for at in 0..values.len() {
        put_value(signals, at, values[at], out)?;
    }
    Ok(())
}

/// All that stands before the changes: the signals, and their first values.
pub fn put_head<S: Sink>(signals: &SignalLines, values: &[i64], out: &mut S) -> Result<(), Failed>
    requires few { length signals.now ≤ ALL_ELEMENTS }
    requires one_each { length values.now ≡ length signals.now }
    ensures { Writes (S.state out.old) (S.state out.new) (joined (head_part signals.now values.now)) result }
{
    out.put(b"$timescale 1 ns $end\n$scope module scicos $end\n")?;
    put_signals(signals.signals(), out)?;
    out.put(b"$upscope $end\n$enddefinitions $end\n#0\n$dumpvars\n")?;
    put_values(signals, values, out)?;
    out.put(b"$end\n")
}

/// The line of a tick, but where it is told already, before the bytes from `end` on.
pub fn next_tick_before(text: &mut [u8; TEXT], end: usize, told: u64, tick: u64) -> usize
    requires room { 22 ≤ end }
    requires within { end ≤ 1856 }
    ensures text { drop result text.new ≡ joined (next_tick told tick) ++ drop end text.old }
    ensures start { result ≤ end }
{
    if told == tick {
        return end;
    }
    tick_before(text, end, tick)
}

/// The line of the change of the signal at a place, counted from 0, at a tick that is told, before the bytes from `end` on.
pub fn change_before(
    text: &mut [u8; TEXT],
    end: usize,
    signals: &SignalLines,
    at: usize,
    old: i64,
    new: i64,
) -> usize
    requires place { at < length signals.now }
    requires room { 57 ≤ end }
    requires within { end ≤ 1856 }
    ensures text { (t : ℕ) → drop result text.new ≡ joined (change_lines signals.now t (change_here t (at + 1) old new)) ++ drop end text.old }
    ensures room { end ≤ result + 57 }
    ensures start { result ≤ end }
{
    if is_equal(old, new) {
        return end;
    }
    signals.value_before(text, end, at, new)
}

/// What stands from a place on.
pub fn text_from(text: &[u8; TEXT], start: usize) -> &[u8]
    requires { start ≤ 1856 }
    ensures { result.now ≡ drop start text.now }
{
    &text[start..]
}
