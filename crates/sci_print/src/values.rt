// The values of a value change dump's signals at a tick.
ghost use Rattle.std.specs.Prelude.{◌≤◌, ◌-◌, ◌++◌, codes, length, slice_index_or};
ghost use Rattle.std.specs.Fmt.{signed_decimal};
ghost use Rattle.sci_io.specs.Taken.{Writes};
ghost use Rattle.sci_vcd.specs.Waveforms.{no_signal, value_at};
ghost use Rattle.sci_print.specs.Values.{signal_text, values_text};

use itoa::Buffer;
use sci_io::{Failed, Sink, put_all};
use sci_vcd::Dump;

fn put_number<S: Sink>(value: i64, out: &mut S) -> Result<(), Failed>
    ensures { Writes (S.state out.old) (S.state out.new) (codes " " ++ (signed_decimal value ++ codes "\n")) result }
{
    let mut number = Buffer::new();
    put_all(
        out,
        &[
            " ".as_bytes(),
            number.format(value).as_bytes(),
            "\n".as_bytes(),
        ],
    )
}

fn put_signal<S: Sink>(dump: &Dump, signal: u32, tick: u64, out: &mut S) -> Result<(), Failed>
    requires least { 1 ≤ signal }
    requires most { signal ≤ length dump.now.signals }
    ensures { Writes (S.state out.old) (S.state out.new) (signal_text (slice_index_or dump.now.signals (signal - 1) no_signal)
        (value_at dump.now signal tick)) result }
{
    dump.write_name(signal, out)?;
    put_number(dump.at(signal, tick), out)
}

/// Writes for each signal of a dump a line `b<block>_<port>_<element> <value>` with its value at the tick. It fails where the sink does.
pub fn write_values<S: Sink>(dump: &Dump, tick: u64, out: &mut S) -> Result<(), Failed>
    ensures { Writes (S.state out.old) (S.state out.new) (values_text dump.now tick) result }
{
    for at in 0..dump.count() {
        put_signal(dump, at + 1, tick, out)?;
    }
    Ok(())
}
