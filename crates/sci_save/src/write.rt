// The text of what is saved.
ghost use Rattle.std.specs.Prelude.{◌≡◌, ◌<◌, ◌++◌, ◌∷◌, [], pos, All, codes, decimal, length};
ghost use Rattle.std.specs.Fmt.{signed_decimal};
ghost use Rattle.sci_io.specs.Taken.{Writes};
ghost use Rattle.sci_net.specs.Parts.{rows_of};
ghost use Rattle.sci_net.specs.Sources.{sources_of};
ghost use Rattle.sci_trace.specs.Lines.{numbers};
ghost use Rattle.sci_save.specs.Saved.{saved_of};
ghost use Rattle.sci_save.specs.Numbers.{start_text};
ghost use Rattle.sci_save.specs.Valid.{IsShaped};
ghost use Rattle.sci_save.specs.Text.{row_text, rows_text, cursor_row, cursor_rows, port_numbers, event_text, events_text, blocks_text, lines_text, saved_text};

use crate::Image;
use itoa::Buffer;
use sci_forms::Spec;
use sci_io::{Failed, Sink, put_all};
use sci_net::{Feed, Net, Source};

fn put_number<S: Sink>(number: i64, out: &mut S) -> Result<(), Failed>
    ensures { Writes (S.state out.old) (S.state out.new) (codes " " ++ signed_decimal number) result }
{
    let mut digits = Buffer::new();
    put_all(out, &[" ".as_bytes(), digits.format(number).as_bytes()])
}

/// The numbers of a line, each behind a space, and its end.
fn put_numbers<S: Sink>(values: &[i64], out: &mut S) -> Result<(), Failed>
    ensures { Writes (S.state out.old) (S.state out.new) (numbers values.now) result }
{
    for number in values {
        put_number(*number, out)?;
    }
    out.put("\n".as_bytes())
}

/// The beginning of a block's line.
fn put_start<S: Sink>(word: &str, block: usize, out: &mut S) -> Result<(), Failed>
    ensures { Writes (S.state out.old) (S.state out.new) (start_text word.now block) result }
{
    let mut digits = Buffer::new();
    put_all(
        out,
        &[
            word.as_bytes(),
            " ".as_bytes(),
            digits.format(block).as_bytes(),
        ],
    )
}

/// The line of a block, where it has any numbers.
pub fn put_row<S: Sink>(word: &str, block: usize, row: &[i64], out: &mut S) -> Result<(), Failed>
    ensures { Writes (S.state out.old) (S.state out.new) (row_text word.now block row.now) result }
{
    if row.is_empty() {
        return Ok(());
    }
    put_start(word, block, out)?;
    put_numbers(row, out)
}

fn put_rows<S: Sink>(word: &str, rows: &[Vec<i64>], out: &mut S) -> Result<(), Failed>
    ensures { Writes (S.state out.old) (S.state out.new) (rows_text word.now 1 (rows_of rows.now)) result }
{
    for at in 0..rows.len() {
        put_row(word, at + 1, &rows[at], out)?;
    }
    Ok(())
}

/// How many values a sensor has taken.
fn put_taken<S: Sink>(block: u32, cursor: u64, out: &mut S) -> Result<(), Failed>
    ensures { Writes (S.state out.old) (S.state out.new) (row_text (codes "cursor") block (pos cursor ∷ [])) result }
{
    let mut first = Buffer::new();
    let mut second = Buffer::new();
    put_all(
        out,
        &[
            "cursor ".as_bytes(),
            first.format(block).as_bytes(),
            " ".as_bytes(),
            second.format(cursor).as_bytes(),
            "\n".as_bytes(),
        ],
    )
}

/// The line of a sensor.
fn put_cursor<S: Sink>(spec: &Spec, block: u32, cursor: u64, out: &mut S) -> Result<(), Failed>
    ensures { Writes (S.state out.old) (S.state out.new) (row_text (codes "cursor") block (cursor_row spec.now cursor)) result }
{
    if spec.kind.is_sensor() {
        return put_taken(block, cursor, out);
    }
    Ok(())
}

fn put_cursors<S: Sink>(net: &Net, cursors: &[u64], out: &mut S) -> Result<(), Failed>
    requires { length cursors.now ≡ length net.now.specs }
    ensures { Writes (S.state out.old) (S.state out.new) (rows_text (codes "cursor") 1 (cursor_rows net.now.specs cursors.now)) result }
{
    for block in 0..net.len() {
        put_cursor(net.spec(block + 1), block + 1, cursors[block as usize], out)?;
    }
    Ok(())
}

/// Block and port of an activation output, and the end of the line.
fn put_output<S: Sink>(output: Feed, out: &mut S) -> Result<(), Failed>
    ensures { Writes (S.state out.old) (S.state out.new) (numbers (pos output.block ∷ pos output.port ∷ [])) result }
{
    let mut first = Buffer::new();
    let mut second = Buffer::new();
    put_all(
        out,
        &[
            " ".as_bytes(),
            first.format(output.block).as_bytes(),
            " ".as_bytes(),
            second.format(output.port).as_bytes(),
            "\n".as_bytes(),
        ],
    )
}

/// Block and port of a source, of which start has none, and the end of the line.
fn put_port<S: Sink>(source: Source, out: &mut S) -> Result<(), Failed>
    ensures { Writes (S.state out.old) (S.state out.new) (numbers (port_numbers source)) result }
{
    match source {
        Source::Start => out.put("\n".as_bytes()),
        Source::Port(output) => put_output(output, out),
    }
}

fn put_date<S: Sink>(date: u64, out: &mut S) -> Result<(), Failed>
    ensures { Writes (S.state out.old) (S.state out.new) (codes "pend " ++ decimal date) result }
{
    let mut digits = Buffer::new();
    put_all(out, &["pend ".as_bytes(), digits.format(date).as_bytes()])
}

/// The line of a pending event.
fn put_event<S: Sink>(net: &Net, date: u64, source: u32, out: &mut S) -> Result<(), Failed>
    requires { source < length (sources_of net.now) }
    ensures { Writes (S.state out.old) (S.state out.new) (event_text net.now (date, source)) result }
{
    put_date(date, out)?;
    put_port(net.source(source), out)
}

fn put_events<S: Sink>(net: &Net, events: &[(u64, u32)], out: &mut S) -> Result<(), Failed>
    requires { All (λ d. d.1 < length (sources_of net.now)) events.now }
    ensures { Writes (S.state out.old) (S.state out.new) (events_text net.now events.now) result }
{
    for (date, source) in events {
        put_event(net, *date, *source, out)?;
    }
    Ok(())
}

/// How many events have fired, and the date of the last reaction.
pub fn put_stands<S: Sink>(fired: u64, now: u64, out: &mut S) -> Result<(), Failed>
    ensures { Writes (S.state out.old) (S.state out.new) (codes "save 1\nat" ++ numbers (pos fired ∷ pos now ∷ [])) result }
{
    let mut first = Buffer::new();
    let mut second = Buffer::new();
    put_all(
        out,
        &[
            "save 1\nat ".as_bytes(),
            first.format(fired).as_bytes(),
            " ".as_bytes(),
            second.format(now).as_bytes(),
            "\n".as_bytes(),
        ],
    )
}

/// The lines of blocks.
fn put_blocks<S: Sink>(net: &Net, image: &Image, out: &mut S) -> Result<(), Failed>
    requires { length image.now.cursors.items ≡ length net.now.specs }
    ensures { Writes (S.state out.old) (S.state out.new) (blocks_text net.now (saved_of image.entry.now)) result }
{
    put_rows("state", &image.states, out)?;
    put_rows("held", &image.held, out)?;
    put_cursors(net, &image.cursors, out)
}

/// The lines of pending events, and the last line.
fn put_pending<S: Sink>(net: &Net, events: &[(u64, u32)], out: &mut S) -> Result<(), Failed>
    requires { All (λ d. d.1 < length (sources_of net.now)) events.now }
    ensures { Writes (S.state out.old) (S.state out.new) (events_text net.now events.now ++ codes "done\n") result }
{
    put_events(net, events, out)?;
    out.put("done\n".as_bytes())
}

fn put_lines<S: Sink>(net: &Net, image: &Image, out: &mut S) -> Result<(), Failed>
    requires cursors { length image.now.cursors.items ≡ length net.now.specs }
    requires sources { All (λ d. d.1 < length (sources_of net.now)) image.now.pending.items }
    ensures { Writes (S.state out.old) (S.state out.new) (lines_text net.now (saved_of image.entry.now)) result }
{
    put_blocks(net, image, out)?;
    put_pending(net, &image.pending, out)
}

/// Writes the text of what is saved of a run of a net. It fails where the sink does, which has then taken a front of the text.
#[tactic(auto, unfolding(crate::specs::Text::saved_text))]
pub fn write_save<S: Sink>(net: &Net, image: &Image, out: &mut S) -> Result<(), Failed>
    requires { IsShaped net.now (saved_of image.now) }
    ensures { Writes (S.state out.old) (S.state out.new) (saved_text net.now (saved_of image.entry.now)) result }
{
    put_stands(image.fired, image.now, out)?;
    put_lines(net, image, out)
}
