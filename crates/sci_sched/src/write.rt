// The text of a schedule.
ghost use Rattle.std.specs.Prelude.{◌≡◌, ◌<◌, ◌≤◌, ◌+◌, ◌++◌, [], true, false, codes, decimal, drop, length, All};
ghost use Rattle.sci_io.specs.Taken.{Writes};
ghost use Rattle.sci_net.specs.Sources.{sources_of};
ghost use Rattle.sci_sched.specs.Plain.{row_of, rows_of};
ghost use Rattle.sci_reaction.specs.Kept.{guard_of, guards_of, entry_of};
ghost use Rattle.sci_sched.specs.Text.{port_text, always_text, block_text, guard_text, guards_text, entry_text, entries_text, source_text, row_text, plan_text};

use crate::{Entry, Guard, Schedule};
use itoa::{Buffer, write_digits};
use sci_io::{Failed, Sink, put_all};
use sci_net::{Feed, Net, Source};

/// How many entries without guards are written in one piece.
const TOGETHER: usize = 16;

/// The room for their lines. Each has a number of at most 20 digits, and at most 8 bytes behind it.
const ROOM: usize = 512;

fn put_guard<S: Sink>(guard: Guard, out: &mut S) -> Result<(), Failed>
    ensures { Writes (S.state out.old) (S.state out.new) (guard_text (guard_of guard)) result }
{
    let mut first = Buffer::new();
    let mut second = Buffer::new();
    put_all(
        out,
        &[
            " ".as_bytes(),
            first.format(guard.block).as_bytes(),
            ".".as_bytes(),
            second.format(guard.port).as_bytes(),
        ],
    )
}

fn put_guards<S: Sink>(guards: &[Guard], out: &mut S) -> Result<(), Failed>
    ensures { Writes (S.state out.old) (S.state out.new) (guards_text (guards_of guards.now)) result }
{
    for guard in guards {
        put_guard(*guard, out)?;
    }
    Ok(())
}

fn put_number<S: Sink>(block: u32, end: &str, out: &mut S) -> Result<(), Failed>
    ensures { Writes (S.state out.old) (S.state out.new) (decimal block ++ end.now) result }
{
    let mut number = Buffer::new();
    put_all(out, &[number.format(block).as_bytes(), end.as_bytes()])
}

fn put_block<S: Sink>(block: u32, always: bool, out: &mut S) -> Result<(), Failed>
    ensures { Writes (S.state out.old) (S.state out.new) (block_text block always) result }
{
    if always {
        put_number(block, " always", out)
    } else {
        put_number(block, "", out)
    }
}

fn put_end<S: Sink>(guards: &[Guard], out: &mut S) -> Result<(), Failed>
    ensures { Writes (S.state out.old) (S.state out.new) (guards_text (guards_of guards.now) ++ codes "\n") result }
{
    put_guards(guards, out)?;
    out.put("\n".as_bytes())
}

fn put_entry<S: Sink>(entry: &Entry, out: &mut S) -> Result<(), Failed>
    ensures { Writes (S.state out.old) (S.state out.new) (entry_text (entry_of entry.now)) result }
{
    put_block(entry.block, entry.always, out)?;
    put_end(&entry.guards, out)
}

// Writes the lines of some entries one by one.
fn put_each<S: Sink>(entries: &[Entry], out: &mut S) -> Result<(), Failed>
    ensures { Writes (S.state out.old) (S.state out.new) (entries_text (row_of entries.now)) result }
{
    for entry in entries {
        put_entry(entry, out)?;
    }
    Ok(())
}

// Lines of entries without guards are made from their end to their front, some of them in one piece. Each of these puts something before the bytes
// from `end` on, and tells where it begins.

// The digits of a block's number.
fn digits_before(text: &mut [u8; ROOM], end: usize, block: u64) -> usize
    requires room { 20 ≤ end }
    requires within { end ≤ 512 }
    ensures text { drop result text.new ≡ decimal block ++ drop end text.old }
    ensures room { end ≤ result + 20 }
    ensures within { result ≤ end }
{
    write_digits(block, text, end)
}

// A word.
fn word_before(text: &mut [u8; ROOM], end: usize, word: &str) -> usize
    requires room { length word.now ≤ end }
    requires within { end ≤ 512 }
    ensures text { drop result text.new ≡ word.now ++ drop end text.old }
    ensures start { result + length word.now ≡ end }
{
    let start = end - word.len();
    text[start..end].copy_from_slice(word.as_bytes());
    start
}

// What stands behind the number on the line of an entry without guards.
fn line_end_before(text: &mut [u8; ROOM], end: usize, always: bool) -> usize
    requires room { 8 ≤ end }
    requires within { end ≤ 512 }
    ensures text { drop result text.new ≡ (always_text always ++ codes "\n") ++ drop end text.old }
    ensures room { end ≤ result + 8 }
    ensures start { result < end }
{
    if always {
        word_before(text, end, " always\n")
    } else {
        word_before(text, end, "\n")
    }
}

// The line of an entry without guards.
fn alone_before(text: &mut [u8; ROOM], end: usize, entry: &Entry) -> usize
    requires room { 28 ≤ end }
    requires within { end ≤ 512 }
    requires alone { entry.now.guards.items ≡ [] }
    ensures text { drop result text.new ≡ entry_text (entry_of entry.now) ++ drop end text.old }
    ensures room { end ≤ result + 28 }
    ensures start { result < end }
{
    let at = line_end_before(text, end, entry.always);
    digits_before(text, at, entry.block as u64)
}

// The lines of entries without guards, at the end of a text.
fn lines_before(text: &mut [u8; ROOM], entries: &[Entry]) -> usize
    requires some { 0 < length entries.now }
    requires few { length entries.now ≤ 16 }
    requires alone { All (λ e. e.guards.items ≡ []) entries.now }
    ensures text { drop result text.new ≡ entries_text (row_of entries.now) }
    ensures start { result < 512 }
{
    let mut at = ROOM;
    for turn in 0..entries.len() {
        let place = entries.len() - 1 - turn;
        let entry = &entries[place];
        at = alone_before(text, at, entry);
    }
    at
}

// What stands from a place on.
fn text_from(text: &[u8; ROOM], start: usize) -> &[u8]
    requires { start ≤ 512 }
    ensures { result.now ≡ drop start text.now }
{
    &text[start..]
}

// Writes the lines of entries without guards in one piece.
fn put_together<S: Sink>(entries: &[Entry], out: &mut S) -> Result<(), Failed>
    requires some { 0 < length entries.now }
    requires few { length entries.now ≤ 16 }
    requires alone { All (λ e. e.guards.items ≡ []) entries.now }
    ensures { Writes (S.state out.old) (S.state out.new) (entries_text (row_of entries.now)) result }
{
    let mut text = [0; ROOM];
    let at = lines_before(&mut text, entries);
    out.put(text_from(&text, at))
}

// Whether an entry has no guards.
fn is_alone(entry: &Entry) -> bool
    ensures { result ≡ true → entry.now.guards.items ≡ [] }
{
    entry.guards.is_empty()
}

// Whether some entry has guards.
fn has_guards(entries: &[Entry]) -> bool
    ensures { result ≡ false → All (λ e. e.guards.items ≡ []) entries.now }
{
    for entry in entries {
        if !is_alone(entry) {
            return true;
        }
    }
    false
}

// Writes the lines of some entries.
fn put_some<S: Sink>(entries: &[Entry], out: &mut S) -> Result<(), Failed>
    requires some { 0 < length entries.now }
    requires few { length entries.now ≤ 16 }
    ensures { Writes (S.state out.old) (S.state out.new) (entries_text (row_of entries.now)) result }
{
    if has_guards(entries) {
        put_each(entries, out)
    } else {
        put_together(entries, out)
    }
}

fn put_entries<S: Sink>(row: &[Entry], out: &mut S) -> Result<(), Failed>
    ensures { Writes (S.state out.old) (S.state out.new) (entries_text (row_of row.now)) result }
{
    let mut rest = row;
    while !rest.is_empty() {
        let (front, behind) = rest.split_at(rest.len().min(TOGETHER));
        put_some(front, out)?;
        rest = behind;
    }
    Ok(())
}

fn put_port<S: Sink>(port: Feed, out: &mut S) -> Result<(), Failed>
    ensures { Writes (S.state out.old) (S.state out.new) (codes "source " ++ (port_text port.block port.port ++ codes "\n")) result }
{
    let mut first = Buffer::new();
    let mut second = Buffer::new();
    put_all(
        out,
        &[
            "source ".as_bytes(),
            first.format(port.block).as_bytes(),
            ".".as_bytes(),
            second.format(port.port).as_bytes(),
            "\n".as_bytes(),
        ],
    )
}

fn put_source<S: Sink>(source: Source, out: &mut S) -> Result<(), Failed>
    ensures { Writes (S.state out.old) (S.state out.new) (source_text source) result }
{
    match source {
        Source::Start => out.put("source start\n".as_bytes()),
        Source::Port(port) => put_port(port, out),
    }
}

fn put_row<S: Sink>(source: Source, row: &[Entry], out: &mut S) -> Result<(), Failed>
    ensures { Writes (S.state out.old) (S.state out.new) (row_text source (row_of row.now)) result }
{
    put_source(source, out)?;
    put_entries(row, out)
}

/// Writes the text of a net's schedule, which has one row for each source. For each source it has the line `source start` or
/// `source <block>.<port>`, and then a line for each entry of its row: the block's number, ` always` where the entry is, and
/// ` <block>.<port>` for each guard. It fails where the sink does.
pub fn write_plan<S: Sink>(net: &Net, plan: &Schedule, out: &mut S) -> Result<(), Failed>
    requires { length (rows_of plan.now) ≡ length (sources_of net.now) }
    ensures { Writes (S.state out.old) (S.state out.new) (plan_text (sources_of net.now) (rows_of plan.now)) result }
{
    for at in 0..net.source_count() {
        put_row(net.source(at), &plan.rows[at as usize], out)?;
    }
    Ok(())
}
