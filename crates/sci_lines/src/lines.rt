// Lines of a reaction that wait before a sink: that of its start or event, and those of its values.
ghost use Rattle.std.specs.Prelude.{◌≡◌, ◌+◌, ◌*◌, ◌<◌, ◌^◌, ◌≤◌, ◌++◌, [], codes, length, take, IfOk, OnErr};
ghost use Rattle.sci_io.specs.Taken.{Writes};
ghost use Rattle.sci_trace.specs.Lines.{line};
ghost use Rattle.sci_base.specs.declared.observation.Obs.TheVariants.{Start, Event};
ghost use Rattle.sci_lines.specs.Lines.{value_line, value_lines, IsHeader};
ghost use Rattle.sci_lines.specs.Threes.{AreThrees};
ghost use Rattle.sci_lines.specs.Paged.{paged, IsKeptBack, WaitsWithin};

use crate::digit_table::{DigitTable, ThreeDigits, integer_at, spaced_at};
use crate::head::Head;
use crate::pieces::byte_at;
use sci_base::{NoMemory, Obs};
use sci_io::{Failed, Sink};
use std::alloc::Global;
use std::marker::Model;

/// How many bytes there is room for.
const ROOM: usize = 4096;

/// The most bytes of the line of a value: its head of 24 bytes, a number of 21 and the end of the line.
const LONGEST_LINE: usize = 46;

/// Up to so many bytes there is room for the line of one value more.
const ONE_MORE: usize = 4050;

/// The line of the start of a run.
fn start_line(text: &mut [u8]) -> usize
    requires { 6 ≤ length text.old }
    ensures text { take result text.new ≡ line Start }
    ensures end { result ≡ 6 }
{
    text[..6].copy_from_slice("start\n".as_bytes());
    6
}

/// The word of the line of an event.
fn event_word(text: &mut [u8]) -> usize
    requires { 5 ≤ length text.old }
    ensures text { take result text.new ≡ codes "event" }
    ensures end { result ≡ 5 }
{
    text[..5].copy_from_slice("event".as_bytes());
    5
}

/// The line of an event.
fn event_line(numbers: &[ThreeDigits], text: &mut [u8], date: i64, block: i64, port: i64) -> usize
    requires numbers { AreThrees numbers.now }
    requires room { 72 ≤ length text.old }
    ensures text { take result text.new ≡ line (Event date block port) }
    ensures end { result ≤ 72 }
{
    let at = event_word(text);
    let at = spaced_at(numbers, text, at, date);
    let at = spaced_at(numbers, text, at, block);
    let at = spaced_at(numbers, text, at, port);
    byte_at(text, at, b'\n')
}

/// The line of a value, at most 46 bytes, behind what stands before it.
#[inline(always)]
fn line_at(numbers: &[ThreeDigits], text: &mut [u8], at: usize, head: &Head, value: i64) -> usize
    requires numbers { AreThrees numbers.now }
    requires room { at + 46 ≤ length text.old }
    ensures text { take result text.new ≡ take at text.old ++ value_line head.now value }
    ensures end { result ≤ at + 46 }
{
    let at = head.put_at(text, at);
    let at = integer_at(numbers, text, at, value);
    byte_at(text, at, b'\n')
}

/// The lines of values behind what stands before them.
#[inline(always)]
fn lines_at(
    numbers: &[ThreeDigits],
    text: &mut [u8],
    start: usize,
    heads: &[Head],
    values: &[i64],
) -> usize
    requires numbers { AreThrees numbers.now }
    requires one_each { length heads.now ≡ length values.now }
    requires room { start + 46 * length values.now ≤ length text.old }
    requires small { length text.old < 2 ^ 63 }
    ensures text { take result text.new ≡ take start text.old ++ value_lines heads.now values.now }
    ensures end { result ≤ start + 46 * length values.now }
{
    let mut end = start;
    for at in 0..values.len() {
        end = line_at(numbers, text, end, &heads[at], values[at]);
    }
    end
}

/// Lines of a reaction that wait before a sink: that of its start or event, and those of its values.
#[derive(Drop)]
pub struct Lines {
    text: Vec<u8>,
    len: usize,
    digits: DigitTable,
}

impl Model for Lines {
    ghost use Rattle.std.specs.Prelude.{ℕ, List, ◌≡◌, ◌≤◌, take, length};

    ghost Value = { List ℕ };

    ghost view = { λ l. take l.len l.text.items };

    ghost invariant = { λ l. (length l.text.items ≡ 4096) × (l.len ≤ 4096) };
}

impl Lines {
    /// No line waits.
    pub fn new(alloc: Global) -> Result<Lines, NoMemory>
        ensures { IfOk result (λ l. l ≡ []) }
    {
        let text = vec![in alloc; 0; ROOM]?;
        let digits = DigitTable::new(alloc)?;
        Ok(Lines {
            text,
            len: 0,
            digits,
        })
    }

    /// The line of a start or of an event waits, alone: what waited before is forgotten.
    pub fn begin(&mut self, o: &Obs)
        requires { IsHeader o.now }
        ensures { self.new ≡ line o.now }
    {
        self.len = match *o {
            Obs::Start => start_line(&mut self.text),
            Obs::Event(date, block, port) => event_line(
                self.digits.numbers(),
                &mut self.text,
                date,
                block,
                port,
            ),
            _ => unreachable!(),
        };
    }

    /// Gives what waits to the sink.
    pub fn give<S: Sink>(&mut self, out: &mut S) -> Result<(), Failed>
        ensures given { Writes (paged (S.state out.old) self.old) (paged (S.state out.new) self.new) [] result }
        ensures empty { self.new ≡ [] }
    {
        if self.len == 0 {
            return Ok(());
        }
        let given = out.put(&self.text[..self.len]);
        self.len = 0;
        given
    }

    // Adds a line, for which there is room.
    #[inline(always)]
    fn add(&mut self, head: &Head, value: i64)
        requires { length self.old ≤ 4050 }
        ensures { self.new ≡ self.old ++ (value_line head.now value) }
    {
        self.len = line_at(self.digits.numbers(), &mut self.text, self.len, head, value);
    }

    // Adds lines, for which there is room.
    #[inline(always)]
    fn add_all(&mut self, heads: &[Head], values: &[i64])
        requires one_each { length heads.now ≡ length values.now }
        requires room { length self.old + 46 * length values.now ≤ 4096 }
        ensures { self.new ≡ self.old ++ value_lines heads.now values.now }
    {
        self.len = lines_at(
            self.digits.numbers(),
            &mut self.text,
            self.len,
            heads,
            values,
        );
    }

    // Writes the line of a value behind its start; where there is no room for it, what waits is given to the sink first.
    #[inline(always)]
    fn put<S: Sink>(&mut self, head: &Head, value: i64, out: &mut S) -> Result<(), Failed>
        ensures written { Writes (paged (S.state out.old) self.old) (paged (S.state out.new) self.new) (value_line head.now value) result }
        ensures emptied { OnErr result (self.new ≡ []) }
        ensures waits { length self.old ≤ 4050 → IsKeptBack (S.state out.old) (S.state out.new) self.old self.new (value_line head.now value) result }
    {
        if self.len > ONE_MORE {
            self.give(out)?;
        }
        self.add(head, value);
        Ok(())
    }

    // Writes the lines of values, each behind its start; where there is no room for one, what waits is given to the sink first.
    #[inline(never)]
    fn put_each<S: Sink>(
        &mut self,
        heads: &[Head],
        values: &[i64],
        out: &mut S,
    ) -> Result<(), Failed>
        requires { length heads.now ≡ length values.now }
        ensures written { Writes (paged (S.state out.old) self.old) (paged (S.state out.new) self.new) (value_lines heads.now values.now) result }
        ensures emptied { OnErr result (self.new ≡ []) }
        ensures waits { WaitsWithin 4050 (S.state out.old) (S.state out.new) self.old self.new (value_lines heads.now values.now) result }
    {
        for at in 0..values.len() {
            self.put(&heads[at], values[at], out)?;
        }
        Ok(())
    }

    /// Writes the lines of values, each behind its start; where there is no room for one, what waits is given to the sink first. Where there is room
    /// for all of them, at most 4,050 bytes with what waits already, nothing is given on.
    #[inline(always)]
    pub fn put_all<S: Sink>(
        &mut self,
        heads: &[Head],
        values: &[i64],
        out: &mut S,
    ) -> Result<(), Failed>
        requires { length heads.now ≡ length values.now }
        ensures written { Writes (paged (S.state out.old) self.old) (paged (S.state out.new) self.new) (value_lines heads.now values.now) result }
        ensures emptied { OnErr result (self.new ≡ []) }
        ensures waits { WaitsWithin 4050 (S.state out.old) (S.state out.new) self.old self.new (value_lines heads.now values.now) result }
    {
        if values.len() <= (ROOM - self.len) / LONGEST_LINE {
            self.add_all(heads, values);
            return Ok(());
        }
        self.put_each(heads, values, out)
    }
}
