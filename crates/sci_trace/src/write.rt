ghost use Rattle.std.specs.Prelude.{◌≡◌, ◌≤◌, ◌+◌, ◌++◌, ◌∷◌, [], codes, drop, length};
ghost use Rattle.std.specs.Fmt.{decimal, signed_decimal};
ghost use Rattle.sci_io.specs.Taken.{Writes};
ghost use Rattle.sci_base.specs.declared.observation.Obs.TheVariants.{Start, Event, Val, End, Stop};
ghost use Rattle.sci_base.specs.declared.observation.StopWord.TheVariants.{Conflict};
ghost use Rattle.sci_trace.specs.Lines.{line, numbers, end_text};

use itoa::write_digits;
use sci_base::{EndWord, Obs, StopWord};
use sci_io::{Failed, Sink};

/// The room for a line. The longest has a word and four numbers of 20 characters.
const ROOM: usize = 96;

// A line is made from its end to its front. Each of these puts something before the bytes from `end` on, and tells where it begins; a
// place of its own for that would have to be read and written anew for each byte.

/// The end of a line.
fn end_line(line: &mut [u8; ROOM]) -> usize
    ensures text { drop result line.new ≡ numbers [] }
    ensures start { result ≡ 95 }
{
    line[ROOM - 1] = b'\n';
    ROOM - 1
}

/// A byte.
fn byte_before(line: &mut [u8; ROOM], end: usize, byte: u8) -> usize
    requires room { 1 ≤ end }
    requires within { end ≤ 96 }
    ensures text { drop result line.new ≡ byte ∷ drop end line.old }
    ensures start { result + 1 ≡ end }
{
    line[end - 1] = byte;
    end - 1
}

/// The digits of a number, at most 20.
fn digits_before(line: &mut [u8; ROOM], end: usize, n: u64) -> usize
    requires room { 20 ≤ end }
    requires within { end ≤ 96 }
    ensures text { drop result line.new ≡ decimal n ++ drop end line.old }
    ensures room { end ≤ result + 20 }
    ensures within { result ≤ end }
{
    if n < 10 {
        return byte_before(line, end, b'0' + n as u8);
    }
    write_digits(n, line, end)
}

/// A number with its sign.
fn signed_before(line: &mut [u8; ROOM], end: usize, n: i64) -> usize
    requires room { 21 ≤ end }
    requires within { end ≤ 96 }
    ensures text { drop result line.new ≡ signed_decimal n ++ drop end line.old }
    ensures room { end ≤ result + 21 }
    ensures within { result ≤ end }
{
    let start = digits_before(line, end, n.unsigned_abs());
    if n < 0 {
        return byte_before(line, start, b'-');
    }
    start
}

/// A number, and a space before it.
fn number_before(line: &mut [u8; ROOM], end: usize, n: i64) -> usize
    requires room { 22 ≤ end }
    requires within { end ≤ 96 }
    ensures text { drop result line.new ≡ codes " " ++ (signed_decimal n ++ drop end line.old) }
    ensures room { end ≤ result + 22 }
    ensures within { result ≤ end }
{
    let start = signed_before(line, end, n);
    byte_before(line, start, b' ')
}

/// A word.
fn word_before(line: &mut [u8; ROOM], end: usize, word: &str) -> usize
    requires room { length word.now ≤ end }
    requires within { end ≤ 96 }
    ensures text { drop result line.new ≡ word.now ++ drop end line.old }
    ensures start { result + length word.now ≡ end }
{
    let start = end - word.len();
    line[start..end].copy_from_slice(word.as_bytes());
    start
}

/// What stands from a place on.
fn line_from(line: &[u8; ROOM], start: usize) -> &[u8]
    requires { start ≤ 96 }
    ensures { result.now ≡ drop start line.now }
{
    &line[start..]
}

/// Writes the line of an observation, in one piece.
pub fn write_obs<S: Sink>(o: &Obs, out: &mut S) -> Result<(), Failed>
    ensures { Writes (S.state out.old) (S.state out.new) (line o.now) result }
{
    match *o {
        Obs::Start => write_start(out),
        Obs::Event(date, block, port) => write_event(date, block, port, out),
        Obs::Val(block, port, element, value) => write_value(block, port, element, value, out),
        Obs::End(word) => write_end(word, out),
        Obs::Stop(word, block, port) => write_stop(word, block, port, out),
    }
}

fn write_start<S: Sink>(out: &mut S) -> Result<(), Failed>
    ensures { Writes (S.state out.old) (S.state out.new) (line Start) result }
{
    out.put("start\n".as_bytes())
}

fn write_event<S: Sink>(date: i64, block: i64, port: i64, out: &mut S) -> Result<(), Failed>
    ensures { Writes (S.state out.old) (S.state out.new) (line (Event date block port)) result }
{
    let mut line = [0; ROOM];
    let at = end_line(&mut line);
    let at = number_before(&mut line, at, port);
    let at = number_before(&mut line, at, block);
    let at = number_before(&mut line, at, date);
    let at = word_before(&mut line, at, "event");
    out.put(line_from(&line, at))
}

/// Writes the line of a value: of `block`, `port` and `element`.
pub fn write_value<S: Sink>(
    block: i64,
    port: i64,
    element: i64,
    value: i64,
    out: &mut S,
) -> Result<(), Failed>
    ensures { Writes (S.state out.old) (S.state out.new) (line (Val block port element value)) result }
{
    let mut line = [0; ROOM];
    let at = end_line(&mut line);
    let at = number_before(&mut line, at, value);
    let at = number_before(&mut line, at, element);
    let at = number_before(&mut line, at, port);
    let at = number_before(&mut line, at, block);
    let at = word_before(&mut line, at, "val");
    out.put(line_from(&line, at))
}

fn end_text(word: EndWord) -> &'static str
    ensures { result.now ≡ end_text word }
{
    match word {
        EndWord::Halt => "halt",
        EndWord::Events => "events",
        EndWord::Empty => "empty",
        EndWord::Until => "until",
    }
}

fn write_end<S: Sink>(word: EndWord, out: &mut S) -> Result<(), Failed>
    ensures { Writes (S.state out.old) (S.state out.new) (line (End word)) result }
{
    let text = end_text(word);
    let mut line = [0; ROOM];
    let at = end_line(&mut line);
    let at = word_before(&mut line, at, text);
    let at = word_before(&mut line, at, "end ");
    out.put(line_from(&line, at))
}

fn write_stop<S: Sink>(word: StopWord, block: i64, port: i64, out: &mut S) -> Result<(), Failed>
    ensures { Writes (S.state out.old) (S.state out.new) (line (Stop word block port)) result }
{
    match word {
        StopWord::Overflow => write_stop_at("overflow", block, out),
        StopWord::Zero => write_stop_at("zero", block, out),
        StopWord::Input => write_stop_at("input", block, out),
        StopWord::Conflict => write_conflict(block, port, out),
    }
}

fn write_stop_at<S: Sink>(word: &str, block: i64, out: &mut S) -> Result<(), Failed>
    requires { length word.now ≤ 8 }
    ensures { Writes (S.state out.old) (S.state out.new) (codes "stop " ++ (word.now ++ numbers (block ∷ []))) result }
{
    let mut line = [0; ROOM];
    let at = end_line(&mut line);
    let at = number_before(&mut line, at, block);
    let at = word_before(&mut line, at, word);
    let at = word_before(&mut line, at, "stop ");
    out.put(line_from(&line, at))
}

fn write_conflict<S: Sink>(block: i64, port: i64, out: &mut S) -> Result<(), Failed>
    ensures { Writes (S.state out.old) (S.state out.new) (line (Stop Conflict block port)) result }
{
    let mut line = [0; ROOM];
    let at = end_line(&mut line);
    let at = number_before(&mut line, at, port);
    let at = number_before(&mut line, at, block);
    let at = word_before(&mut line, at, "stop conflict");
    out.put(line_from(&line, at))
}
