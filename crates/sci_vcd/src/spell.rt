// A line, made from its end to its front.

ghost use Rattle.std.specs.Prelude.{◌≡◌, ◌≤◌, ◌<◌, ◌^◌, ◌+◌, ◌*◌, ◌++◌, ◌∷◌, codes, drop, length};
ghost use Rattle.std.specs.Fmt.{decimal};
ghost use Rattle.sci_io.specs.Taken.{Writes};
ghost use Rattle.sci_vcd.specs.Spelling.{binary, type_text, name_text, signal_line, tick_line};
ghost use Rattle.sci_text.specs.Lines.{with_lf};

use crate::Signal;
use itoa::write_digits;
use sci_base::Ty;
use sci_io::{Failed, Sink};
use std::simd::Simd;

/// The room for a line. The longest has three words and four numbers of 20 characters.
pub const ROOM: usize = 128;

// Each of these puts something before the bytes from `end` on, and tells where it begins.

/// The end of a line.
pub fn end_line(line: &mut [u8; ROOM]) -> usize
    ensures text { drop result line.new ≡ codes "\n" }
    ensures start { result ≡ 127 }
{
    line[ROOM - 1] = b'\n';
    ROOM - 1
}

/// A byte.
pub fn byte_before(line: &mut [u8], end: usize, byte: u8) -> usize
    requires room { 1 ≤ end }
    requires within { end ≤ length line.old }
    ensures text { drop result line.new ≡ byte ∷ drop end line.old }
    ensures start { result + 1 ≡ end }
{
    line[end - 1] = byte;
    end - 1
}

/// The digits of a number, at most 20.
pub fn digits_before(line: &mut [u8], end: usize, n: u64) -> usize
    requires room { 20 ≤ end }
    requires within { end ≤ length line.old }
    ensures text { drop result line.new ≡ decimal n ++ drop end line.old }
    ensures room { end ≤ result + 20 }
    ensures within { result ≤ end }
{
    if n < 10 {
        return byte_before(line, end, b'0' + n as u8);
    }
    write_digits(n, line, end)
}

/// A word.
pub fn word_before(line: &mut [u8], end: usize, word: &str) -> usize
    requires room { length word.now ≤ end }
    requires within { end ≤ length line.old }
    ensures text { drop result line.new ≡ word.now ++ drop end line.old }
    ensures start { result + length word.now ≡ end }
{
    let start = end - word.len();
    line[start..end].copy_from_slice(word.as_bytes());
    start
}

/// The last four binary digits of a number.
fn four_digits(n: u64) -> [u8; 4]
    ensures { result ≡ binary 4 n }
{
    match n % 16 {
        0 => *b"0000",
        1 => *b"0001",
        2 => *b"0010",
        3 => *b"0011",
        4 => *b"0100",
        5 => *b"0101",
        6 => *b"0110",
        7 => *b"0111",
        8 => *b"1000",
        9 => *b"1001",
        10 => *b"1010",
        11 => *b"1011",
        12 => *b"1100",
        13 => *b"1101",
        14 => *b"1110",
        _ => *b"1111",
    }
}

/// Four digits.
fn four_before(line: &mut [u8], end: usize, digits: [u8; 4]) -> usize
    requires room { 4 ≤ end }
    requires within { end ≤ length line.old }
    ensures text { drop result line.new ≡ digits ++ drop end line.old }
    ensures start { result + 4 ≡ end }
{
    let start = end - 4;
    line[start..end].copy_from_slice(&digits);
    start
}

/// Puts the last eight binary digits of a number into a text. The answer is 0, where they begin.
fn eight_into(text: &mut [u8; 8], n: u64) -> usize
    ensures text { text.new ≡ binary 8 n }
    ensures start { result ≡ 0 }
{
    let at = four_before(text, 8, four_digits(n));
    four_before(text, at, four_digits(n / 16))
}

/// The last eight binary digits of a number.
pub fn eight_digits(n: u64) -> [u8; 8]
    ensures { result ≡ binary 8 n }
{
    let mut text = [0; 8];
    let _start = eight_into(&mut text, n);
    text
}

// Eight bytes at once.
fn put_eight(text: &mut [u8], digits: &[u8; 8])
    requires { length text.old ≡ 8 }
    ensures len { length text.new ≡ 8 }
    ensures text { text.new ≡ digits.now }
{
    Simd::<u8, 8>::from_array(*digits).copy_to_slice(text);
}

/// Eight digits.
pub fn eight_before(line: &mut [u8], end: usize, digits: &[u8; 8]) -> usize
    requires room { 8 ≤ end }
    requires within { end ≤ length line.old }
    ensures text { drop result line.new ≡ digits.now ++ drop end line.old }
    ensures start { result + 8 ≡ end }
{
    let start = end - 8;
    put_eight(&mut line[start..end], digits);
    start
}

/// A signal's name.
pub fn name_before(line: &mut [u8], end: usize, signal: &Signal) -> usize
    requires room { 63 ≤ end }
    requires within { end ≤ length line.old }
    ensures text { drop result line.new ≡ name_text signal.now ++ drop end line.old }
    ensures room { end ≤ result + 63 }
    ensures within { result ≤ end }
{
    let at = digits_before(line, end, u64::from(signal.element));
    let at = byte_before(line, at, b'_');
    let at = digits_before(line, at, u64::from(signal.port));
    let at = byte_before(line, at, b'_');
    let at = digits_before(line, at, u64::from(signal.block));
    byte_before(line, at, b'b')
}

/// A variable's kind, and its width in bits.
pub fn type_word(ty: Ty) -> &'static str
    ensures text { result.now ≡ type_text ty }
    ensures short { length result.now ≤ 10 }
{
    match ty {
        Ty::I32 => "integer 32",
        Ty::I16 => "integer 16",
        Ty::I8 => "integer 8",
        Ty::U32 => "wire 32",
        Ty::U16 => "wire 16",
        Ty::U8 => "wire 8",
    }
}

// Each of these makes a whole line, and tells where it begins.

/// The line of a signal, by its number.
pub fn signal_line(line: &mut [u8; ROOM], number: u32, signal: &Signal) -> usize
    ensures text { drop result line.new ≡ with_lf (signal_line number signal.now) }
    ensures within { result < 128 }
{
    let at = end_line(line);
    let at = word_before(line, at, " $end");
    let at = name_before(line, at, signal);
    let at = byte_before(line, at, b' ');
    let at = digits_before(line, at, u64::from(number));
    let at = word_before(line, at, " v");
    let at = word_before(line, at, type_word(signal.ty));
    word_before(line, at, "$var ")
}

/// The line of a tick, before the bytes from `end` on.
pub fn tick_before(line: &mut [u8], end: usize, tick: u64) -> usize
    requires room { 22 ≤ end }
    requires within { end ≤ length line.old }
    ensures text { drop result line.new ≡ with_lf (tick_line tick) ++ drop end line.old }
    ensures start { result < end }
{
    let at = byte_before(line, end, b'\n');
    let at = digits_before(line, at, tick);
    byte_before(line, at, b'#')
}

/// What stands from a place on.
pub fn line_from(line: &[u8; ROOM], start: usize) -> &[u8]
    requires { start ≤ 128 }
    ensures { result.now ≡ drop start line.now }
{
    &line[start..]
}

/// Writes the name of a signal, and nothing after it.
pub fn write_name<S: Sink>(signal: &Signal, out: &mut S) -> Result<(), Failed>
    ensures { Writes (S.state out.old) (S.state out.new) (name_text signal.now) result }
{
    let mut line = [0; ROOM];
    let at = name_before(&mut line, ROOM, signal);
    out.put(line_from(&line, at))
}
