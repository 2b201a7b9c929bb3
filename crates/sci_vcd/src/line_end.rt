// What stands behind the digits on the line of a signal's value.

ghost use Rattle.std.specs.Prelude.{◌≡◌, ◌+◌, ◌≤◌, ◌++◌, drop, length};
ghost use Rattle.sci_vcd.specs.LaidDown.{end_text};

use crate::spell::{byte_before, digits_before, word_before};
use std::marker::Model;

/// The room for the end of a line: a word of 2 bytes, a number of at most 20 digits, and the end.
const ROOM: usize = 24;

/// What stands behind the digits on the line of a signal's value: the signal's number, and the end of the line.
#[derive(Drop)]
pub struct LineEnd {
    text: [u8; ROOM],
    start: u8,
}

impl Model for LineEnd {
    ghost use Rattle.std.specs.Prelude.{ℕ, List, ◌≤◌, drop};

    ghost Value = { List ℕ };

    ghost view = { λ e. drop e.start e.text };

    ghost invariant = { λ e. e.start ≤ 24 };
}

/// Puts it at the end of a text, and tells where it begins.
fn put_end(text: &mut [u8; ROOM], number: u64) -> usize
    ensures text { drop result text.new ≡ end_text number }
    ensures start { result ≤ 24 }
{
    let at = byte_before(text, ROOM, b'\n');
    let at = digits_before(text, at, number);
    word_before(text, at, " v")
}

/// Fills a text with an array. A copy of a slice would ask each time whether the two overlap.
fn fill_with(text: &mut [u8], bytes: &[u8; ROOM])
    requires { length text.old ≡ 24 }
    ensures { text.new ≡ bytes.now }
{
    let Some(room) = text.as_mut_array() else {
        unreachable!()
    };
    *room = *bytes;
}

/// An array before the bytes from `end` on, and where it begins.
fn array_before(line: &mut [u8], end: usize, bytes: &[u8; ROOM]) -> usize
    requires room { 24 ≤ end }
    requires within { end ≤ length line.old }
    ensures text { drop result line.new ≡ bytes.now ++ drop end line.old }
    ensures start { result + 24 ≡ end }
{
    let start = end - ROOM;
    fill_with(&mut line[start..end], bytes);
    start
}

impl LineEnd {
    /// That of the signal of this number.
    pub fn new(number: u64) -> LineEnd
        ensures { result ≡ end_text number }
    {
        let mut text = [0; ROOM];
        let start = put_end(&mut text, number);
        LineEnd {
            text,
            start: start as u8,
        }
    }

    /// Puts it before the bytes from `end` on, and tells where it begins.
    pub fn put_before(&self, line: &mut [u8], end: usize) -> usize
        requires room { 24 ≤ end }
        requires within { end ≤ length line.old }
        ensures text { drop result line.new ≡ self.now ++ drop end line.old }
        ensures room { end ≤ result + 24 }
        ensures start { result ≤ end }
    {
        let front = array_before(line, end, &self.text);
        front + self.start as usize
    }
}
