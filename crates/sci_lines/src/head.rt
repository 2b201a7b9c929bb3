// The start of the line of a value.
ghost use Rattle.std.specs.Prelude.{◌≡◌, ◌+◌, ◌<◌, ◌≤◌, ◌++◌, codes, length, take};
ghost use Rattle.std.specs.Fmt.{decimal};
ghost use Rattle.sci_lines.specs.Lines.{start_text};

use crate::pieces::{array_at, byte_at, digits_at};
use std::marker::Model;

/// The room for the start of a line: a word, a block of at most four digits, a port of at most two and an element of at most five, each
/// behind a space, and a space.
const ROOM: usize = 24;

/// The start of the line of a value, up to the value.
#[derive(Drop)]
pub struct Head {
    text: [u8; ROOM],
    len: usize,
}

impl Model for Head {
    ghost use Rattle.std.specs.Prelude.{ℕ, List, ◌≤◌, take};

    ghost Value = { List ℕ };

    ghost view = { λ h. take h.len h.text };

    ghost invariant = { λ h. h.len ≤ 24 };
}

/// Writes the word of a value's line.
fn word(text: &mut [u8; ROOM]) -> usize
    ensures text { take result text.new ≡ codes "val" }
    ensures end { result ≡ 3 }
{
    let at = byte_at(text, 0, b'v');
    let at = byte_at(text, at, b'a');
    byte_at(text, at, b'l')
}

/// A space, and a number behind it.
fn spaced_number_at(text: &mut [u8; ROOM], at: usize, n: u32) -> usize
    requires { at + 1 + length (decimal n) ≤ 24 }
    ensures text { take result text.new ≡ take at text.old ++ (codes " " ++ decimal n) }
    ensures end { result ≡ at + 1 + length (decimal n) }
{
    let first = byte_at(text, at, b' ');
    digits_at(text, first, u64::from(n))
}

impl Head {
    /// The start of the line of an element of an output of a block, each counted from 1.
    pub fn new(block: u32, port: u32, element: u32) -> Head
        requires block { block < 10000 }
        requires port { port < 100 }
        requires element { element < 100000 }
        ensures { result ≡ start_text (record { block = block; port = port; element = element }) }
    {
        let mut text = [0; ROOM];
        let at = word(&mut text);
        let at = spaced_number_at(&mut text, at, block);
        let at = spaced_number_at(&mut text, at, port);
        let at = spaced_number_at(&mut text, at, element);
        let len = byte_at(&mut text, at, b' ');
        Head { text, len }
    }

    /// Puts the start of the line behind what stands before it, in a text with room for 24 bytes more. The answer is where it ends.
    #[inline(always)]
    pub fn put_at(&self, text: &mut [u8], at: usize) -> usize
        requires { at + 24 ≤ length text.old }
        ensures text { take result text.new ≡ take at text.old ++ self.now }
        ensures start { at ≤ result }
        ensures end { result ≤ at + 24 }
    {
        array_at(text, at, &self.text);
        at + self.len
    }
}
