// A sink that compares what it is given.
ghost use Rattle.std.specs.Prelude.{◌≡◌, ◌<◌, ◌≤◌, ◌^◌, ◌↔◌, ◌+◌, ◌++◌, ◌∷◌, [], true, false, length, slice_index, if◌then◌else◌, None, Some, IsTrue};
ghost use Rattle.sci_io.specs.Causes.{counted};
ghost use Rattle.sci_io.specs.Taken.{TakesFront};
ghost use Rattle.sci_agree.specs.Lines.{is_line_feed, lines_of};
ghost use Rattle.sci_agree.specs.Verdict.{IsVerdict};

use crate::verdict::Verdict;
use sci_io::{Failed, Sink};
use std::marker::Model;

// Of how many bytes the lines are counted together, in a byte, which can hold their number.
const FRONT: usize = 192;

/// A sink that compares what it is given with a text. It takes what agrees with the text, and the first byte that doesn't or that
/// stands behind the text's end; from that byte on each call of `put` fails. It takes no memory.
#[derive(Drop)]
pub struct Comparing<'a> {
    text: &'a [u8],
    // how many bytes agree
    at: usize,
    // how many lines these are
    lines: u64,
    // the first byte that doesn't agree
    wrong: Option<u8>,
    faults: u64,
    failing: bool,
}

impl<'a> Model for Comparing<'a> {
    ghost use Rattle.sci_agree.specs.Compared.{Compared, IsCompared};

    ghost Value = { Compared };

    ghost view = { λ s. record { text = s.text.now; at = s.at; lines = s.lines; wrong = s.wrong; faults = s.faults; failing = s.failing } };

    ghost invariant = { λ s. IsCompared (record { text = s.text.now; at = s.at; lines = s.lines; wrong = s.wrong; faults = s.faults; failing = s.failing }) };
}

// How many lines a byte ends.
fn lines_ended(byte: u8) -> u64
    ensures value { result ≡ (if is_line_feed byte then 1 else 0) }
    ensures small { result < 2 }
{
    if byte == b'\n' { 1 } else { 0 }
}

// How many lines the front of a piece ends. The count is a byte, so that the machine may look at many bytes side by side.
fn front_lines(front: &[u8]) -> u8
    requires { length front.now ≤ 192 }
    ensures { result ≡ lines_of front.now }
{
    let mut lines: u8 = 0;
    for byte in front {
        let ended = lines_ended(*byte);
        lines += ended as u8;
    }
    lines
}

// How many lines a piece ends.
fn lines_within(piece: &[u8]) -> u64
    ensures { result ≡ lines_of piece.now }
{
    let mut lines = 0;
    let mut rest = piece;
    while !rest.is_empty() {
        let (front, behind) = rest.split_at(rest.len().min(FRONT));
        let few = front_lines(front);
        lines += few as u64;
        rest = behind;
    }
    lines
}

impl<'a> Comparing<'a> {
    ghost use Rattle.std.specs.Prelude.{ℕ, List};
    ghost use Rattle.sci_agree.specs.Compared.{IsCompared, taken_by, WasGiven};

    /// Compares with this text, from its beginning.
    pub fn new(text: &'a [u8]) -> Comparing<'a>
        ensures { result ≡ record { text = text.now; at = 0; lines = 0; wrong = None; faults = 0; failing = false } }
    {
        Comparing {
            text,
            at: 0,
            lines: 0,
            wrong: None,
            faults: 0,
            failing: false,
        }
    }

    // What holds of every such sink.
    fn well_formed(&self)
        ensures { IsCompared self.now }
    {
        let _at = self.at;
    }

    // Whether this is the text's next byte.
    fn is_next(&self, byte: u8) -> bool
        ensures { IsTrue result ↔ ((self.now.at < length self.now.text) × (slice_index self.now.text self.now.at ≡ byte)) }
    {
        self.at < self.text.len() && self.text[self.at] == byte
    }

    // Takes a byte, and tells whether it agrees.
    fn take(&mut self, byte: u8) -> bool
        requires { self.old.wrong ≡ None }
        ensures taken { taken_by self.new ≡ taken_by self.old ++ byte ∷ [] }
        ensures agrees { result ≡ true → (self.new.wrong ≡ None) × (self.new.faults ≡ self.old.faults) }
        ensures failed { result ≡ false → self.new.faults ≡ counted self.old.faults }
        ensures text { self.new.text ≡ self.old.text }
    {
        if self.is_next(byte) {
            self.at += 1;
            self.lines += lines_ended(byte);
            return true;
        }
        self.wrong = Some(byte);
        self.faults = self.faults.saturating_add(1);
        false
    }

    // Takes a piece that all agrees, and nothing of one that doesn't. Whether all of it agrees.
    fn take_whole(&mut self, piece: &[u8]) -> bool
        requires { self.old.wrong ≡ None }
        ensures all { result ≡ true → taken_by self.new ≡ taken_by self.old ++ piece.now }
        ensures right { self.new.wrong ≡ None }
        ensures none { result ≡ false → self.new ≡ self.old }
        ensures faults { self.new.faults ≡ self.old.faults }
        ensures text { self.new.text ≡ self.old.text }
    {
        if !self.text[self.at..].starts_with(piece) {
            return false;
        }
        self.at += piece.len();
        self.lines += lines_within(piece);
        true
    }

    // Takes a piece byte by byte, or a front of it that ends with its first byte that doesn't agree. Whether all of it agrees.
    fn compare_bytes(&mut self, piece: &[u8]) -> bool
        requires { self.old.wrong ≡ None }
        ensures all { result ≡ true → taken_by self.new ≡ taken_by self.old ++ piece.now }
        ensures front { result ≡ false → TakesFront (Some (taken_by self.old)) (Some (taken_by self.new)) piece.now }
        ensures agrees { result ≡ true → self.new.faults ≡ self.old.faults }
        ensures failed { result ≡ false → self.new.faults ≡ counted self.old.faults }
        ensures text { self.new.text ≡ self.old.text }
    {
        for byte in piece {
            if !self.take(*byte) {
                return false;
            }
        }
        true
    }

    // Takes a piece, or a front of it that ends with its first byte that doesn't agree. Whether all of it agrees.
    fn compare(&mut self, piece: &[u8]) -> bool
        requires { self.old.wrong ≡ None }
        ensures all { result ≡ true → taken_by self.new ≡ taken_by self.old ++ piece.now }
        ensures front { result ≡ false → TakesFront (Some (taken_by self.old)) (Some (taken_by self.new)) piece.now }
        ensures agrees { result ≡ true → self.new.faults ≡ self.old.faults }
        ensures failed { result ≡ false → self.new.faults ≡ counted self.old.faults }
        ensures text { self.new.text ≡ self.old.text }
    {
        self.take_whole(piece) || self.compare_bytes(piece)
    }

    // Whether everything that was given agrees, and nothing of the text is left.
    fn is_whole(&self) -> bool
        ensures { IsTrue result ↔ ((self.now.wrong ≡ None) × (self.now.at ≡ length self.now.text)) }
    {
        self.wrong.is_none() && self.at == self.text.len()
    }

    // How many lines agree.
    fn lines(&self) -> u64
        ensures lines { result ≡ self.now.lines }
        ensures small { result < 2 ^ 63 }
    {
        self.lines
    }

    /// The verdict on the text, once all of what is due was given, or a front of it up to a call that failed.
    pub fn verdict(&self) -> Verdict
        ensures { (due : List ℕ) → WasGiven due self.now → IsVerdict due self.now.text result }
    {
        self.well_formed();
        if self.is_whole() {
            Verdict::Yes(self.lines())
        } else {
            Verdict::No(self.lines() + 1)
        }
    }
}

impl<'a> Sink for Comparing<'a> {
    ghost use Rattle.std.specs.Prelude.{◌≡◌, ◌<◌, [], length, false, IsOk, OnOk, OnErr};
    ghost use Rattle.sci_io.specs.Causes.{counted};
    ghost use Rattle.sci_io.specs.Taken.{Writes};
    ghost use Rattle.sci_agree.specs.Compared.{state_of};

    ghost state = { λ s. state_of s };

    fn put(&mut self, piece: &[u8]) -> Result<(), Failed>
        requires { 0 < length piece.now }
        ensures written { Writes (state_of self.old) (state_of self.new) piece.now result }
        ensures works { OnOk result ((state_of self.new).failing ≡ false) }
        ensures counted { OnErr result (self.new.faults ≡ counted self.old.faults) }
        ensures text { self.new.text ≡ self.old.text }
    {
        if self.wrong.is_some() {
            self.faults = self.faults.saturating_add(1);
            self.failing = true;
            return Err(Failed);
        }
        self.failing = !self.compare(piece);
        if self.failing { Err(Failed) } else { Ok(()) }
    }

    fn flush(&mut self) -> Result<(), Failed>
        ensures written { Writes (state_of self.old) (state_of self.new) [] result }
        ensures all { OnOk result ((state_of self.new).held ≡ []) }
        ensures works { OnOk result ((state_of self.new).failing ≡ false) }
        ensures sure { IsOk result }
        ensures kept { self.new ≡ record self.old { failing = false } }
    {
        self.failing = false;
        Ok(())
    }

    fn take_unseen(&mut self) -> bool {
        false
    }
}
