// The lines of signals' values, made from their ends to their fronts.

ghost use Rattle.std.specs.Prelude.{◌≡◌, ℕ, ◌+◌, ◌<◌, ◌≤◌, ◌++◌, [], drop, length, slice_index_or, IfOk};
ghost use Rattle.sci_text.specs.Lines.{with_lf};
ghost use Rattle.sci_vcd.specs.Waveforms.{no_signal};
ghost use Rattle.sci_vcd.specs.Spelling.{binary, bits, value_line};
ghost use Rattle.sci_vcd.specs.LaidDown.{end_text};

use crate::Signal;
use crate::line_end::LineEnd;
use crate::spell::{ROOM, byte_before, eight_before, eight_digits};
use sci_base::bits::pattern;
use sci_base::{NoMemory, Ty};
use std::alloc::Global;
use std::marker::Model;

/// How many numbers have eight binary digits at most.
const EIGHTS: u64 = 256;

/// Signals, with what is laid down for the lines of their values.
#[derive(Drop)]
pub struct SignalLines {
    signals: Vec<Signal>,
    // one for each signal
    ends: Vec<LineEnd>,
    // by number, its binary digits
    eights: Vec<[u8; 8]>,
}

impl Model for SignalLines {
    ghost use Rattle.std.specs.Prelude.{List, length};
    ghost use Rattle.sci_vcd.specs.declared.signal.Signal.{Signal};
    ghost use Rattle.sci_vcd.specs.LaidDown.{AreLaidDown};

    ghost Value = { List Signal };

    ghost view = { λ s. s.signals.items };

    ghost invariant = { λ s. AreLaidDown (length s.signals.items) s.ends.items s.eights.items };
}

/// What stands behind the digits on the lines of so many signals.
fn line_ends(alloc: Global, count: usize) -> Result<Vec<LineEnd>, NoMemory>
    ensures long { IfOk result (λ v. length v.items ≡ count) }
    ensures each { IfOk result (λ v. (k : ℕ) → k < count → slice_index_or v.items k [] ≡ end_text (k + 1)) }
{
    let mut ends = Vec::with_capacity(alloc, count)?;
    for at in 0..count {
        ends.push(LineEnd::new(at as u64 + 1))?;
    }
    Ok(ends)
}

/// The digits of all numbers below 256.
fn all_eights(alloc: Global) -> Result<Vec<[u8; 8]>, NoMemory>
    ensures long { IfOk result (λ v. length v.items ≡ 256) }
    ensures each { IfOk result (λ v. (k : ℕ) → k < 256 → slice_index_or v.items k [] ≡ binary 8 k) }
{
    let mut eights = Vec::with_capacity(alloc, EIGHTS as usize)?;
    for n in 0..EIGHTS {
        eights.push(eight_digits(n))?;
    }
    Ok(eights)
}

impl SignalLines {
    /// Those of these signals.
    pub fn new(alloc: Global, signals: Vec<Signal>) -> Result<SignalLines, NoMemory>
        ensures { IfOk result (λ s. s ≡ signals.items) }
    {
        let count = signals.len();
        let ends = line_ends(alloc, count)?;
        let eights = all_eights(alloc)?;
        Ok(SignalLines {
            signals,
            ends,
            eights,
        })
    }

    /// The signals.
    pub fn signals(&self) -> &[Signal]
        ensures { result.now ≡ self.now }
    {
        &self.signals
    }

    // The type of the signal at a place, counted from 0.
    fn ty(&self, at: usize) -> Ty
        requires { at < length self.now }
        ensures { result ≡ (slice_index_or self.now at no_signal).ty }
    {
        self.signals[at].ty
    }

    // What stands behind the digits on the line of its value.
    fn line_end(&self, at: usize) -> &LineEnd
        requires { at < length self.now }
        ensures { result.now ≡ end_text (at + 1) }
    {
        &self.ends[at]
    }

    // The digits of a number below 256.
    fn eight(&self, n: u64) -> &[u8; 8]
        requires { n < 256 }
        ensures { result.now ≡ binary 8 n }
    {
        &self.eights[n as usize]
    }

    // Each of these puts the last binary digits of a number before the bytes from `end` on, and tells where they begin.

    // Eight.
    #[inline(always)]
    fn eight_of(&self, line: &mut [u8], end: usize, n: u64) -> usize
        requires room { 8 ≤ end }
        requires within { end ≤ length line.old }
        ensures text { drop result line.new ≡ binary 8 n ++ drop end line.old }
        ensures start { result + 8 ≡ end }
    {
        eight_before(line, end, self.eight(n % 256))
    }

    // Sixteen.
    #[inline(always)]
    fn sixteen_of(&self, line: &mut [u8], end: usize, n: u64) -> usize
        requires room { 16 ≤ end }
        requires within { end ≤ length line.old }
        ensures text { drop result line.new ≡ binary 16 n ++ drop end line.old }
        ensures start { result + 16 ≡ end }
    {
        let at = self.eight_of(line, end, n);
        self.eight_of(line, at, n / 256)
    }

    // Thirty-two.
    fn thirty_two_of(&self, line: &mut [u8], end: usize, n: u64) -> usize
        requires room { 32 ≤ end }
        requires within { end ≤ length line.old }
        ensures text { drop result line.new ≡ binary 32 n ++ drop end line.old }
        ensures start { result + 32 ≡ end }
    {
        let at = self.sixteen_of(line, end, n);
        self.sixteen_of(line, at, n / 65_536)
    }

    // The digits of a value of a type.
    fn bits_before(&self, line: &mut [u8], end: usize, ty: Ty, value: i64) -> usize
        requires room { 32 ≤ end }
        requires within { end ≤ length line.old }
        ensures text { drop result line.new ≡ bits ty value ++ drop end line.old }
        ensures room { end ≤ result + 32 }
        ensures start { result ≤ end }
    {
        match ty {
            Ty::I32 | Ty::U32 => self.thirty_two_of(line, end, pattern(ty, value)),
            Ty::I16 | Ty::U16 => self.sixteen_of(line, end, pattern(ty, value)),
            Ty::I8 | Ty::U8 => self.eight_of(line, end, pattern(ty, value)),
        }
    }

    /// The line of a value of the signal at a place, counted from 0, before the bytes from `end` on. The answer is where it begins.
    pub fn value_before(&self, line: &mut [u8], end: usize, at: usize, value: i64) -> usize
        requires signal { at < length self.now }
        requires room { 57 ≤ end }
        requires within { end ≤ length line.old }
        ensures text { drop result line.new ≡ with_lf (value_line (slice_index_or self.now at no_signal).ty (at + 1) value) ++ drop end line.old }
        ensures room { end ≤ result + 57 }
        ensures start { result < end }
    {
        let ty = self.ty(at);
        let place = self.line_end(at).put_before(line, end);
        let place = self.bits_before(line, place, ty, value);
        byte_before(line, place, b'b')
    }

    /// The same, at the end of a line.
    pub fn value_line(&self, line: &mut [u8; ROOM], at: usize, value: i64) -> usize
        requires { at < length self.now }
        ensures text { drop result line.new ≡ with_lf (value_line (slice_index_or self.now at no_signal).ty (at + 1) value) }
        ensures start { result < 128 }
    {
        self.value_before(line, ROOM, at, value)
    }
}
