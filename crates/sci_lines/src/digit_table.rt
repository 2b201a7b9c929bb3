// Numbers in digits, three digits at once.
ghost use Rattle.std.specs.Prelude.{◌≡◌, ◌+◌, ◌<◌, ◌≤◌, ◌++◌, codes, length, take};
ghost use Rattle.std.specs.Fmt.{decimal, signed_decimal};
ghost use Rattle.sci_lines.specs.Threes.{spelled, AreThrees};

use crate::pieces::{array_at, byte_at, digits_at};
use sci_base::NoMemory;
use std::alloc::Global;
use std::marker::Model;

/// How many numbers have at most three digits.
const THOUSAND: u64 = 1000;

/// How many have at most six.
const MILLION: u64 = 1_000_000;

/// How many have at most nine.
const BILLION: u64 = 1_000_000_000;

/// How many have at most twelve.
const TRILLION: u64 = 1_000_000_000_000;

/// A number below 1,000 in digits.
#[derive(Drop)]
pub struct ThreeDigits {
    // its digits, and then anything
    short: [u8; 4],
    len: u8,
    // three digits with zeros in front, and a fourth byte, since four are copied at once, as of `short`
    whole: [u8; 4],
}

impl Model for ThreeDigits {
    ghost use Rattle.std.specs.Prelude.{◌≤◌, take};
    ghost use Rattle.sci_lines.specs.Threes.{Spelled};

    ghost Value = { Spelled };

    ghost view = { λ t. record { short = take t.len t.short; whole = take 3 t.whole } };

    ghost invariant = { λ t. t.len ≤ 4 };
}

impl ThreeDigits {
    /// Those of a number.
    fn new(n: u64) -> ThreeDigits
        requires { n < 1000 }
        ensures { result ≡ spelled n }
    {
        let mut short = [0; 4];
        let len = digits_at(&mut short, 0, n);
        let whole = [
            b'0' + (n / 100) as u8,
            b'0' + (n / 10 % 10) as u8,
            b'0' + (n % 10) as u8,
            0,
        ];
        ThreeDigits {
            short,
            len: len as u8,
            whole,
        }
    }

    /// Puts its digits behind what stands before them. The answer is where they end.
    #[inline(always)]
    fn short_at(&self, text: &mut [u8], at: usize) -> usize
        requires { at + 4 ≤ length text.old }
        ensures text { take result text.new ≡ take at text.old ++ self.now.short }
        ensures start { at ≤ result }
        ensures end { result ≤ at + 4 }
    {
        array_at(text, at, &self.short);
        at + self.len as usize
    }

    /// Puts its three digits behind what stands before them. The answer is where they end.
    #[inline(always)]
    fn whole_at(&self, text: &mut [u8], at: usize) -> usize
        requires { at + 4 ≤ length text.old }
        ensures text { take result text.new ≡ take at text.old ++ self.now.whole }
        ensures end { result ≡ at + 3 }
    {
        array_at(text, at, &self.whole);
        at + 3
    }
}

/// The digits of all numbers below 1,000, by which others are spelled.
#[derive(Drop)]
pub struct DigitTable {
    numbers: Vec<ThreeDigits>,
}

impl Model for DigitTable {
    ghost use Rattle.std.specs.Prelude.{List};
    ghost use Rattle.sci_lines.specs.Threes.{Spelled, AreThrees};

    ghost Value = { List Spelled };

    ghost view = { λ t. t.numbers.items };

    ghost invariant = { λ t. AreThrees t.numbers.items };
}

impl DigitTable {
    ghost use Rattle.std.specs.Prelude.{IfOk};
    ghost use Rattle.sci_lines.specs.Threes.{AreThrees};

    /// Those of all numbers below 1,000.
    pub fn new(alloc: Global) -> Result<DigitTable, NoMemory>
        ensures { IfOk result (λ t. AreThrees t) }
    {
        let mut numbers = Vec::with_capacity(alloc, THOUSAND as usize)?;
        for n in 0..THOUSAND {
            numbers.push(ThreeDigits::new(n))?;
        }
        Ok(DigitTable { numbers })
    }

    /// The digits of all numbers below 1,000, in their order.
    #[inline(always)]
    pub fn numbers(&self) -> &[ThreeDigits]
        ensures { AreThrees result.now }
    {
        &self.numbers
    }
}

// The calls below take the digits of all numbers below 1,000 as a slice, so that they stay at hand where several numbers are spelled.

/// Those of a number below 1,000.
#[inline(always)]
fn number(numbers: &[ThreeDigits], n: u64) -> &ThreeDigits
    requires numbers { AreThrees numbers.now }
    requires small { n < 1000 }
    ensures { result.now ≡ spelled n }
{
    &numbers[n as usize]
}

/// Puts the digits of a number, at most 20, behind what stands before them. The answer is where they end.
#[inline(always)]
pub fn natural_at(numbers: &[ThreeDigits], text: &mut [u8], at: usize, n: u64) -> usize
    requires numbers { AreThrees numbers.now }
    requires room { at + 20 ≤ length text.old }
    ensures text { take result text.new ≡ take at text.old ++ decimal n }
    ensures start { at ≤ result }
    ensures end { result ≤ at + 20 }
{
    if n < THOUSAND {
        return number(numbers, n).short_at(text, at);
    }
    if n < MILLION {
        let second = number(numbers, n / THOUSAND).short_at(text, at);
        return number(numbers, n % THOUSAND).whole_at(text, second);
    }
    if n < BILLION {
        let second = number(numbers, n / MILLION).short_at(text, at);
        let third = number(numbers, n / THOUSAND % THOUSAND).whole_at(text, second);
        return number(numbers, n % THOUSAND).whole_at(text, third);
    }
    if n < TRILLION {
        let second = number(numbers, n / BILLION).short_at(text, at);
        let third = number(numbers, n / MILLION % THOUSAND).whole_at(text, second);
        let fourth = number(numbers, n / THOUSAND % THOUSAND).whole_at(text, third);
        return number(numbers, n % THOUSAND).whole_at(text, fourth);
    }
    digits_at(text, at, n)
}

/// Puts a number with its sign, at most 21 bytes, behind what stands before it. The answer is where it ends.
#[inline(always)]
pub fn integer_at(numbers: &[ThreeDigits], text: &mut [u8], at: usize, n: i64) -> usize
    requires numbers { AreThrees numbers.now }
    requires room { at + 21 ≤ length text.old }
    ensures text { take result text.new ≡ take at text.old ++ signed_decimal n }
    ensures start { at ≤ result }
    ensures end { result ≤ at + 21 }
{
    // the sign is put in any case, and stays where there is one: which numbers have one can't be foreseen
    let behind = byte_at(text, at, b'-');
    let first = if n < 0 { behind } else { at };
    natural_at(numbers, text, first, n.unsigned_abs())
}

/// Puts a space, and a number behind it: at most 22 bytes.
#[inline(always)]
pub fn spaced_at(numbers: &[ThreeDigits], text: &mut [u8], at: usize, n: i64) -> usize
    requires numbers { AreThrees numbers.now }
    requires room { at + 22 ≤ length text.old }
    ensures text { take result text.new ≡ take at text.old ++ (codes " " ++ signed_decimal n) }
    ensures start { at ≤ result }
    ensures end { result ≤ at + 22 }
{
    let first = byte_at(text, at, b' ');
    integer_at(numbers, text, first, n)
}
