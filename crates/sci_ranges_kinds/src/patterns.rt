// Patterns of bits from a least to a greatest one, and what becomes of them bit by bit.
ghost use Rattle.std.specs.Prelude.{◌≡◌, ◌<◌, ◌≤◌, ◌+◌, ◌-◌, ◌^◌};
ghost use Rattle.sci_base.specs.Fit.{width, span};
ghost use Rattle.sci_base.specs.Bits.{turned_left};
ghost use Rattle.sci_ranges_rules.specs.Patterns.{patterns_from, has_one_sign, patterns_of, numbers_of, open_bits, lowest, highest, and_patterns};
ghost use Rattle.sci_ranges_rules.specs.Patterns.{or_patterns, xor_patterns, turned_over, turned_patterns, extracted, InType};
ghost use Rattle.sci_ranges_rules.specs.Words.{joined_by, turned_by};

use sci_base::Ty;
use sci_base::bits::{bits_from_to, pattern, turned_left, two_to};
use sci_ranges_base::fitting::wrapped;
use sci_ranges_base::{Interval, Wide};
use sci_ranges_rules::Patterns;

/// The pattern of all bits of a type.
pub fn ones(ty: Ty) -> u64
    ensures { result + 1 ≡ span ty }
{
    match ty {
        Ty::I32 | Ty::U32 => 4294967295,
        Ty::I16 | Ty::U16 => 65535,
        Ty::I8 | Ty::U8 => 255,
    }
}

/// All patterns of a type.
fn all_patterns(ty: Ty) -> Patterns
    ensures { result ≡ patterns_from 0 (span ty - 1) }
{
    Patterns {
        least: 0,
        greatest: ones(ty),
    }
}

/// One pattern alone.
pub fn one_pattern(p: u64) -> Patterns
    ensures { result ≡ patterns_from p p }
{
    Patterns {
        least: p,
        greatest: p,
    }
}

/// Whether all numbers of the interval are of the type, and all of them below 0 or none.
fn has_one_sign(ty: Ty, i: Interval) -> bool
    ensures { result ≡ has_one_sign ty i }
{
    if i.greatest < 0 {
        ty.low() <= i.least
    } else {
        0 <= i.least && i.greatest <= ty.high()
    }
}

/// The patterns of the numbers of an interval: those below 0 have greater patterns than the others.
pub fn patterns_of(ty: Ty, i: Interval) -> Patterns
    ensures { result ≡ patterns_of ty i }
{
    if has_one_sign(ty, i) {
        Patterns {
            least: pattern(ty, i.least),
            greatest: pattern(ty, i.greatest),
        }
    } else {
        all_patterns(ty)
    }
}

/// The least interval that has the numbers of these patterns.
pub fn numbers_of(ty: Ty, p: Patterns) -> Interval
    ensures { result ≡ numbers_of ty p }
{
    let wide = Wide::new(i128::from(p.least), i128::from(p.greatest));
    wrapped(ty, wide)
}

/// The greatest bit in which the patterns differ, with all below, are open: 2 to the `k`, less 1.
fn open_bits(ty: Ty, p: Patterns) -> u64
    requires { InType ty p }
    ensures value { result ≡ open_bits ty p }
    ensures few { result < span ty }
{
    let mut open = 0;
    let mut least = p.least;
    let mut greatest = p.greatest;
    for bit in 0..ty.width() {
        if least == greatest {
            return open;
        }
        least /= 2;
        greatest /= 2;
        open = 2 * open + 1;
    }
    open
}

/// The least pattern with the bits that all have in common.
fn lowest(ty: Ty, p: Patterns) -> u64
    requires { InType ty p }
    ensures value { result ≡ lowest ty p }
    ensures bits { result < span ty }
{
    let size = open_bits(ty, p) + 1;
    p.least - p.least % size
}

/// The greatest one.
fn highest(ty: Ty, p: Patterns) -> u64
    requires { InType ty p }
    ensures { result ≡ highest ty p }
{
    let least = lowest(ty, p);
    let open = open_bits(ty, p);
    least + open
}

/// The patterns with the bits that are 1 in one of the first and in one of the others.
pub fn and_patterns(ty: Ty, p: Patterns, q: Patterns) -> Patterns
    requires p { InType ty p }
    requires q { InType ty q }
    ensures { result ≡ and_patterns ty p q }
{
    Patterns {
        least: lowest(ty, p) & lowest(ty, q),
        greatest: p
            .greatest
            .min(q.greatest)
            .min(highest(ty, p) & highest(ty, q)),
    }
}

/// The patterns with the bits that are 1 in one of either.
pub fn or_patterns(ty: Ty, p: Patterns, q: Patterns) -> Patterns
    requires p { InType ty p }
    requires q { InType ty q }
    ensures { result ≡ or_patterns ty p q }
{
    Patterns {
        least: p.least.max(q.least).max(lowest(ty, p) | lowest(ty, q)),
        greatest: highest(ty, p) | highest(ty, q),
    }
}

/// The patterns with the bits in which one of the first and one of the others differ.
fn xor_patterns(ty: Ty, p: Patterns, q: Patterns) -> Patterns
    requires p { InType ty p }
    requires q { InType ty q }
    ensures { result ≡ xor_patterns ty p q }
{
    let open = open_bits(ty, p).max(open_bits(ty, q));
    let common = lowest(ty, p) ^ lowest(ty, q);
    let size = open + 1;
    let least = common - common % size;
    let greatest = least + open;
    Patterns { least, greatest }
}

/// Each bit turned over.
fn turned_over(ty: Ty, p: Patterns) -> Patterns
    requires { InType ty p }
    ensures { result ≡ turned_over ty p }
{
    let all = ones(ty);
    let least = all - p.greatest;
    let greatest = all - p.least;
    Patterns { least, greatest }
}

/// Turned left by some places: where the bits that go round are the same in all patterns, the ends are; else any pattern.
pub fn turned_patterns(ty: Ty, p: Patterns, places: u32) -> Patterns
    requires patterns { InType ty p }
    requires places { places < width ty }
    ensures { result ≡ turned_patterns ty places (λ q. turned_left ty q places) p }
{
    let round = two_to(ty.width() - places);
    let first = p.least / round;
    let last = p.greatest / round;
    if first == last {
        let least = turned_left(ty, p.least, places);
        let greatest = turned_left(ty, p.greatest, places);
        Patterns { least, greatest }
    } else {
        all_patterns(ty)
    }
}

/// Bits `a` to `b` as numbers: where the bits above them are the same in all patterns, from end to end; else any number.
pub fn extracted(p: Patterns, a: u32, b: u32) -> Patterns
    requires order { a ≤ b }
    requires few { b < 32 }
    ensures { result ≡ extracted a ((b - a) + 1) p }
{
    let above = two_to(b + 1);
    let first = p.least / above;
    let last = p.greatest / above;
    if first == last {
        let least = bits_from_to(p.least, a, b);
        let greatest = bits_from_to(p.greatest, a, b);
        Patterns { least, greatest }
    } else {
        let count = two_to(b - a + 1);
        Patterns {
            least: 0,
            greatest: count - 1,
        }
    }
}

/// How AND, OR, NAND, NOR, exclusive OR and NOT join patterns.
pub fn joined_by(ty: Ty, op: i64, p: Patterns, q: Patterns) -> Patterns
    requires p { InType ty p }
    requires q { InType ty q }
    ensures { result ≡ joined_by ty op p q }
{
    match op {
        0 | 2 => and_patterns(ty, p, q),
        4 => xor_patterns(ty, p, q),
        _ => or_patterns(ty, p, q),
    }
}

/// NAND, NOR and NOT turn over what is joined.
pub fn turned_by(ty: Ty, op: i64, p: Patterns) -> Patterns
    requires { InType ty p }
    ensures { result ≡ turned_by ty op p }
{
    match op {
        0 | 1 | 4 => p,
        _ => turned_over(ty, p),
    }
}
