// Patterns of bits.
ghost use Rattle.std.specs.Prelude.{◌≡◌, ◌<◌, ◌≤◌, ◌^◌, ◌*◌, ◌+◌, pos};
ghost use Rattle.sci_base.specs.Fit.{span};
ghost use Rattle.sci_base.specs.Bits.{pattern, from_pattern, set_bit, clear_bit, bits_from_to, turned_left};

use crate::{Mode, Ty, fit_wide};

/// 2 to the `k`.
pub fn two_to(k: u32) -> u64
    requires { k < 64 }
    ensures { result ≡ 2 ^ k }
{
    1 << k
}

/// The number modulo 2 to the width.
pub fn pattern(t: Ty, v: i64) -> u64
    ensures { result ≡ pattern t v }
{
    i128::from(v).rem_euclid(t.span()) as u64
}

/// The number that a pattern stands for.
pub fn from_pattern(t: Ty, p: u64) -> Option<i64>
    ensures { result ≡ from_pattern t p }
{
    fit_wide(t, Mode::Wrap, i128::from(p))
}

pub fn set_bit(p: u64, k: u32) -> u64
    requires { k < 64 }
    ensures { result ≡ set_bit p k }
{
    p | two_to(k)
}

pub fn clear_bit(p: u64, k: u32) -> u64
    requires { k < 64 }
    ensures { result ≡ clear_bit p k }
{
    if p / two_to(k) % 2 == 1 {
        p - two_to(k)
    } else {
        p
    }
}

/// Bits `a` to `b`.
pub fn bits_from_to(p: u64, a: u32, b: u32) -> u64
    requires order { a ≤ b }
    requires few { b < 63 }
    ensures { result ≡ bits_from_to p a b }
{
    p / two_to(a) % two_to(b - a + 1)
}

/// A pattern turned left by `k` places.
pub fn turned_left(t: Ty, p: u64, k: u32) -> u64
    requires pattern { p < 2 ^ 32 }
    requires few { k < 32 }
    ensures { result ≡ turned_left t p k }
{
    let moved = p * two_to(k);
    moved % span(t) + moved / span(t)
}

/// How many numbers a type has, which are as many as its patterns.
pub fn span(t: Ty) -> u64
    ensures { result ≡ span t }
{
    match t {
        Ty::I32 | Ty::U32 => 4294967296,
        Ty::I16 | Ty::U16 => 65536,
        Ty::I8 | Ty::U8 => 256,
    }
}
