// Pieces of a line, each put behind what stands before it. Each call but `fill_with` and `array_at` tells where its piece ends.
ghost use Rattle.std.specs.Prelude.{◌≡◌, ◌+◌, ◌<◌, ◌≤◌, ◌++◌, ◌∷◌, [], codes, length, take, drop};
ghost use Rattle.std.specs.Fmt.{decimal, signed_decimal};

use itoa::write_digits;

/// How many digits a number has that has at most four.
#[inline(always)]
fn few_digits(n: u64) -> usize
    requires { n < 10000 }
    ensures { result ≡ length (decimal n) }
{
    if n < 10 {
        1
    } else if n < 100 {
        2
    } else if n < 1000 {
        3
    } else {
        4
    }
}

/// How many digits a number has.
#[inline(always)]
fn digits(n: u64) -> usize
    ensures { result ≡ length (decimal n) }
{
    let mut left = n;
    let mut count = 0;
    while left >= 10000 {
        left /= 10000;
        count += 4;
    }
    count + few_digits(left)
}

/// A byte.
#[inline(always)]
pub fn byte_at(text: &mut [u8], at: usize, byte: u8) -> usize
    requires { at < length text.old }
    ensures text { take result text.new ≡ take at text.old ++ byte ∷ [] }
    ensures end { result ≡ at + 1 }
{
    text[at] = byte;
    at + 1
}

/// Fills a text with an array. A copy of a slice would ask each time whether the two overlap.
#[inline(always)]
fn fill_with<const N: usize>(text: &mut [u8], bytes: &[u8; N])
    requires { length text.old ≡ N }
    ensures { text.new ≡ bytes.now }
{
    let Some(room) = text.as_mut_array() else {
        unreachable!()
    };
    *room = *bytes;
}

/// An array, of which the caller may mean a front.
#[inline(always)]
pub fn array_at<const N: usize>(text: &mut [u8], at: usize, bytes: &[u8; N])
    requires { at + N ≤ length text.old }
    ensures { text.new ≡ take at text.old ++ (bytes.now ++ drop (at + N) text.old) }
{
    fill_with(&mut text[at..at + N], bytes);
}

/// The digits of a number.
#[inline(always)]
pub fn digits_at(text: &mut [u8], at: usize, n: u64) -> usize
    requires { at + length (decimal n) ≤ length text.old }
    ensures text { take result text.new ≡ take at text.old ++ decimal n }
    ensures end { result ≡ at + length (decimal n) }
{
    let end = at + digits(n);
    write_digits(n, text, end);
    end
}
