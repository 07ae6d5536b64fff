// What stands in a line of the text, a space before each: numbers in decimal, floats as the hex of
// their bits.
ghost use Rattle.std.specs.Prelude.{◌≡◌, ◌+◌, ◌*◌, ◌≤◌, length};
ghost use Rattle.laws.specs.Fold.{bit};
ghost use Rattle.laws.specs.Lent.{Stored};
ghost use Rattle.attempt_text.specs.Traced.{number, single, double, each};

use text::{put_byte, put_hex, put_spaced, put_word};
use word_numbers::floats;

// A number of at most 20 digits.
pub(crate) fn put_count(out: &mut [u8], at: usize, n: usize) -> usize
    requires { at + 21 ≤ length out.old }
    ensures out { Stored at (number n) out.old out.new result }
    ensures most { result ≤ at + 21 }
{
    put_spaced(out, at, n)
}

// A number of at most three digits.
pub(crate) fn put_small(out: &mut [u8], at: usize, n: u8) -> usize
    requires { at + 4 ≤ length out.old }
    ensures out { Stored at (number n) out.old out.new result }
    ensures most { result ≤ at + 4 }
{
    put_spaced(out, at, n as usize)
}

// 1 for true, 0 for false.
pub(crate) fn flag(b: bool) -> u8
    ensures { result ≡ bit b }
{
    u8::from(b)
}

// An f32.
pub(crate) fn put_single(out: &mut [u8], at: usize, x: f32) -> usize
    requires { at + 9 ≤ length out.old }
    ensures out { Stored at (single x) out.old out.new result }
    ensures most { result ≤ at + 9 }
{
    let a = put_byte(out, at, b' ');
    if x.is_nan() {
        return put_word(out, a, b"nan");
    }
    put_hex(out, a, 8, floats::bits32(x) as u64)
}

// An f64.
pub(crate) fn put_double(out: &mut [u8], at: usize, x: f64) -> usize
    requires { at + 17 ≤ length out.old }
    ensures out { Stored at (double x) out.old out.new result }
    ensures most { result ≤ at + 17 }
{
    let a = put_byte(out, at, b' ');
    if x.is_nan() {
        return put_word(out, a, b"nan");
    }
    put_hex(out, a, 16, floats::bits64(x))
}

// The f32 numbers of a list.
pub(crate) fn put_singles(out: &mut [u8], at: usize, xs: &[f32]) -> usize
    requires { at + 9 * length xs.now ≤ length out.old }
    ensures out { Stored at (each single xs.now) out.old out.new result }
    ensures most { result ≤ at + 9 * length xs.now }
{
    let mut to = at;
    for x in xs {
        to = put_single(out, to, *x);
    }
    to
}

// The f64 numbers of a list.
// Kept: beside put_singles: one function for both is no plainer, `put: impl Fn(&mut [u8], usize, T)
// -> usize` needs a contract of `put` in two clauses.
pub(crate) fn put_doubles(out: &mut [u8], at: usize, xs: &[f64]) -> usize
    requires { at + 17 * length xs.now ≤ length out.old }
    ensures out { Stored at (each double xs.now) out.old out.new result }
    ensures most { result ≤ at + 17 * length xs.now }
{
    let mut to = at;
    for x in xs {
        to = put_double(out, to, *x);
    }
    to
}
