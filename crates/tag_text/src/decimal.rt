// Numbers with a point and so many digits after it, a space before each.
ghost use Rattle.std.specs.Prelude.{◌≡◌, ◌+◌, ◌^◌, ◌<◌, ◌≤◌, length};
ghost use Rattle.std.specs.Float.Ieee as Ieee;
ghost use Rattle.laws.specs.Lent.{Stored};
ghost use Rattle.text.specs.Text.{decimal};
ghost use Rattle.tag_text.specs.Decimal.{scaled, is_far, is_minus, sign_text, pointed, fixed};

use text::{put_byte, put_digits, put_number, put_word};

// x cut toward zero to a u32: 0 from below and for a NaN, the greatest from above.
fn cut(x: f64) -> u32
    ensures { result ≡ Ieee.to_unsigned 32 x }
{
    if x > 0.0 {
        if x < 4294967296.0 {
            std::num::truncating_f64_to_u64(x) as u32
        } else {
            0xffff_ffff
        }
    } else {
        0
    }
}

// The magnitude of x times `unit`, which is 10^digits, to the nearest whole number.
fn scale(x: f32, digits: usize, unit: u32) -> u32
    requires { unit ≡ 10 ^ digits }
    ensures { result ≡ scaled digits x }
{
    let size = std::num::f32_to_f64_with_nan(ieee::abs32(x));
    cut(unit as f64 * size + 0.5)
}

// Whether x is no number, or one over 99,999 or under -99,999.
fn is_far(x: f32) -> bool
    ensures { result ≡ is_far x }
{
    !(ieee::abs32(x) <= 99999.0)
}

// Whether a minus sign stands before x, whose magnitude is printed as n.
fn is_minus(x: f32, n: u32) -> bool
    ensures { result ≡ is_minus x n }
{
    if x < 0.0 {
        return n != 0;
    }
    false
}

// A minus sign, or nothing.
fn put_sign(out: &mut [u8], at: usize, minus: bool) -> usize
    requires { at + 1 ≤ length out.old }
    ensures out { Stored at (sign_text minus) out.old out.new result }
    ensures most { result ≤ at + 1 }
{
    if minus {
        return put_byte(out, at, b'-');
    }
    at
}

// A whole number.
fn put_whole(out: &mut [u8], at: usize, n: u32) -> usize
    requires { at + 10 ≤ length out.old }
    ensures out { Stored at (decimal n) out.old out.new result }
    ensures most { result ≤ at + 10 }
{
    put_number(out, at, n as usize)
}

// The number x, whose magnitude times `unit`, which is 10^digits, is n.
fn put_pointed(out: &mut [u8], at: usize, x: f32, digits: usize, unit: u32, n: u32) -> usize
    requires unit_value { (unit ≡ 10 ^ digits) × (0 < unit) }
    requires digits_in_bounds { at + (12 + digits) ≤ length out.old }
    ensures out { Stored at (pointed digits x n) out.old out.new result }
    ensures most { result ≤ at + (12 + digits) }
{
    let a = put_sign(out, at, is_minus(x, n));
    let b = put_whole(out, a, n / unit);
    let c = put_byte(out, b, b'.');
    put_digits(out, c, digits, n as usize)
}

// x with so many digits after the point, a space before it; `unit` is 10^digits.
pub(crate) fn put_fixed(out: &mut [u8], at: usize, x: f32, digits: usize, unit: u32) -> usize
    requires unit_value { (unit ≡ 10 ^ digits) × (0 < unit) }
    requires digits_in_bounds { at + (13 + digits) ≤ length out.old }
    ensures out { Stored at (fixed digits x) out.old out.new result }
    ensures most { result ≤ at + (13 + digits) }
{
    let a = put_byte(out, at, b' ');
    if is_far(x) {
        return put_word(out, a, b"far");
    }
    let n = scale(x, digits, unit);
    put_pointed(out, a, x, digits, unit, n)
}
