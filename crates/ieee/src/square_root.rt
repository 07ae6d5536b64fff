// The pattern of an f32's root, by whole numbers.
ghost use Rattle.std.specs.Prelude.{◌≡◌, ◌+◌, ◌-◌, ◌*◌, ◌/◌, ◌%◌, ◌<◌};
ghost use Rattle.std.specs.Float.Ieee as Ieee;
ghost use Rattle.std.specs.Float.{binary32};
ghost use Rattle.ieee.specs.Root.{sqrt, near_root};
ghost use Rattle.ieee.specs.Inner.{mant, expo};

// The digits of a positive f32's pattern, with the leading one.
fn digits(b: u32) -> u64
    requires { b < 2147483648 }
    ensures { result ≡ mant b }
{
    let t = (b % 0x80_0000) as u64;
    if b < 0x80_0000 { t } else { t + 0x80_0000 }
}

// How many places above the last the root of a positive f32's pattern starts, twice.
fn place(b: u32) -> u32
    requires { b < 2139095040 }
    ensures { result ≡ expo b + 149 }
{
    if b < 0x80_0000 {
        149
    } else {
        b / 0x80_0000 + 148
    }
}

// The whole number nearest to the root of m.
fn near_root(m: u64) -> u64
    requires { m < 281474976710656 }
    ensures { result ≡ near_root m }
{
    let r = m.isqrt();
    if r * r + r < m { r + 1 } else { r }
}

// 2^23 where a pattern's exponent is odd, else 2^23 times the root of 2.
fn scale(b: u32) -> f64 {
    if b / 0x80_0000 % 2 == 1 {
        return 8388608.0;
    }
    11863283.203031445
}

// Half the root of x / 2^23, where x is from 2^23 up to 2^24, within 0.00001 of it.
fn half_root(x: f64) -> f64 {
    let x2 = x * x;
    let high = (7.5023863e-23 * x - 2.2843487e-15) - x2 * 1.084098e-30;
    (0.16197692 + x * 5.4819099e-8) + x2 * high
}

// A whole number near the root that `root_bits` looks for, of a pattern b from 2^23 on: a
// polynomial of b's digits, then one of Newton's steps, which squares what is left, and the last
// digits of the sum with 2^52. Nothing is promised of it; `quick_root` looks whether it is the
// nearest.
fn guess(b: u32) -> u64
    ensures { result < 33554432 }
{
    let x = (b % 0x80_0000 + 0x80_0000) as f64;
    let s = scale(b);
    let y = half_root(x);
    let w = s * y + s * x / 33554432.0 / y + 4503599627370496.0;
    if w >= 1.0 {
        return f64::to_bits(w) % 0x200_0000;
    }
    0
}

// The whole number nearest to the root of m: the guess from a pattern b where m lies between the
// squares of the halves beside it, else by the whole root.
fn quick_root(m: u64, b: u32) -> u64
    requires { m < 281474976710656 }
    ensures { result ≡ near_root m }
{
    let r = guess(b);
    if r * r < m + r {
        if m <= r * r + r {
            return r;
        }
    }
    near_root(m)
}

// The pattern that `guess` takes for the root of n: b from 2^23 on, else one from there on with the
// digits and the exponent's parity of n, which is from 2^46 on.
fn guessable(b: u32, n: u64) -> u32
    requires { n < 281474976710656 }
{
    if 0x80_0000 <= b {
        return b;
    }
    if n < 0x8000_0000_0000 {
        return (n / 0x80_0000) as u32;
    }
    (n / 0x100_0000) as u32 + 0x80_0000
}

// The pattern of the root of the value of a positive, finite pattern.
pub fn root_bits(b: u32) -> u32
    requires b_nonzero { 0 < b }
    requires b_bound { b < 2139095040 }
    ensures { (result < 2139095040)
        × (Ieee.of_bits binary32 result ≡ sqrt binary32 (Ieee.of_bits binary32 b)) }
{
    // the value is m * 2^p / 2^298, so its root is that of m * 2^p, in smallest values
    let m = digits(b);
    let q = place(b) + 1;
    // m * 2^p is n * 4^k, q is p + 1; n is large enough but for the smallest values
    // Kept: n ends the loop, and k only keeps pace with it.
    let mut n = m * ((1 + q % 2) as u64) * 0x80_0000;
    let mut k = q / 2 - 12;
    while n < 0x4000_0000_0000 {
        n = n * 4;
        k = k - 1;
    }
    k * 0x80_0000 + (quick_root(n, guessable(b, n)) as u32)
}
