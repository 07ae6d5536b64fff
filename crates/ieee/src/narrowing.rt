// The pattern of an f64 that is rounded to f32, by whole numbers.
ghost use Rattle.std.specs.Prelude.{◌≡◌, ◌+◌, ◌-◌, ◌*◌, ◌%◌, ◌^◌, ◌<◌, ◌≤◌, true};
ghost use Rattle.std.specs.Float.Ieee as Ieee;
ghost use Rattle.std.specs.Float.{binary32, binary64};
ghost use Rattle.std.specs.Float.Ieee.Nearest.{closest};
ghost use Rattle.ieee.specs.Narrow.{narrow, usual64};
ghost use Rattle.ieee.specs.Inner.{mant64, expo64, narrow_bits};

// The digits of a finite f64's pattern, with the leading one.
fn digits64(b: u64) -> u64
    ensures { result ≡ mant64 b }
{
    let t = b % 0x10_0000_0000_0000;
    if b % 0x8000_0000_0000_0000 < 0x10_0000_0000_0000 {
        t
    } else {
        t + 0x10_0000_0000_0000
    }
}

// The field of its exponent, less one.
fn place64(b: u64) -> u64
    ensures { result ≡ expo64 b }
{
    let a = b % 0x8000_0000_0000_0000;
    if a < 0x10_0000_0000_0000 {
        0
    } else {
        a / 0x10_0000_0000_0000 - 1
    }
}

// e - 896, or 0.
fn above(e: u64) -> u64
    ensures { result ≡ e - 896 }
{
    if e < 896 { 0 } else { e - 896 }
}

// m / d, rounded to the nearest, a tie to the even one.
fn nearest_div(m: u64, d: u64) -> u64
    requires d_nonzero { 0 < d }
    requires m_bound { m < 9007199254740992 }
    ensures { result ≡ closest m d }
{
    let q = m / d;
    let r = m % d * 2;
    if r < d {
        q
    } else if d < r {
        q + 1
    } else {
        q + q % 2
    }
}

// m / 2^t, rounded so.
fn kept(m: u64, t: u64) -> u64
    requires { m < 9007199254740992 }
    ensures { result ≡ closest m (2 ^ t) }
{
    if t < 60 { nearest_div(m, 1u64 << t) } else { 0 }
}

// The pattern of a finite value, without its sign.
fn any_bits(b: u64) -> u32
    ensures { result ≡ narrow_bits b }
{
    let e = place64(b);
    let k = above(e);
    let q = kept(digits64(b), 925 + k - e);
    let p = k * 0x80_0000 + q;
    if p < 0x7f80_0000 {
        p as u32
    } else {
        0x7f80_0000
    }
}

// The same in one sum, where the value is not below the least normal f32, 2^-126: the exponents of
// the formats differ by 896, and of the 29 places cut off half of the last one kept, less one where
// that one is even, carries into it. An infinity stays one.
fn normal_bits(a: u64) -> u32
    requires le_a { 4039728865751334912 ≤ a }
    requires a_bound { a ≤ 9218868437227405312 }
    ensures { result ≡ narrow_bits a }
{
    let p = (a - 0x3800_0000_0000_0000 + 0x0fff_ffff + a / 0x2000_0000 % 2) / 0x2000_0000;
    if p < 0x7f80_0000 {
        p as u32
    } else {
        0x7f80_0000
    }
}

// The pattern of a value that is no NaN.
pub fn narrow_bits(b: u64) -> u32
    requires { b % 9223372036854775808 ≤ 9218868437227405312 }
    ensures { (result % 2147483648 ≤ 2139095040)
        × (Ieee.of_bits binary32 result ≡ narrow (Ieee.of_bits binary64 b)) }
{
    let sign = (b / 0x8000_0000_0000_0000) as u32 * 0x8000_0000;
    let a = b % 0x8000_0000_0000_0000;
    if a < 0x3810_0000_0000_0000 {
        return sign + any_bits(a);
    }
    sign + normal_bits(a)
}

// Whether x is from 2^-126 up to, but not at, 2^127.
pub fn usual(x: f64) -> bool
    ensures { result ≡ usual64 x }
{
    if x < 1.1754943508222875e-38 {
        return false;
    }
    x < 1.7014118346046923e38
}

// The pattern of such a value, by one sum.
fn usual_bits(b: u64) -> u32
    requires le_b { 4039728865751334912 ≤ b }
    requires b_bound { b < 5179139571476070400 }
    ensures { (result ≡ narrow_bits b) × (result < 2139095040) }
{
    ((b - 0x3800_0000_0000_0000 + 0x0fff_ffff + b / 0x2000_0000 % 2) / 0x2000_0000) as u32
}

// Such a value as an f32.
pub fn near(x: f64) -> f32
    requires { usual64 x ≡ true }
    ensures { result ≡ narrow x }
{
    f32::from_bits(usual_bits(f64::to_bits(x)))
}
