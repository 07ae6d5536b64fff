// Float helpers that Rattle's floats lack: the f32 root, f64 to f32, abs, max, the total order,
// finiteness and f32 to whole numbers. IEEE 754-2019 decides each; none has a `requires`.
#![tactic(auto)]

mod claims;
mod narrowing;
mod square_root;

ghost use Rattle.std.specs.Prelude.{◌≡◌, not, T};
ghost use Rattle.std.specs.Float.Ieee as Ieee;
ghost use Rattle.std.specs.Float.{binary32};
ghost use Rattle.ieee.specs.Root.{sqrt};
ghost use Rattle.ieee.specs.Narrow.{narrow};
ghost use Rattle.ieee.specs.Ops.{abs, sign, finite, max, before};

// The root of x, rounded to the nearest f32; of -0 it is -0, and below 0 a NaN.
// Kept: theorem `RootNearest` is about `sqrt` of specs/Root.antt, and the library's `sqrt` promises the kit's own.
pub fn root(x: f32) -> f32
    ensures { result ≡ sqrt binary32 x }
{
    if x > 0.0 {
        let b: u32 = f32::to_bits(x);
        if b < 0x7f80_0000 {
            return f32::from_bits(square_root::root_bits(b));
        }
        return x;
    }
    if x == 0.0 { x } else { 0.0 / 0.0 }
}

// x rounded to the nearest f32, a tie to the even one: the Rust's `as f32`.
// Kept: `narrow_bits` adds once for a normal value; the library's `nearest_f64_to_f32_with_nan` decodes each.
pub fn narrowed(x: f64) -> f32
    ensures { result ≡ narrow x }
{
    if x != x {
        return 0.0 / 0.0;
    }
    f32::from_bits(narrowing::narrow_bits(f64::to_bits(x)))
}

// Two f32 numbers.
#[derive(Drop)]
pub struct Two {
    pub x: f32,
    pub y: f32,
}

// Both as f32, each as `narrowed` has it; quicker than one by one where both are usual.
pub fn narrowed2(x: f64, y: f64) -> Two
    ensures { (result.x ≡ narrow x) × (result.y ≡ narrow y) }
{
    if narrowing::usual(x) {
        if narrowing::usual(y) {
            return Two {
                x: narrowing::near(x),
                y: narrowing::near(y),
            };
        }
    }
    Two {
        x: narrowed(x),
        y: narrowed(y),
    }
}

// The magnitude of an f32; of either zero it is +0.
// Kept: beside `abs64`, since the library has no trait of the floats' methods for one generic function.
pub fn abs32(x: f32) -> f32
    ensures { result ≡ abs x }
{
    x.abs()
}

// The magnitude of an f64; of either zero it is +0.
pub fn abs64(x: f64) -> f64
    ensures { result ≡ abs x }
{
    x.abs()
}

// Whether x is neither a NaN nor an infinity.
pub fn is_finite(x: f32) -> bool
    ensures { result ≡ finite x }
{
    x.is_finite()
}

// The sign of an x that is no NaN.
fn negative(x: f32) -> bool
    requires { T (not (Ieee.is_nan x)) }
    ensures { result ≡ sign x }
{
    0x8000_0000 <= f32::to_bits(x)
}

// The larger of x and y; of a NaN and a number the number; of -0 and +0 it is +0.
// Kept: of -0 and +0 the library's `max` may give either, and `max` of specs/Ops.antt is +0.
pub fn max32(x: f32, y: f32) -> f32
    ensures { result ≡ max x y }
{
    if x != x {
        return y;
    }
    if y != y {
        return x;
    }
    if x < y {
        y
    } else if y < x {
        x
    } else if negative(x) {
        y
    } else {
        x
    }
}

// Whether x comes before y in the total order: every NaN last, all equal, and -0 before +0.
// Kept: the library's `total_cmp` tells NaNs apart, and `before` of specs/Ops.antt does not.
pub fn before32(x: f32, y: f32) -> bool
    ensures { result ≡ before x y }
{
    if x < y {
        return true;
    }
    if y < x {
        return false;
    }
    if x != x {
        return false;
    }
    if y != y {
        return true;
    }
    if negative(x) { !negative(y) } else { false }
}

// x cut toward zero to a u32: 0 from below and for a NaN, the greatest from above.
// Kept: the library's `saturating_f32_to_u32` widens to f64 as well, once more for each coordinate of crate doubled.
pub fn to_u32(x: f32) -> u32
    ensures { result ≡ Ieee.to_unsigned 32 x }
{
    if x > 0.0 {
        if x < 4294967296.0 {
            std::num::truncating_f32_to_u64(x) as u32
        } else {
            0xffff_ffff
        }
    } else {
        0
    }
}

// x cut toward zero to a u8: 0 from below and for a NaN, the greatest from above.
// Kept: one text with `to_u32` needs a trait of both types and a parameter for the bound, longer than these lines.
pub fn to_u8(x: f32) -> u8
    ensures { result ≡ Ieee.to_unsigned 8 x }
{
    if x > 0.0 {
        if x < 256.0 {
            std::num::truncating_f32_to_u64(x) as u8
        } else {
            0xff
        }
    } else {
        0
    }
}
