// Floats of calls: an f32 from its word, an f64 from its two words, low half first, and back. Any
// NaN pattern is read as a NaN, and a NaN is written as 0x7fc0_0000 or 0x7ff8_0000_0000_0000.
//
// Kept: a function of each for f32 and for f64: what may not change, the public names read32, read64
// and the others, by which the calls name them.
ghost use Rattle.std.specs.Prelude.{◌≡◌, ◌<◌};
ghost use Rattle.std.specs.Float.{binary32, binary64};
ghost use Rattle.std.specs.Float.Ieee.{of_bits, to_bits};

// The f32 whose bits are given.
pub fn f32_of(word: u32) -> f32
    ensures { result ≡ of_bits binary32 word }
{
    if 0x7f80_0000 < word % 0x8000_0000 {
        return 0.0 / 0.0;
    }
    f32::from_bits(word)
}

// The bits of an f32.
pub fn bits32(x: f32) -> u32
    ensures { result ≡ to_bits binary32 x }
{
    if x.is_nan() {
        return 0x7fc0_0000;
    }
    f32::to_bits(x)
}

// The f64 whose bits are given.
fn f64_of(bits: u64) -> f64 {
    if 0x7ff0_0000_0000_0000 < bits % 0x8000_0000_0000_0000 {
        return 0.0 / 0.0;
    }
    f64::from_bits(bits)
}

// The bits of an f64.
pub fn bits64(x: f64) -> u64
    ensures { result ≡ to_bits binary64 x }
{
    if x.is_nan() {
        return 0x7ff8_0000_0000_0000;
    }
    f64::to_bits(x)
}

// The k-th f32 of some words; 0 past their end.
pub fn at32(args: &[u32], k: usize) -> f32 {
    if args.len() <= k {
        return 0.0;
    }
    f32_of(args[k])
}

// The k-th f64 of some words; 0 past their end.
pub fn at64(args: &[u32], k: usize) -> f64 {
    if args.len() / 2 <= k {
        return 0.0;
    }
    f64_of(crate::wide(args[2 * k], args[2 * k + 1]))
}

// The first f32 numbers of some words, as many as `to` has.
pub fn read32(args: &[u32], to: &mut [f32]) {
    for (k, x) in to.iter_mut().enumerate() {
        *x = at32(args, k);
    }
}

// The first f64 numbers of some words, as many as `to` has.
pub fn read64(args: &[u32], to: &mut [f64]) {
    for (k, x) in to.iter_mut().enumerate() {
        *x = at64(args, k);
    }
}

// Writes an f32 as the k-th of some words, where there is one.
pub fn put32(out: &mut [u32], k: usize, x: f32) {
    if k < out.len() {
        out[k] = bits32(x);
    }
}

// Writes an f64 as the k-th pair of some words, where there is one.
fn put64(out: &mut [u32], k: usize, x: f64) {
    if k < out.len() / 2 {
        let b = bits64(x);
        out[2 * k] = (b % 4294967296) as u32;
        out[2 * k + 1] = (b / 4294967296) as u32;
    }
}

// Writes some f32 numbers one after the other.
pub fn write32(out: &mut [u32], from: &[f32]) {
    for (k, x) in from.iter().enumerate() {
        put32(out, k, *x);
    }
}

// Writes some f64 numbers one after the other.
pub fn write64(out: &mut [u32], from: &[f64]) {
    for (k, x) in from.iter().enumerate() {
        put64(out, k, *x);
    }
}
