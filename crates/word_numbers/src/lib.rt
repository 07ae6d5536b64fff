// Words of calls: numbers from words and words from numbers, and answers of a few words.
#![tactic(auto)]

pub mod floats;

ghost use Rattle.std.specs.Prelude.{◌≡◌, ◌<◌, ◌≤◌};

// The number whose low and high halves are given.
pub fn wide(low: u32, high: u32) -> u64 {
    (high as u64) * 4294967296 + low as u64
}

// A word as a number of things.
pub fn many(word: u32) -> usize
    ensures { (result ≡ word) × (result < 4294967296) }
{
    word as usize
}

// A number, or the greatest allowed where it is more.
pub fn at_most(n: usize, most: usize) -> usize
    ensures { result ≤ most }
{
    n.min(most)
}

// The signed number whose bits are given.
pub fn signed(word: u32) -> i32 {
    word.cast_signed()
}

// The bits of a signed number.
pub fn bits(c: i32) -> u32 {
    c.cast_unsigned()
}

// 1 for true.
pub fn flag(b: bool) -> u32
    ensures { result ≤ 1 }
{
    u32::from(b)
}

// An answer of some words, where there is room for them.
fn words(out: &mut [u32], all: &[u32]) -> usize {
    let n = all.len();
    if out.len() < n {
        return 0;
    }
    out[..n].copy_from_slice(all);
    n
}

// An answer of one word.
pub fn one(out: &mut [u32], a: u32) -> usize {
    words(out, &[a])
}

// An answer of two words.
pub fn two(out: &mut [u32], a: u32, b: u32) -> usize {
    words(out, &[a, b])
}

// An answer of three words.
pub fn three(out: &mut [u32], a: u32, b: u32, c: u32) -> usize {
    words(out, &[a, b, c])
}
