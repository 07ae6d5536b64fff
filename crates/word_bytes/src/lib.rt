// Bytes in words, four to a word, lowest first, as calls by number have them; and room for long
// lists.
#![tactic(auto)]

ghost use Rattle.std.specs.Prelude.{◌≡◌, ◌≤◌, length, get_or};
ghost use Rattle.word_bytes.specs.Inner.{HasPlaces};
ghost use Rattle.word_bytes.specs.Words.{word_at};

// Room for 1,048,576 bytes.
pub fn room() -> [u8; 1048576]
    ensures { HasPlaces 1048576 result }
{
    [0; 1048576]
}

// Room for the numbers of the longest list of points, and for two that make it too long.
pub fn list_room() -> [f32; 32770]
    ensures { 32770 ≡ length result }
{
    [0f32; 32770]
}

// The byte at a place of words; 0 past their end.
fn byte(words: &[u32], k: usize) -> u8 {
    if words.len() <= k / 4 {
        return 0;
    }
    words[k / 4].to_le_bytes()[k % 4]
}

// The first bytes of words, as many as `bytes` has.
pub fn unpack(words: &[u32], bytes: &mut [u8]) {
    for (k, b) in bytes.iter_mut().enumerate() {
        *b = byte(words, k);
    }
}

// Writes a word into a place, where there is one.
pub fn put(out: &mut [u32], k: usize, word: u32) {
    if k < out.len() {
        out[k] = word;
    }
}

// How many words hold n bytes.
pub fn words_of(n: usize) -> usize
    requires { n ≤ 65536 }
    ensures { result ≤ 16384 }
{
    (n + 3) / 4
}

// A byte as a number.
fn wide(b: u8) -> u32
    ensures { (result ≡ b) × (result ≤ 255) }
{
    b as u32
}

// The byte at a place as a number; 0 past the end.
fn byte_at(bytes: &[u8], k: usize) -> u32
    ensures { (result ≡ get_or bytes.now k 0) × (result ≤ 255) }
{
    if k < bytes.len() {
        return wide(bytes[k]);
    }
    0
}

// The word of the four bytes from a place on; bytes past the end count as 0.
pub fn word_at(bytes: &[u8], k: usize) -> u32
    requires { k ≤ 2000000 }
    ensures { result ≡ word_at bytes.now k }
{
    byte_at(bytes, k)
        + byte_at(bytes, k + 1) * 256
        + byte_at(bytes, k + 2) * 65536
        + byte_at(bytes, k + 3) * 16777216
}

// n words of the bytes of a list, from a place on.
pub fn put_bytes(bytes: &[u8], out: &mut [u32], at: usize, n: usize)
    requires { (n ≤ 16384) × (at ≤ 65536) }
{
    for j in 0..n {
        put(out, at + j, word_at(bytes, 4 * j));
    }
}
