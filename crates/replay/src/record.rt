// One stored call: read, made, and its answer held against the stored one. A record is words,
// little-endian: kind, n, m, the n words of the call, the m words of its answer.
ghost use Rattle.std.specs.Prelude.{◌≡◌, ◌≤◌, length};

use std::fs::File;
use std::io::Read;

// The longest call and the longest answer, in words.
const MOST: usize = 16384;

// The word at a place.
fn word(bytes: &[u8], at: usize) -> u32 {
    if bytes.len() < 4 {
        return 0;
    }
    if bytes.len() - 4 < at {
        return 0;
    }
    u32::from_le_bytes([bytes[at], bytes[at + 1], bytes[at + 2], bytes[at + 3]])
}

// A word as a number of words.
fn many(word: u32) -> usize {
    word as usize
}

// Room for the longest call or answer.
fn room() -> [u32; 16384]
    ensures { 16384 ≡ length result }
{
    [0; 16384]
}

// The words of `bytes`.
fn decode(bytes: &[u8], words: &mut [u32])
    requires { length words.old ≤ 16384 }
{
    for (k, w) in words.iter_mut().enumerate() {
        *w = word(bytes, 4 * k);
    }
}

// Reads as many words as `words` has; whether all of them were there.
fn read(file: &mut File, words: &mut [u32]) -> bool {
    let n = words.len();
    if MOST < n {
        return false;
    }
    let mut bytes = io::large_buffer();
    let end = 4 * n;
    if file.read_exact(&mut bytes[..end]).is_err() {
        return false;
    }
    decode(&bytes[..end], words);
    true
}

// Makes a call; whether its answer is the one that is wanted.
fn made(kind: u32, args: &[u32], wanted: &[u32]) -> bool {
    let mut out = room();
    let n = calls::call(kind, args, &mut out);
    if MOST < n {
        return false;
    }
    &out[..n] == wanted
}

// Reads a call of n words and its answer of m words, and makes it.
fn stored(file: &mut File, kind: u32, n: usize, m: usize) -> Option<bool> {
    if MOST < n {
        return None;
    }
    if MOST < m {
        return None;
    }
    let mut args = room();
    if !read(file, &mut args[..n]) {
        return None;
    }
    let mut wanted = room();
    if !read(file, &mut wanted[..m]) {
        return None;
    }
    Some(made(kind, &args[..n], &wanted[..m]))
}

// The next record of a file: whether the answer is the stored one. None where the file has ended, or
// a record is cut or too long.
pub(crate) fn next(file: &mut File) -> Option<bool> {
    let mut head = [0u32; 3];
    if !read(file, &mut head) {
        return None;
    }
    stored(file, head[0], many(head[1]), many(head[2]))
}
