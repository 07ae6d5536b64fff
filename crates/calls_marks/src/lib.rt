// Calls of marks' entries. Marks are bits, 32 to a word, lowest first.
//     700 classify v, m, lumas     0, the m marks, which are lent with every third light
//     701 the same                 0, the m marks after the call, refused or not
//     702 correlate v, n, marks    0, score, corner, reversed, the eight counts
#![tactic(auto)]

ghost use Rattle.std.specs.Prelude.{◌≡◌, ◌≤◌, ◌<◌, length};

use marks::correlate::{Correlated, Pose};
use refusal::Refusal;
use word_numbers::floats;

// The longest list of marks or lumas.
const MOST: usize = 2048;

// Room for the longest list of marks.
fn room() -> [bool; 2048]
    ensures { 2048 ≡ length result }
{
    [false; 2048]
}

pub fn answer(kind: u32, args: &[u32], out: &mut [u32]) -> usize {
    if args.len() < 2 {
        return 0;
    }
    let v = args[0];
    let n = word_numbers::many(args[1]);
    if MOST < n {
        return 0;
    }
    if MOST < args.len() - 2 {
        return 0;
    }
    if 702 < kind {
        return 0;
    }
    if kind == 702 {
        return correlate(v, n, &args[2..], out);
    }
    classify(kind, v, n, &args[2..], out)
}

// The mark at a place of a list of words; dark past its end.
fn bit(words: &[u32], k: usize) -> bool {
    if k / 32 < words.len() {
        return ((words[k / 32] >> (k % 32)) & 1) == 1;
    }
    false
}

// The marks that words stand for.
fn unpack(words: &[u32], marks: &mut [bool]) {
    for (k, mark) in marks.iter_mut().enumerate() {
        *mark = bit(words, k);
    }
}

// Every third mark light, as they are lent to `classify`.
fn lend(marks: &mut [bool]) {
    for (k, mark) in marks.iter_mut().enumerate() {
        *mark = k % 3 == 0;
    }
}

// The mark at a place as a bit; 0 past the end.
fn mark_bit(marks: &[bool], k: usize) -> u32
    ensures { result ≤ 1 }
{
    if k < marks.len() {
        return word_numbers::flag(marks[k]);
    }
    0
}

// The 32 marks from a place on as a word.
fn packed(marks: &[bool], at: usize) -> u32
    requires { at < 65536 }
{
    let mut word: u32 = 0;
    for k in (0..32).rev() {
        word = (word % 2147483648) * 2 + mark_bit(marks, at + k);
    }
    word
}

// The marks in words 1 to m.
fn pack_words(marks: &[bool], m: usize, out: &mut [u32])
    requires m_bound { m ≤ 64 }
    requires m_in_bounds { m < length out.old }
{
    for k in 0..m {
        out[k + 1] = packed(marks, 32 * k);
    }
}

// 0 and the marks.
fn pack(marks: &[bool], out: &mut [u32]) -> usize
    requires { length marks.now ≤ 2048 }
{
    let m = (marks.len() + 31) / 32;
    if out.len() < m + 1 {
        return 0;
    }
    pack_words(marks, m, out);
    out[0] = 0;
    m + 1
}

// The answer of `classify` as words.
fn classified(kind: u32, answer: Result<(), Refusal>, marks: &[bool], out: &mut [u32]) -> usize
    requires { length marks.now ≤ 2048 }
{
    match answer {
        Ok(()) => pack(marks, out),
        Err(r) => {
            if kind == 701 {
                return pack(marks, out);
            }
            word_numbers::one(out, r.number())
        }
    }
}

// `classify` on lent marks.
fn lent(kind: u32, v: u32, lumas: &[f32], marks: &mut [bool], out: &mut [u32]) -> usize
    requires { length marks.old ≤ 2048 }
{
    lend(marks);
    let answer = marks::classify::classify(v, lumas, marks);
    classified(kind, answer, marks, out)
}

fn classify(kind: u32, v: u32, m: usize, words: &[u32], out: &mut [u32]) -> usize
    requires m_bound { m ≤ 2048 }
    requires words_len_bound { length words.now ≤ 2048 }
{
    let n = words.len();
    let mut lumas = [0.0f32; 2048];
    floats::read32(words, &mut lumas);
    let mut marks = room();
    lent(kind, v, &lumas[..n], &mut marks[..m], out)
}

// 0, then score, corner and reversal.
fn put_best(out: &mut [u32], best: Pose)
    requires { 12 ≤ length out.old }
{
    out[0] = 0;
    out[1] = floats::bits32(best.score);
    out[2] = (best.corner % 4) as u32;
    out[3] = word_numbers::flag(best.reversed);
}

// The eight counts behind four words.
fn put_counts(counts: [u16; 8], out: &mut [u32])
    requires { 12 ≤ length out.old }
{
    for k in 0..8 {
        out[k + 4] = counts[k] as u32;
    }
}

// A pose with its eight counts.
fn put_pose(out: &mut [u32], found: Correlated) -> usize {
    if out.len() < 12 {
        return 0;
    }
    put_best(out, found.best);
    put_counts(found.counts, out);
    12
}

// The answer of `correlate` as words.
fn correlated(answer: Result<Correlated, Refusal>, out: &mut [u32]) -> usize {
    match answer {
        Ok(found) => put_pose(out, found),
        Err(r) => word_numbers::one(out, r.number()),
    }
}

fn correlate(v: u32, n: usize, words: &[u32], out: &mut [u32]) -> usize
    requires { n ≤ 2048 }
{
    let mut marks = room();
    unpack(words, &mut marks);
    correlated(marks::correlate::correlate(v, &marks[..n]), out)
}
