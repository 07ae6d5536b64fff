// Transforms, lumas and scores as the words of an answer.
ghost use Rattle.std.specs.Prelude.{◌≤◌, ◌+◌, length};

use search::versions::{Score, Scores};
use transform::Transform;
use word_numbers::floats;

// The 22 words of a transform, from a place on.
pub fn put_map(t: Transform, out: &mut [u32], at: usize)
    requires { at + 22 ≤ length out.old }
{
    let list = calls_transform::numbers(t);
    floats::write64(&mut out[at..], &list);
}

// 0, 1 and a transform.
pub(crate) fn map(t: Transform, out: &mut [u32]) -> usize {
    if out.len() < 24 {
        return 0;
    }
    word_numbers::two(out, 0, 1);
    put_map(t, out, 2);
    24
}

// 0 and numbers.
pub(crate) fn numbers(list: &[f32], out: &mut [u32]) -> usize {
    if 1112 < list.len() {
        return 0;
    }
    if out.len() < 1 + list.len() {
        return 0;
    }
    word_numbers::one(out, 0);
    floats::write32(&mut out[1..], list);
    1 + list.len()
}

// The four words of a score, from a place on.
fn put_score(s: Score, out: &mut [u32], at: usize)
    requires { at ≤ 1000 }
{
    word_bytes::put(out, at, s.version as u32);
    floats::put32(out, at + 1, s.agreement);
    word_bytes::put(out, at + 2, (s.corner % 65536) as u32);
    word_bytes::put(out, at + 3, word_numbers::flag(s.mirrored));
}

// The first n scores, from a place on.
fn put_list(list: [Score; 64], n: usize, out: &mut [u32], at: usize)
    requires { (n ≤ 64) × (at ≤ 700) }
{
    for k in 0..n {
        put_score(list[k], out, at + 4 * k);
    }
}

// How many scores and the scores, from a place on; the place after them.
pub fn put_scores(s: Scores, out: &mut [u32], at: usize) -> usize
    requires { at ≤ 600 }
    ensures { result ≤ at + 257 }
{
    let n = word_numbers::at_most(s.many, 64);
    word_bytes::put(out, at, n as u32);
    let list = s.list;
    put_list(list, n, out, at + 1);
    at + 1 + 4 * n
}

// 0 and scores.
pub(crate) fn scored(s: Scores, out: &mut [u32]) -> usize {
    if out.len() < 258 {
        return 0;
    }
    word_numbers::one(out, 0);
    put_scores(s, out, 1)
}
