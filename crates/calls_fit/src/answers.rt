// Answers of lines, crossings, bows and quads in words: a word 0, a word 1 where there might be
// none, and the numbers; or two words 0 for none.
ghost use Rattle.std.specs.Prelude.{◌≤◌, length};

use fit::line::{Crossing, Line};
use hull::points::Quad;
use lens::bow::Bow;
use word_numbers::floats;

// The words before the numbers.
fn begin(out: &mut [u32], from: usize) {
    if from == 2 {
        word_numbers::two(out, 0, 1);
        return;
    }
    word_numbers::one(out, 0);
}

// An answer of some numbers, after a word 1 where they might be none.
pub(crate) fn put(out: &mut [u32], from: usize, x: &[f32]) -> usize
    requires from_bound { from ≤ 2 }
    requires le_from { 1 ≤ from }
    requires x_len_bound { length x.now ≤ 8192 }
{
    if out.len() < from + x.len() {
        return 0;
    }
    begin(out, from);
    floats::write32(&mut out[from..], x);
    from + x.len()
}

pub(crate) fn lines(l: Line, out: &mut [u32], from: usize) -> usize
    requires from_bound { from ≤ 2 }
    requires le_from { 1 ≤ from }
{
    let Line::Along(x, y, u, v) = l else {
        return word_numbers::two(out, 0, 0);
    };
    let n = [x, y, u, v];
    put(out, from, &n)
}

pub(crate) fn crossing(c: Crossing, out: &mut [u32]) -> usize {
    let Crossing::At(x, y) = c else {
        return word_numbers::two(out, 0, 0);
    };
    let n = [x, y];
    put(out, 2, &n)
}

pub(crate) fn bow(answer: Option<Bow>, out: &mut [u32]) -> usize {
    let Some(b) = answer else {
        return word_numbers::two(out, 0, 0);
    };
    let n = [b.c0, b.c1, b.a, b.error];
    put(out, 2, &n)
}

pub(crate) fn found(answer: Option<Quad>, out: &mut [u32]) -> usize {
    let Some(q) = answer else {
        return word_numbers::two(out, 0, 0);
    };
    corners(q, out, 2)
}

pub(crate) fn corners(q: Quad, out: &mut [u32], from: usize) -> usize
    requires from_bound { from ≤ 2 }
    requires le_from { 1 ≤ from }
{
    let n = [q.a.x, q.a.y, q.b.x, q.b.y, q.c.x, q.c.y, q.d.x, q.d.y];
    put(out, from, &n)
}
