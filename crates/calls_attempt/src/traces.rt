// A trace as the words of an answer: 0, hull, the quad in 9 words, fix and fallback in 27 each, how
// many scores, the scores. A quad and a ring begin with 1, and are words 0 where there is none. A
// ring is version, agreement, corner, mirrored, eleven f64.
ghost use Rattle.std.specs.Prelude.{◌≡◌, ◌+◌, ◌≤◌, length};

use accept::Fix;
use calls_ring::told;
use hull::points::{Point, Quad};
use refusal::Refusal;
use ring::quads::Trace;
use word_numbers::floats;

// n words 0 from a place on.
fn blank(out: &mut [u32], at: usize, n: usize)
    requires { (at ≤ 100) × (n ≤ 100) }
{
    for k in 0..n {
        word_bytes::put(out, at + k, 0);
    }
}

fn put_point(p: Point, out: &mut [u32], at: usize)
    requires { at ≤ 100 }
{
    floats::put32(out, at, p.x);
    floats::put32(out, at + 1, p.y);
}

fn put_quad(q: Quad, out: &mut [u32], at: usize)
    requires { at ≤ 50 }
{
    word_bytes::put(out, at, 1);
    put_point(q.a, out, at + 1);
    put_point(q.b, out, at + 3);
    put_point(q.c, out, at + 5);
    put_point(q.d, out, at + 7);
}

fn put_corners(c: Option<Quad>, out: &mut [u32], at: usize)
    requires { at ≤ 50 }
{
    match c {
        Some(q) => put_quad(q, out, at),
        None => blank(out, at, 9),
    }
}

fn put_ring(f: Fix, out: &mut [u32], at: usize)
    requires at_in_bounds { at + 27 ≤ length out.old }
    requires at_bound { at ≤ 100 }
    ensures { length out.new ≡ length out.old }
{
    word_bytes::put(out, at, 1);
    word_bytes::put(out, at + 1, f.version as u32);
    floats::put32(out, at + 2, f.agreement);
    word_bytes::put(out, at + 3, (f.corner % 65536) as u32);
    word_bytes::put(out, at + 4, word_numbers::flag(f.mirrored));
    told::put_map(f.map, out, at + 5);
}

fn put_fixed(f: Option<Fix>, out: &mut [u32], at: usize)
    requires at_in_bounds { at + 27 ≤ length out.old }
    requires at_bound { at ≤ 100 }
{
    match f {
        Some(x) => put_ring(x, out, at),
        None => blank(out, at, 27),
    }
}

fn put_trace(t: Trace, out: &mut [u32]) -> usize {
    if out.len() < 322 {
        return 0;
    }
    word_bytes::put(out, 0, 0);
    word_bytes::put(out, 1, (t.hull % 65536) as u32);
    let quad = t.quad;
    put_corners(quad, out, 2);
    let fix = t.fix;
    put_fixed(fix, out, 11);
    let fallback = t.fallback;
    put_fixed(fallback, out, 38);
    let scores = t.scores;
    told::put_scores(scores, out, 65)
}

// The trace, or the refusal's number.
pub(crate) fn answered(r: Result<Trace, Refusal>, out: &mut [u32]) -> usize {
    match r {
        Ok(t) => put_trace(t, out),
        Err(e) => word_numbers::one(out, e.number()),
    }
}
