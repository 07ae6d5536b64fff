// Inner entries as a static library of its own, for comparison with other programs: entries by
// number, the f32 root, f64 to f32, corners and the lens. No part of the interface that
// include/lcr_ring.h describes, which is crate `lcr_ring`.
//
// Of corners and the lens: points are x and y by turns, at most 16,384 of them; a quad is the eight
// numbers of its corners; each working list is at least as long as that of the points. The result
// is 0 where an answer is given, 255 where there is none or a list does not fit.
#![tactic(auto)]

use hull::points::{Point, Quad};

// One entry by its number (see crate `calls`): the words of its answer, first in `out`, and how
// many.
#[unsafe(no_mangle)]
pub extern "C" fn lcr_call(kind: u32, args: &[u32], out: &mut [u32]) -> usize {
    calls::call(kind, args, out)
}

// The root of an f32.
#[unsafe(no_mangle)]
pub extern "C" fn lcr_root(x: f32) -> f32 {
    ieee::root(x)
}

// The f32 nearest to an f64.
#[unsafe(no_mangle)]
pub extern "C" fn lcr_narrowed(x: f64) -> f32 {
    ieee::narrowed(x)
}

// The quad of eight numbers.
fn quad(q: [f32; 8]) -> Quad {
    Quad {
        a: Point { x: q[0], y: q[1] },
        b: Point { x: q[2], y: q[3] },
        c: Point { x: q[4], y: q[5] },
        d: Point { x: q[6], y: q[7] },
    }
}

// Puts a quad into a list that has the places.
fn put(q: Quad, out: &mut [f32]) {
    if out.len() < 8 {
        return;
    }
    out[0] = q.a.x;
    out[1] = q.a.y;
    out[2] = q.b.x;
    out[3] = q.b.y;
    out[4] = q.c.x;
    out[5] = q.c.y;
    out[6] = q.d.x;
    out[7] = q.d.y;
}

// `refine_quad` of q, in its place.
#[unsafe(no_mangle)]
pub extern "C" fn lcr_refine_quad(s: &[f32], q: &mut [f32], buf: &mut [f32]) -> u32 {
    if q.len() < 8 {
        return 255;
    }
    if 32768 < s.len() {
        return 255;
    }
    if buf.len() < s.len() {
        return 255;
    }
    let f = quad([q[0], q[1], q[2], q[3], q[4], q[5], q[6], q[7]]);
    put(fit::corners::refine_quad(s, f, buf), q);
    0
}

// `edge_quad` of q, in its place.
#[unsafe(no_mangle)]
pub extern "C" fn lcr_edge_quad(
    s: &[f32],
    q: &mut [f32],
    cand: &mut [f32],
    buf: &mut [f32],
) -> u32 {
    if q.len() < 8 {
        return 255;
    }
    if 32768 < s.len() {
        return 255;
    }
    if cand.len() < s.len() {
        return 255;
    }
    if buf.len() < s.len() {
        return 255;
    }
    let f = quad([q[0], q[1], q[2], q[3], q[4], q[5], q[6], q[7]]);
    let Some(r) = fit::edges::edge_quad(s, f, cand, buf) else {
        return 255;
    };
    put(r, q);
    0
}

// `estimate_lens` of the quad in the first eight numbers of q about the centre in the next two; its
// coefficient goes into the eleventh.
#[unsafe(no_mangle)]
pub extern "C" fn lcr_estimate_lens(
    s: &[f32],
    q: &mut [f32],
    straight: &mut [f32],
    buf: &mut [f32],
) -> u32 {
    if q.len() < 11 {
        return 255;
    }
    if 32768 < s.len() {
        return 255;
    }
    if straight.len() < s.len() {
        return 255;
    }
    if buf.len() < s.len() {
        return 255;
    }
    let f = quad([q[0], q[1], q[2], q[3], q[4], q[5], q[6], q[7]]);
    let m = Point { x: q[8], y: q[9] };
    let l = lens::estimate::estimate_lens(s, Some(f), m, straight, buf);
    q[10] = l.k;
    0
}
