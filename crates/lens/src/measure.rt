// The coefficient of a lens that one edge tells of, as `estimate_lens` of the Rust's ring.rs
// measures it: the edge's outward side, its samples and their bow. Points are alternating x, y in
// one list.
ghost use Rattle.std.specs.Prelude.{◌≡◌, ◌≤◌, length};
ghost use Rattle.fit.specs.Select.{KeptIn};
ghost use Rattle.laws.specs.Lent.{UntouchedPast};
ghost use Rattle.lens.specs.Measure.{edge_side, outward_of, bow_near, samples_of, bent_of};
ghost use Rattle.lens.specs.Measure.{measure_of};

use crate::bow::Bow;
use fit::line::Edge;
use hull::points::Point;

// Which way is outward from a centre at an edge: the distance of the edge's line from the centre in
// pixels, below 0 where its first normal points inward, and the unit normal that points outward.
#[derive(Clone, Copy)]
pub struct Side {
    pub h: f32,
    pub nx: f32,
    pub ny: f32,
}

// An edge's own coefficient κ and its standard error, both in pixels to the −2.
#[derive(Clone, Copy)]
pub struct Slope {
    pub k: f32,
    pub se: f32,
}

// The outward side of an edge.
fn side_of(e: Edge, m: Point) -> Side
    ensures { result ≡ edge_side e m }
{
    let nx = e.uy;
    let ny = -e.ux;
    let h = (e.ax - m.x) * nx + (e.ay - m.y) * ny;
    if h < 0.0 {
        return Side {
            h: h,
            nx: -nx,
            ny: -ny,
        };
    }
    Side {
        h: h,
        nx: nx,
        ny: ny,
    }
}

// How far a point is outward of an edge.
fn outward(e: Edge, d: Side, x: f32, y: f32) -> f32
    ensures { result ≡ outward_of e d x y }
{
    (x - e.ax) * d.nx + (y - e.ay) * d.ny
}

// Whether a sample is from 0.1 to 0.9 along an edge, and off it by at most 0.05 of its length.
fn bow_near(e: Edge, t: f32, o: f32) -> bool
    ensures { result ≡ bow_near e t o }
{
    if fit::middle::at_most(o, 0.05 * e.len) {
        return fit::middle::between(0.1, 0.9, t);
    }
    false
}

// Puts the samples t, o of an edge from the beginning of buf on.
fn samples(s: &[f32], e: Edge, d: Side, buf: &mut [f32]) -> usize
    requires s_in_bounds { length s.now ≤ length buf.old }
    requires s_len_bound { length s.now ≤ 32768 }
    ensures { KeptIn (length s.now) (samples_of e d s.now)
        buf.old buf.new result }
{
    let n = s.len() / 2;
    let mut m = 0usize;
    for k in 0..n {
        let t = fit::middle::along_edge(e, s[2 * k], s[2 * k + 1]);
        let o = outward(e, d, s[2 * k], s[2 * k + 1]);
        m = fit::middle::put(buf, m, bow_near(e, t, o), t, o);
    }
    m
}

// What a bow tells of the lens; nothing without one.
fn bent(e: Edge, d: Side, bow: Option<Bow>) -> Option<Slope>
    ensures { result ≡ bent_of e d bow }
{
    let b = bow?;
    let w = ieee::abs32(d.h) * e.len * e.len;
    Some(Slope {
        k: b.a / w,
        se: ieee::max32(b.error / w, 1.1754944e-38),
    })
}

// What the edge from a to b tells of a lens about m, or nothing.
pub(crate) fn measure_edge(
    s: &[f32],
    a: Point,
    b: Point,
    m: Point,
    buf: &mut [f32],
) -> Option<Slope>
    requires s_in_bounds { length s.now ≤ length buf.old }
    requires s_len_bound { length s.now ≤ 32768 }
    ensures answer { result ≡ measure_of s.now a b m }
    ensures buf_past { UntouchedPast (length s.now)
        buf.old buf.new }
{
    let e = fit::corners::edge_of(a, b);
    if e.len < 16.0 {
        return None;
    }
    let d = side_of(e, m);
    let r = samples(s, e, d, buf);
    let many = r as f32;
    if many < 0.3 * e.len {
        return None;
    }
    bent(e, d, crate::bow::two_fits(&buf[..2 * r]))
}
