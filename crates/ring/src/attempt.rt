// One attempt at a ring from boundary points: `attempt` of the Rust's ring.rs. Points are
// alternating x, y in one list.
ghost use Rattle.std.specs.Prelude.{◌≡◌, ◌≤◌, length};
ghost use Rattle.hull.specs.Points.{many};
ghost use Rattle.hull.specs.Hull.{hull_of};
ghost use Rattle.laws.specs.Lent.{UntouchedPast};
ghost use Rattle.lens.specs.Estimate.{hull_quad};
ghost use Rattle.search.specs.Samples.{Photo};
ghost use Rattle.ring.specs.Trace.{short_trace, found_of, under_lens, picture_middle, lens_trace};
ghost use Rattle.ring.specs.Trace.{attempt_of};

use crate::quads::Trace;
use hull::points::Point;
use lens::outer::Outer;
use lens::straight::Lens;

// The trace without a quad.
pub fn short_trace(hull: usize) -> Trace
    ensures { result ≡ short_trace hull }
{
    let s = search::versions::start();
    let none = s.scores;
    Trace {
        hull: hull,
        quad: None,
        scores: none,
        fix: None,
        fallback: None,
    }
}

// The trace of points with their hull's length and quad.
fn found(
    gray: &[u8],
    w: usize,
    h: usize,
    s: &[f32],
    o: Outer,
    l: Lens,
    most: u8,
    cand: &mut [f32],
    buf: &mut [f32],
) -> Trace
    requires photo { Photo gray.now w h }
    requires most_bound { most ≤ 64 }
    requires s_in_bounds { length s.now ≤ length cand.old }
    requires s_in_bounds_2 { length s.now ≤ length buf.old }
    requires s_len_bound { length s.now ≤ 32768 }
    ensures answer { result ≡ found_of gray.now w h s.now
        o.hull o.quad l most }
    ensures cand_past { UntouchedPast (length s.now)
        cand.old cand.new }
    ensures buf_past { UntouchedPast (length s.now)
        buf.old buf.new }
{
    let found = o.quad;
    let n = o.hull;
    let Some(q) = found else {
        return short_trace(n);
    };
    let refined = fit::corners::refine_quad(s, q, buf);
    let edges = fit::edges::edge_quad(s, q, cand, buf);
    crate::quads::try_quads(gray, w, h, edges, refined, l, n, most)
}

// The trace of straightened points.
fn straightened(
    gray: &[u8],
    w: usize,
    h: usize,
    s: &[f32],
    l: Lens,
    most: u8,
    cand: &mut [f32],
    buf: &mut [f32],
) -> Trace
    requires photo { Photo gray.now w h }
    requires most_bound { most ≤ 64 }
    requires s_in_bounds { length s.now ≤ length cand.old }
    requires s_in_bounds_2 { length s.now ≤ length buf.old }
    requires s_len_bound { length s.now ≤ 32768 }
    ensures answer { result ≡ under_lens gray.now w h s.now l most }
    ensures cand_past { UntouchedPast (length s.now)
        cand.old cand.new }
    ensures buf_past { UntouchedPast (length s.now)
        buf.old buf.new }
{
    let o = lens::outer::outer_of(s, buf);
    found(gray, w, h, s, o, l, most, cand, buf)
}

// The picture's middle, in pixels.
fn middle(w: usize, h: usize) -> Point
    requires { (w ≤ 4096) × (h ≤ 4096) }
    ensures { result ≡ picture_middle w h }
{
    Point {
        x: w as f32 / 2.0,
        y: h as f32 / 2.0,
    }
}

// The trace by the lens: of the points as they are with their hull, or straightened.
fn by_lens(
    gray: &[u8],
    w: usize,
    h: usize,
    s: &[f32],
    o: Outer,
    l: Lens,
    most: u8,
    straight: &mut [f32],
    cand: &mut [f32],
    buf: &mut [f32],
) -> Trace
    requires photo { Photo gray.now w h }
    requires most_bound { most ≤ 64 }
    requires s_in_bounds { length s.now ≤ length straight.old }
    requires s_in_bounds_2 { length s.now ≤ length cand.old }
    requires s_in_bounds_3 { length s.now ≤ length buf.old }
    requires s_len_bound { length s.now ≤ 32768 }
    requires hull_value { o.hull ≡ length (hull_of s.now (many s.now)) }
    requires quad_value { o.quad ≡ hull_quad s.now }
    ensures answer { result ≡ lens_trace gray.now w h s.now l most }
    ensures straight_past { UntouchedPast (length s.now)
        straight.old straight.new }
    ensures cand_past { UntouchedPast (length s.now)
        cand.old cand.new }
    ensures buf_past { UntouchedPast (length s.now)
        buf.old buf.new }
{
    if l.k == 0.0 {
        return found(gray, w, h, s, o, l, most, cand, buf);
    }
    let n = lens::straight::undistort(s, l, straight);
    straightened(gray, w, h, &straight[..2 * n], l, most, cand, buf)
}

// The trace of a list of points.
pub fn attempt(
    gray: &[u8],
    w: usize,
    h: usize,
    s: &[f32],
    most: u8,
    straight: &mut [f32],
    cand: &mut [f32],
    buf: &mut [f32],
) -> Trace
    requires photo { Photo gray.now w h }
    requires most_bound { most ≤ 64 }
    requires s_in_bounds { length s.now ≤ length straight.old }
    requires s_in_bounds_2 { length s.now ≤ length cand.old }
    requires s_in_bounds_3 { length s.now ≤ length buf.old }
    requires s_len_bound { length s.now ≤ 32768 }
    ensures answer { result ≡ attempt_of gray.now w h s.now most }
    ensures straight_past { UntouchedPast (length s.now)
        straight.old straight.new }
    ensures cand_past { UntouchedPast (length s.now)
        cand.old cand.new }
    ensures buf_past { UntouchedPast (length s.now)
        buf.old buf.new }
{
    let o = lens::outer::outer_of(s, buf);
    let raw = o.quad;
    let m = middle(w, h);
    let l = lens::estimate::estimate_lens(s, raw, m, straight, buf);
    by_lens(gray, w, h, s, o, l, most, straight, cand, buf)
}
