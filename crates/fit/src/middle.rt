// Points kept in a working list, and the line along the middle of an edge: `refit_middle` of the
// Rust's ring.rs. Points are alternating x, y in one list; kept ones stand at its beginning.
ghost use Rattle.std.specs.Prelude.{◌≡◌, ◌+◌, ◌*◌, ◌≤◌, length};
ghost use Rattle.std.specs.Float.Ieee.{le};
ghost use Rattle.ieee.specs.Ops.{abs};
ghost use Rattle.fit.specs.Select.{put_of, along_edge, within, off_of, KeptIn};
ghost use Rattle.laws.specs.Lent.{UntouchedPast};
ghost use Rattle.fit.specs.Line.{near_line, middle_points, line_pass, refit_of};

use crate::line::{Edge, Line};

// Puts a kept point at place m of the points of a list.
pub fn put(buf: &mut [f32], m: usize, keep: bool, x: f32, y: f32) -> usize
    requires { 2 * m + 2 ≤ length buf.old }
    ensures buf { record { list = buf.new; held = result }
        ≡ put_of keep x y (record { list = buf.old; held = m }) }
    ensures most { result ≤ m + 1 }
{
    if keep {
        buf[2 * m] = x;
        buf[2 * m + 1] = y;
        return m + 1;
    }
    m
}

// How far a point is along an edge, as a fraction of its length.
pub fn along_edge(e: Edge, x: f32, y: f32) -> f32
    ensures { result ≡ along_edge e x y }
{
    ((x - e.ax) * e.ux + (y - e.ay) * e.uy) / e.len
}

// Whether lo ≤ t ≤ hi.
pub fn between(lo: f32, hi: f32, t: f32) -> bool
    ensures { result ≡ within lo hi t }
{
    lo <= t && t <= hi
}

// Whether the magnitude of v is at most tol.
pub fn at_most(v: f32, tol: f32) -> bool
    ensures { result ≡ le (abs v) tol }
{
    -tol <= v && v <= tol
}

// Whether a point is within tol of the line through ox, oy along fx, fy.
pub(crate) fn on_line(ox: f32, oy: f32, fx: f32, fy: f32, tol: f32, x: f32, y: f32) -> bool
    ensures { result ≡ le (off_of ox oy fx fy x y) tol }
{
    at_most((x - ox) * fy - (y - oy) * fx, tol)
}

// Whether a point is in the middle of an edge and within tol of a line. The line comes first, since
// most points are off it and cost no quotient then.
fn near_line(e: Edge, ox: f32, oy: f32, fx: f32, fy: f32, tol: f32, x: f32, y: f32) -> bool
    ensures { result ≡ near_line e ox oy fx fy tol x y }
{
    if on_line(ox, oy, fx, fy, tol, x, y) {
        return between(0.15, 0.85, along_edge(e, x, y));
    }
    false
}

// Keeps the points in the middle of an edge within tol of a line, from the beginning of buf on.
// Kept: beside `consensus::search`; one loop of a closure needs a contract for every test that the closure meets, longer than both.
fn select(
    s: &[f32],
    e: Edge,
    ox: f32,
    oy: f32,
    fx: f32,
    fy: f32,
    tol: f32,
    buf: &mut [f32],
) -> usize
    requires s_in_bounds { length s.now ≤ length buf.old }
    requires s_len_bound { length s.now ≤ 32768 }
    ensures { KeptIn (length s.now) (middle_points e ox oy fx fy tol s.now)
        buf.old buf.new result }
{
    let n = s.len() / 2;
    let mut m = 0usize;
    for k in 0..n {
        let x = s[2 * k];
        let y = s[2 * k + 1];
        m = put(buf, m, near_line(e, ox, oy, fx, fy, tol, x, y), x, y);
    }
    m
}

// One pass of `refit_middle`: the line through an edge's middle points within tol of a line.
fn pass(s: &[f32], e: Edge, tol: f32, line: Line, buf: &mut [f32]) -> Line
    requires s_in_bounds { length s.now ≤ length buf.old }
    requires s_len_bound { length s.now ≤ 32768 }
    ensures answer { result ≡ line_pass s.now e tol line }
    ensures buf_past { UntouchedPast (length s.now)
        buf.old buf.new }
{
    let Line::Along(ox, oy, fx, fy) = line else {
        return Line::NoLine;
    };
    let m = select(s, e, ox, oy, fx, fy, tol, buf);
    if m < 8 {
        return Line::NoLine;
    }
    crate::line::tls_line(&buf[..2 * m])
}

// A line fitted to the middle of an edge: around a line first within wide, then within tight of
// the line so found. None where a pass keeps fewer than 8 points.
pub fn refit_middle(s: &[f32], e: Edge, line: Line, wide: f32, tight: f32, buf: &mut [f32]) -> Line
    requires s_in_bounds { length s.now ≤ length buf.old }
    requires s_len_bound { length s.now ≤ 32768 }
    ensures answer { result ≡ refit_of s.now e wide tight line }
    ensures buf_past { UntouchedPast (length s.now)
        buf.old buf.new }
{
    let first = pass(s, e, wide, line, buf);
    pass(s, e, tight, first, buf)
}
