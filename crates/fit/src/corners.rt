// A quad refined by lines along its edges, and whether two quads agree: `refine_quad` and
// `same_quad` of the Rust's ring.rs. Points are alternating x, y in one list.
ghost use Rattle.std.specs.Prelude.{◌≡◌, ◌≤◌, length};
ghost use Rattle.laws.specs.Lent.{UntouchedPast};
ghost use Rattle.fit.specs.Corner.{edge_from, d2_of, hull_line, near_corner, corners_of};
ghost use Rattle.fit.specs.Corner.{after_line, refined_at, refined_of, same_corner, same_of};

use crate::line::{Crossing, Edge, Line};
use hull::points::{Point, Quad};

// The edge from a to b.
pub fn edge_of(a: Point, b: Point) -> Edge
    ensures { result ≡ edge_from a b }
{
    let dx = b.x - a.x;
    let dy = b.y - a.y;
    let len = ieee::root(dx * dx + dy * dy);
    Edge {
        ax: a.x,
        ay: a.y,
        ux: dx / len,
        uy: dy / len,
        len: len,
    }
}

// The square of the distance of x, y from p.
pub fn d2(x: f32, y: f32, p: Point) -> f32
    ensures { result ≡ d2_of x y p }
{
    (x - p.x) * (x - p.x) + (y - p.y) * (y - p.y)
}

// The line along the middle of the hull's edge from a to b.
fn hull_line(s: &[f32], a: Point, b: Point, buf: &mut [f32]) -> Line
    requires s_in_bounds { length s.now ≤ length buf.old }
    requires s_len_bound { length s.now ≤ 32768 }
    ensures answer { result ≡ hull_line s.now a b }
    ensures buf_past { UntouchedPast (length s.now)
        buf.old buf.new }
{
    let e = edge_of(a, b);
    if e.len < 16.0 {
        return Line::NoLine;
    }
    let wide = ieee::max32(e.len * 0.02, 2.0);
    crate::middle::refit_middle(s, e, Line::Along(a.x, a.y, e.ux, e.uy), wide, 1.5, buf)
}

// The same, or none without a look at the points where the line of the edge before is none.
// Kept: beside `edges::next_edge_line`, which lends one list more.
fn next_hull_line(s: &[f32], before: Line, a: Point, b: Point, buf: &mut [f32]) -> Line
    requires s_in_bounds { length s.now ≤ length buf.old }
    requires s_len_bound { length s.now ≤ 32768 }
    ensures answer { result ≡ after_line before (hull_line s.now a b) }
    ensures buf_past { UntouchedPast (length s.now)
        buf.old buf.new }
{
    let Line::Along(_, _, _, _) = before else {
        return Line::NoLine;
    };
    hull_line(s, a, b, buf)
}

// A crossing whose squared distance from p is at most 64.
// Kept: beside `edges::keep_corner`, which lets a NaN distance pass.
fn near_corner(c: Crossing, p: Point) -> Crossing
    ensures { result ≡ near_corner c p }
{
    let Crossing::At(x, y) = c else {
        return Crossing::NoCrossing;
    };
    if d2(x, y, p) <= 64.0 {
        return Crossing::At(x, y);
    }
    Crossing::NoCrossing
}

// The quad of four crossings.
pub(crate) fn corners_of(a: Crossing, b: Crossing, c: Crossing, d: Crossing) -> Option<Quad>
    ensures { result ≡ corners_of a b c d }
{
    let Crossing::At(ax, ay) = a else {
        return None;
    };
    let Crossing::At(bx, by) = b else {
        return None;
    };
    let Crossing::At(cx, cy) = c else {
        return None;
    };
    let Crossing::At(dx, dy) = d else {
        return None;
    };
    Some(Quad {
        a: Point { x: ax, y: ay },
        b: Point { x: bx, y: by },
        c: Point { x: cx, y: cy },
        d: Point { x: dx, y: dy },
    })
}

// Corners where the lines of neighbouring edges cross.
fn refined_at(q: Quad, ab: Line, bc: Line, cd: Line, da: Line) -> Option<Quad>
    ensures { result ≡ refined_at q ab bc cd da }
{
    let a = near_corner(crate::line::intersect(da, ab), q.a);
    let b = near_corner(crate::line::intersect(ab, bc), q.b);
    let c = near_corner(crate::line::intersect(bc, cd), q.c);
    let d = near_corner(crate::line::intersect(cd, da), q.d);
    corners_of(a, b, c, d)
}

// The quad whose corners are the crossings of lines along the middles of q's edges, or q.
pub fn refine_quad(s: &[f32], q: Quad, buf: &mut [f32]) -> Quad
    requires s_in_bounds { length s.now ≤ length buf.old }
    requires s_len_bound { length s.now ≤ 32768 }
    ensures answer { result ≡ refined_of s.now q }
    ensures buf_past { UntouchedPast (length s.now)
        buf.old buf.new }
{
    let ab = hull_line(s, q.a, q.b, buf);
    let bc = next_hull_line(s, ab, q.b, q.c, buf);
    let cd = next_hull_line(s, bc, q.c, q.d, buf);
    let da = next_hull_line(s, cd, q.d, q.a, buf);
    refined_at(q, ab, bc, cd, da).unwrap_or(q)
}

// Whether two corners agree within tol in x and in y.
fn same_corner(p: Point, q: Point, tol: f32) -> bool
    ensures { result ≡ same_corner p q tol }
{
    if crate::middle::at_most(p.x - q.x, tol) {
        return crate::middle::at_most(p.y - q.y, tol);
    }
    false
}

// Whether two quads agree within tol at every corner, in x and in y.
pub fn same_quad(p: Quad, q: Quad, tol: f32) -> bool
    ensures { result ≡ same_of p q tol }
{
    if same_corner(p.a, q.a, tol) {
        if same_corner(p.b, q.b, tol) {
            if same_corner(p.c, q.c, tol) {
                return same_corner(p.d, q.d, tol);
            }
        }
    }
    false
}
