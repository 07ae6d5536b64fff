// Four corners from four edges, each fitted by consensus: `edge_quad` of the Rust's ring.rs. Points
// are alternating x, y in one list.
ghost use Rattle.std.specs.Prelude.{◌≡◌, ◌≤◌, length};
ghost use Rattle.laws.specs.Lent.{UntouchedPast};
ghost use Rattle.fit.specs.Corner.{after_line};
ghost use Rattle.fit.specs.Consensus.{edge_line, keep_corner, limit_of, edge_at, edge_quad};

use crate::line::{Crossing, Line};
use hull::points::{Point, Quad};

// The line of the edge from a to b, or none without a look at the points where the line of the edge
// before is none.
fn next_edge_line(
    s: &[f32],
    before: Line,
    a: Point,
    b: Point,
    cand: &mut [f32],
    buf: &mut [f32],
) -> Line
    requires s_in_bounds { length s.now ≤ length cand.old }
    requires s_in_bounds_2 { length s.now ≤ length buf.old }
    requires s_len_bound { length s.now ≤ 32768 }
    ensures answer { result ≡ after_line before (edge_line s.now a b) }
    ensures cand_past { UntouchedPast (length s.now)
        cand.old cand.new }
    ensures buf_past { UntouchedPast (length s.now)
        buf.old buf.new }
{
    let Line::Along(_, _, _, _) = before else {
        return Line::NoLine;
    };
    crate::consensus::edge_line(s, a, b, cand, buf)
}

// A crossing whose squared distance from p is not above limit.
fn keep_corner(c: Crossing, p: Point, limit: f32) -> Crossing
    ensures { result ≡ keep_corner c p limit }
{
    let Crossing::At(x, y) = c else {
        return Crossing::NoCrossing;
    };
    if crate::corners::d2(x, y, p) > limit {
        return Crossing::NoCrossing;
    }
    Crossing::At(x, y)
}

// How far a corner may move: the square of a quarter of the diagonal from a to c.
fn limit_of(q: Quad) -> f32
    ensures { result ≡ limit_of q }
{
    let span = ieee::root(crate::corners::d2(q.a.x, q.a.y, q.c));
    (0.25 * span) * (0.25 * span)
}

// Corners where the lines of neighbouring edges cross.
fn edges_at(q: Quad, ab: Line, bc: Line, cd: Line, da: Line) -> Option<Quad>
    ensures { result ≡ edge_at q ab bc cd da }
{
    let limit = limit_of(q);
    let a = keep_corner(crate::line::intersect(da, ab), q.a, limit);
    let b = keep_corner(crate::line::intersect(ab, bc), q.b, limit);
    let c = keep_corner(crate::line::intersect(bc, cd), q.c, limit);
    let d = keep_corner(crate::line::intersect(cd, da), q.d, limit);
    crate::corners::corners_of(a, b, c, d)
}

// Four corners from four edges fitted by consensus, or none.
pub fn edge_quad(s: &[f32], q: Quad, cand: &mut [f32], buf: &mut [f32]) -> Option<Quad>
    requires s_in_bounds { length s.now ≤ length cand.old }
    requires s_in_bounds_2 { length s.now ≤ length buf.old }
    requires s_len_bound { length s.now ≤ 32768 }
    ensures answer { result ≡ edge_quad s.now q }
    ensures cand_past { UntouchedPast (length s.now)
        cand.old cand.new }
    ensures buf_past { UntouchedPast (length s.now)
        buf.old buf.new }
{
    let ab = crate::consensus::edge_line(s, q.a, q.b, cand, buf);
    let bc = next_edge_line(s, ab, q.b, q.c, cand, buf);
    let cd = next_edge_line(s, bc, q.c, q.d, cand, buf);
    let da = next_edge_line(s, cd, q.d, q.a, cand, buf);
    edges_at(q, ab, bc, cd, da)
}
