// The line of total least squares through points, and where two lines cross: `tls_line` and
// `intersect` of the Rust's ring.rs. Points are alternating x, y in one list.
ghost use Rattle.std.specs.Prelude.{◌≡◌, ◌≤◌, length};
ghost use Rattle.fit.specs.Line.{sums_of, spread_of, scatter_of, along_line};
ghost use Rattle.fit.specs.Line.{axis_of, tls_of, cross_of};

use hull::points::Point;

// An edge of a quad: where it starts, its unit direction, and its length in pixels.
#[derive(Clone, Copy)]
pub struct Edge {
    pub ax: f32,
    pub ay: f32,
    pub ux: f32,
    pub uy: f32,
    pub len: f32,
}

// A line fit: a point of the line in pixels and a unit direction, x y u v; or none.
// Kept: a rule of the project, that a line fit is an enum of its own (docs/DECISIONS.md).
#[derive(Clone, Copy)]
pub enum Line {
    Along(f32, f32, f32, f32),
    NoLine,
}

// Where two lines cross, in pixels; or none where they are near parallel.
// Kept: a rule of the project, that a crossing is an enum of its own (docs/DECISIONS.md).
#[derive(Drop)]
pub enum Crossing {
    At(f32, f32),
    NoCrossing,
}

// Sums of products of the points' distances from their centre, in square pixels.
#[derive(Drop)]
pub struct Scatter {
    pub xx: f32,
    pub yy: f32,
    pub xy: f32,
}

// The sum of the points' x and that of their y.
fn sums(s: &[f32]) -> Point
    ensures { result ≡ sums_of s.now }
{
    let n = s.len() / 2;
    if n < 1 {
        return Point {
            x: 0.0 / 0.0,
            y: 0.0 / 0.0,
        };
    }
    let mut t = Point { x: s[0], y: s[1] };
    for k in 1..n {
        t = Point {
            x: t.x + s[2 * k],
            y: t.y + s[2 * k + 1],
        };
    }
    t
}

// The scatter with one more point, dx and dy from the centre.
fn spread(t: Scatter, dx: f32, dy: f32) -> Scatter
    ensures { result ≡ spread_of t dx dy }
{
    Scatter {
        xx: t.xx + dx * dx,
        yy: t.yy + dy * dy,
        xy: t.xy + dx * dy,
    }
}

// The points' scatter about m.
fn scatter_about(s: &[f32], m: Point) -> Scatter
    ensures { result ≡ scatter_of s.now m }
{
    let n = s.len() / 2;
    let mut t = Scatter {
        xx: 0.0,
        yy: 0.0,
        xy: 0.0,
    };
    for k in 0..n {
        t = spread(t, s[2 * k] - m.x, s[2 * k + 1] - m.y);
    }
    t
}

// The line through m along the principal axis of the scatter.
fn axis(m: Point, t: Scatter) -> Line
    ensures { result ≡ axis_of m t }
{
    let half = (t.xx - t.yy) / 2.0;
    let lambda = (t.xx + t.yy) / 2.0 + ieee::root(half * half + t.xy * t.xy);
    let p = ieee::abs32(lambda - t.yy);
    let q = ieee::abs32(lambda - t.xx);
    if p >= q {
        along(m, lambda - t.yy, t.xy)
    } else {
        along(m, t.xy, lambda - t.xx)
    }
}

// The line through m along dx, dy.
fn along(m: Point, dx: f32, dy: f32) -> Line
    ensures { result ≡ along_line m dx dy }
{
    let len = ieee::root(dx * dx + dy * dy);
    if len < 1e-6 {
        return Line::Along(m.x, m.y, 1.0, 0.0);
    }
    Line::Along(m.x, m.y, dx / len, dy / len)
}

// The line of total least squares through the points: their mean and principal axis.
pub fn tls_line(s: &[f32]) -> Line
    requires { length s.now ≤ 32768 }
    ensures { result ≡ tls_of s.now }
{
    let n = (s.len() / 2) as f32;
    let t = sums(s);
    let m = Point {
        x: t.x / n,
        y: t.y / n,
    };
    axis(m, scatter_about(s, m))
}

// Where two lines cross.
pub fn intersect(l: Line, m: Line) -> Crossing
    ensures { result ≡ cross_of l m }
{
    let Line::Along(x0, y0, u0, v0) = l else {
        return Crossing::NoCrossing;
    };
    let Line::Along(x1, y1, u1, v1) = m else {
        return Crossing::NoCrossing;
    };
    let det = u0 * v1 - v0 * u1;
    if ieee::abs32(det) < 1e-3 {
        return Crossing::NoCrossing;
    }
    let t = ((x1 - x0) * v1 - u1 * (y1 - y0)) / det;
    Crossing::At(x0 + t * u0, y0 + t * v0)
}
