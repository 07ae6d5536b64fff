// The outermost places of points on the x axis, and the least y at each place.
ghost use Rattle.std.specs.Prelude.{◌≡◌, true, false, ◌<◌, ◌≤◌, length};
ghost use Rattle.hull.specs.Points.{many};
ghost use Rattle.doubled.specs.Points.{Bounded};
ghost use Rattle.whole_hull.specs.Inner.{seen as Seen, Tops, Spans, lowered};

use doubled::coordinates::{x_at, y_at};

// The least and the greatest of some x.
#[derive(Clone, Copy)]
pub struct Span {
    pub left: u32,
    pub right: u32,
}

// The span with x in it.
fn widened(s: Span, x: u32) -> Span
    requires { (s.left ≤ s.right) × (s.right ≤ 8192) × (x ≤ 8192) }
    ensures bounds { (result.left ≤ s.left) × (s.right ≤ result.right) }
    ensures facts { (result.left ≤ x) × (x ≤ result.right) × (result.right ≤ 8192) }
{
    Span {
        left: s.left.min(x),
        right: s.right.max(x),
    }
}

// A coordinate as it is, or counted from the other end.
pub fn seen(n: u32, back: bool) -> u32
    requires { n ≤ 8192 }
    ensures { (result ≡ Seen back n) × (result ≤ 8192) }
{
    if back {
        return 8192 - n;
    }
    n
}

// Stores y at place x where it is less than what is there.
fn lower(a: &mut [u16], x: u32, y: u32)
    requires { (length a.old ≡ 8193) × (x ≤ 8192) × (y ≤ 8192) }
    ensures { a.new ≡ lowered a.old x y }
{
    let i = x as usize;
    let v = y as u16;
    if v < a[i] {
        a[i] = v;
    }
}

// Stores a point's y at its place of both tables, seen from either end.
fn lower_both(a: &mut [u16], b: &mut [u16], x: u32, y: u32)
    requires a_len { length a.old ≡ 8193 }
    requires b_len { length b.old ≡ 8193 }
    requires x_bound { (x ≤ 8192) × (y ≤ 8192) }
    ensures a { a.new ≡ lowered a.old x y }
    ensures b { b.new ≡ lowered b.old (Seen true x) (Seen true y) }
{
    lower(a, x, y);
    lower(b, seen(x, true), seen(y, true));
}

// Stores at each place the least y of the points there, in a as they are and in b counted from the
// other end, and tells the span of their x.
pub fn tops(p: &[u32], a: &mut [u16], b: &mut [u16]) -> Span
    requires p_nonzero { 0 < many p.now }
    requires bounded { Bounded p.now }
    requires tops { Tops false p.now 0 a.old }
    requires tops_2 { Tops true p.now 0 b.old }
    ensures a { Tops false p.now (many p.now) a.new }
    ensures b { Tops true p.now (many p.now) b.new }
    ensures left { Spans p.now (many p.now) result.left result.right }
{
    let n = p.len() / 2;
    let first = x_at(p, 0);
    let mut s = Span {
        left: first,
        right: first,
    };
    for i in 0..n {
        let x = x_at(p, i);
        lower_both(a, b, x, y_at(p, i));
        s = widened(s, x);
    }
    s
}
