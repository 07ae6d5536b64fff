// The way round, stored point by point.
ghost use Rattle.std.specs.Prelude.{true, ltb, ◌≡◌, [], ◌∷◌, ◌+◌, ◌*◌, ◌<◌, ◌≤◌, length, get_or};
ghost use Rattle.laws.specs.Plane.{value_at};
ghost use Rattle.laws.specs.Lent.{Stored};
ghost use Rattle.hull.specs.Points.{numbers_of};
ghost use Rattle.whole_hull.specs.Inner.{Full, vertex, list_up_to, corner_if, over_vertex, under_vertex, half_round, round_of, or_one, ChainPlaces};

use crate::tops::seen;

// Stores a point from place at on; returns the place after it.
fn put_point(out: &mut [u32], at: usize, x: u32, y: u32) -> usize
    requires { at + 2 ≤ length out.old }
    ensures { Stored at (x ∷ y ∷ []) out.old out.new result }
{
    out[at] = x;
    out[at + 1] = y;
    at + 2
}

// Stores the i-th vertex.
fn put_vertex(a: &[u16], s: &[u16], i: usize, back: bool, out: &mut [u32], at: usize) -> usize
    requires a_len { (length a.now ≡ 8193) × (i < length s.now) }
    requires full { Full (value_at a.now) (get_or s.now i 0) }
    requires at_in_bounds { at + 2 ≤ length out.old }
    ensures { Stored at (numbers_of (vertex back a.now s.now i ∷ []))
        out.old out.new result }
{
    let u = s[i];
    let k = u as usize;
    let x = seen(u as u32, back);
    let y = seen(a[k] as u32, back);
    put_point(out, at, x, y)
}

// Stores the first k vertices from place at on; returns the place after them.
fn put_run(a: &[u16], s: &[u16], k: usize, back: bool, out: &mut [u32], at: usize) -> usize
    requires chain_places { ChainPlaces a.now s.now k }
    requires k_in_bounds { at + 2 * k ≤ length out.old }
    ensures { Stored at (numbers_of (list_up_to (vertex back a.now s.now) k))
        out.old out.new result }
{
    let mut m = at;
    for i in 0..k {
        m = put_vertex(a, s, i, back, out, m);
    }
    m
}

// Stores the k-th vertex where the way goes straight down or up from it.
fn put_corner(
    a: &[u16],
    s: &[u16],
    k: usize,
    back: bool,
    straight: bool,
    out: &mut [u32],
    at: usize,
) -> usize
    requires chain_places { ChainPlaces a.now s.now k }
    requires at_in_bounds { straight ≡ true → at + 2 ≤ length out.old }
    ensures { Stored at
        (numbers_of (corner_if (vertex back a.now s.now k) straight))
        out.old out.new result }
{
    if straight {
        return put_vertex(a, s, k, back, out, at);
    }
    at
}

// Stores the vertices above or below, the last of them only where the way goes straight on from it.
fn put_half(
    a: &[u16],
    s: &[u16],
    k: usize,
    back: bool,
    straight: bool,
    out: &mut [u32],
    at: usize,
) -> usize
    requires chain_places { ChainPlaces a.now s.now k }
    requires straight_in_bounds { at + 2 * length (half_round back a.now s.now k straight) ≤ length out.old }
    ensures { Stored at (numbers_of (half_round back a.now s.now k straight))
        out.old out.new result }
{
    let m = put_run(a, s, k, back, out, at);
    put_corner(a, s, k, back, straight, out, m)
}

// The y of the k-th vertex.
fn y_of(a: &[u16], s: &[u16], k: usize, back: bool) -> u32
    requires a_len { (length a.now ≡ 8193) × (k < length s.now) }
    requires full { Full (value_at a.now) (get_or s.now k 0) }
    ensures { result ≡ (vertex back a.now s.now k).1 }
{
    let u = s[k];
    let i = u as usize;
    seen(a[i] as u32, back)
}

// Whether the k-th vertex above lies above the j-th below.
fn lies_above(a: &[u16], s: &[u16], k: usize, b: &[u16], t: &[u16], j: usize) -> bool
    requires a_len { (length a.now ≡ 8193) × (k < length s.now) }
    requires full { Full (value_at a.now) (get_or s.now k 0) }
    requires b_len { (length b.now ≡ 8193) × (j < length t.now) }
    requires full_2 { Full (value_at b.now) (get_or t.now j 0) }
    ensures { result ≡ ltb (over_vertex a.now s.now k).1
        (under_vertex b.now t.now j).1 }
{
    let y = y_of(a, s, k, false);
    let z = y_of(b, t, j, true);
    if y < z {
        return true;
    }
    false
}

// Stores the way round; returns the place after it.
pub fn lay(a: &[u16], s: &[u16], k: usize, b: &[u16], t: &[u16], j: usize, out: &mut [u32]) -> usize
    requires chain_places { ChainPlaces a.now s.now k }
    requires chain_places_2 { ChainPlaces b.now t.now j }
    requires j_in_bounds { 2 * length (or_one (over_vertex a.now s.now 0) (round_of a.now s.now k b.now t.now j))
        ≤ length out.old }
    ensures { Stored 0
        (numbers_of (or_one (over_vertex a.now s.now 0)
        (round_of a.now s.now k b.now t.now j)))
        out.old out.new result }
{
    let down = lies_above(a, s, k, b, t, 0);
    let up = lies_above(a, s, 0, b, t, j);
    let m = put_half(a, s, k, false, down, out, 0);
    let e = put_half(b, t, j, true, up, out, m);
    if e == 0 {
        return put_vertex(a, s, 0, false, out, 0);
    }
    e
}
