// The farthest pair of a list of points, the farthest point on either side of a pair, and the quad
// that these make.
ghost use Rattle.std.specs.Prelude.{◌≡◌, [], ◌∷◌, ◌+◌, ◌-◌, ◌*◌, ◌<◌, ◌≤◌, ltb, length, Some};
ghost use Rattle.laws.specs.Lists.{range};
ghost use Rattle.whole.specs.Walk.{keep, index_pairs};
ghost use Rattle.hull.specs.Points.{many};
ghost use Rattle.doubled.specs.Points.{x_at, y_at, Bounded, pairs_of};
ghost use Rattle.doubled.specs.Outline.{quad_whole};
ghost use Rattle.whole_quad.specs.Door.{quad_of_pairs, pair_point};
ghost use Rattle.whole_quad.specs.Inner.{apart, kept1, far_from, reach_of, most_of};

use crate::corners::{Point, Quad};
use crate::points::{d2_at, side_at};
use doubled::coordinates::{x_at, y_at};

// A point with a value of it.
#[derive(Drop)]
struct Outermost {
    at: usize,
    val: u32,
}

// k, or point i where its value s is greater.
fn greater(k: Outermost, i: usize, s: u32) -> Outermost
    ensures { (result.at, result.val) ≡ kept1 (λ _. s) k.at k.val i }
{
    let val = k.val;
    if val < s {
        return Outermost { at: i, val: s };
    }
    k
}

// k, or point i where its side s is less: where its side of the way back is greater.
// Kept: by `greater` each point's side would be counted once more, from the way back.
fn less(k: Outermost, i: usize, s: u32) -> Outermost
    requires { (k.val ≤ 536870912) × (s ≤ 536870912) }
    ensures { ((result.at, 536870912 - result.val)
        ≡ kept1 (λ _. 536870912 - s) k.at (536870912 - k.val) i)
        × (result.val ≤ 536870912) }
{
    let val = k.val;
    if s < val {
        return Outermost { at: i, val: s };
    }
    k
}

// The points farthest out on the right and on the left of a way, with their sides.
#[derive(Drop)]
struct Sides {
    right: Outermost,
    left: Outermost,
}

// The points farthest out on either side of the way from a to b; a where there is none.
fn most(p: &[u32], a: usize, b: usize) -> Sides
    requires a_bound { (a < many p.now) × (b < many p.now) }
    requires bounded { Bounded p.now }
    ensures right { ((result.right.at, result.right.val) ≡ most_of p.now a b a)
        × (result.right.at < many p.now) }
    ensures left { ((result.left.at, 536870912 - result.left.val) ≡ most_of p.now b a a)
        × (result.left.at < many p.now) }
{
    let n = p.len() / 2;
    let mut right = Outermost {
        at: a,
        val: 268435456,
    };
    let mut left = Outermost {
        at: a,
        val: 268435456,
    };
    for i in 0..n {
        let s = side_at(p, a, b, i);
        right = greater(right, i, s);
        left = less(left, i, s);
    }
    Sides { right, left }
}

// One more than the greatest squared distance of point i from a later one.
fn reach(p: &[u32], i: usize) -> u32
    requires i_bound { i + 1 < many p.now }
    requires bounded { Bounded p.now }
    ensures { result ≡ reach_of p.now i }
{
    let n = p.len() / 2;
    let mut far = 0u32;
    for j in i + 1..n {
        far = far.max(d2_at(p, i, j));
    }
    far + 1
}

// The first point that has a later one farther away than any other has, and its reach.
fn widest(p: &[u32]) -> Outermost
    requires bound { 1 < many p.now }
    requires bounded { Bounded p.now }
    ensures { ((result.at, result.val)
        ≡ keep ltb (reach_of p.now) 0 0 (range 0 (many p.now - 1)))
        × (result.at + 1 < many p.now) }
{
    let last = p.len() / 2 - 1;
    let mut k = Outermost { at: 0, val: 0 };
    for i in 0..last {
        k = greater(k, i, reach(p, i));
    }
    k
}

// The first point after i that lies as far away as its reach.
fn partner(p: &[u32], i: usize, far: u32) -> usize
    requires i_bound { (i + 1 < many p.now) × (far ≡ reach_of p.now i) }
    requires bounded { Bounded p.now }
    ensures { (((i, result), far) ≡ far_from p.now i) × (result < many p.now) }
{
    let mut j = i + 1;
    // Kept: a point as far away is there, so no end is asked for; a `for` or `position` asks for one, and for an answer past it.
    while d2_at(p, i, j) + 1 < far {
        j += 1;
    }
    j
}

// A pair with one more than its squared distance.
#[derive(Drop)]
struct Pair {
    a: usize,
    b: usize,
    far: u32,
}

// The pair farthest apart, the first of those. The distances alone are compared first, which takes
// several at a time; where the greatest stands is looked up afterwards.
fn farthest(p: &[u32]) -> Pair
    requires bound { 1 < many p.now }
    requires bounded { Bounded p.now }
    ensures { (((result.a, result.b), result.far)
        ≡ keep ltb (apart p.now) (0, 0) 0 (index_pairs 0 (many p.now)))
        × (result.a < many p.now)
        × (result.b < many p.now) }
{
    let k = widest(p);
    let a = k.at;
    let far = k.val;
    let b = partner(p, a, far);
    Pair { a, b, far }
}

// Point i.
fn point_at(p: &[u32], i: usize) -> Point
    requires i_bound { i < many p.now }
    requires bounded { Bounded p.now }
    ensures { result ≡ pair_point (x_at p.now i, y_at p.now i) }
{
    Point {
        x: x_at(p, i),
        y: y_at(p, i),
    }
}

// The quad of points a, b, c and d.
fn corners_at(p: &[u32], a: usize, b: usize, c: usize, d: usize) -> Quad
    requires a_bound { (a < many p.now)
        × (b < many p.now)
        × (c < many p.now)
        × (d < many p.now) }
    requires bounded { Bounded p.now }
    ensures { Some result ≡ quad_of_pairs
        ((x_at p.now a, y_at p.now a)
        ∷ (x_at p.now b, y_at p.now b)
        ∷ (x_at p.now c, y_at p.now c)
        ∷ (x_at p.now d, y_at p.now d)
        ∷ []) }
{
    let pa = point_at(p, a);
    let pb = point_at(p, b);
    let pc = point_at(p, c);
    let pd = point_at(p, d);
    Quad {
        a: pa,
        b: pb,
        c: pc,
        d: pd,
    }
}

// The quad of the vertices of a hull. Going by c, which is on the right of the way from a to b, the
// corners would go round the other way (their area is below 0, whatever the points), so d comes
// first.
pub fn quad_of(p: &[u32]) -> Option<Quad>
    requires p_len { length p.now ≡ 2 * many p.now }
    requires bounded { Bounded p.now }
    ensures { result ≡ quad_of_pairs (quad_whole (pairs_of p.now)) }
{
    if p.len() / 2 < 4 {
        return None;
    }
    let t = farthest(p);
    let a = t.a;
    let b = t.b;
    let s = most(p, a, b);
    let c = s.right.at;
    let d = s.left.at;
    let high = s.right.val;
    let low = s.left.val;
    if 268435456 < high {
        if low < 268435456 {
            return Some(corners_at(p, a, d, b, c));
        }
        return None;
    }
    None
}
