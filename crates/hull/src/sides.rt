// The farthest pair of a list of points, and the farthest point on either side of a pair.
ghost use Rattle.std.specs.Prelude.{◌≡◌, map, ◌+◌, ◌-◌, ◌<◌};
ghost use Rattle.std.specs.Float.Ieee.{lt};
ghost use Rattle.laws.specs.Lists.{range};
ghost use Rattle.ieee.specs.Constants.{0f};
ghost use Rattle.whole.specs.Walk.{keep, index_pairs, with-i};
ghost use Rattle.hull.specs.Points.{many};
ghost use Rattle.hull.specs.Hull.{cross_at};
ghost use Rattle.hull.specs.Quad.{lace_at, area_at, minus_one};
ghost use Rattle.hull.specs.Inner.{keeps, kept1, kept2, apart};

use crate::points::{cross_at, d2_at, x_at, y_at};

// A term of the area.
fn lace_at(p: &[f32], a: usize, b: usize) -> f32
    requires { (a < many p.now) × (b < many p.now) }
    ensures { result ≡ lace_at p.now a b }
{
    x_at(p, a) * y_at(p, b) - x_at(p, b) * y_at(p, a)
}

// Twice the area of a, b, c and d: not negative where they go clockwise.
pub fn area_at(p: &[f32], a: usize, b: usize, c: usize, d: usize) -> f32
    requires { (a < many p.now)
        × (b < many p.now)
        × (c < many p.now)
        × (d < many p.now) }
    ensures { result ≡ area_at p.now a b c d }
{
    lace_at(p, a, b) + lace_at(p, b, c) + lace_at(p, c, d) + lace_at(p, d, a)
}

// A point with how far out it lies.
#[derive(Drop)]
pub struct Outermost {
    pub at: usize,
    pub val: f32,
}

// Of k and point i the one that is farther out; under: on the side where the turn is negative.
fn farther(p: &[f32], a: usize, b: usize, k: Outermost, i: usize, under: bool) -> Outermost
    requires { (a < many p.now)
        × (b < many p.now)
        × (i < many p.now)
        × (k.at < many p.now) }
    ensures { ((result.at, result.val) ≡ kept1 (keeps under) (cross_at p.now a b) k.at k.val i)
        × (result.at < many p.now) }
{
    let s = cross_at(p, a, b, i);
    let val = k.val;
    if under {
        if s < val {
            return Outermost { at: i, val: s };
        }
        return k;
    }
    if val < s {
        return Outermost { at: i, val: s };
    }
    k
}

// The point farthest out on one side of a and b; a itself where there is none.
pub fn most(p: &[f32], a: usize, b: usize, under: bool) -> Outermost
    requires { (a < many p.now) × (b < many p.now) }
    ensures { ((result.at, result.val) ≡ keep (keeps under) (cross_at p.now a b) a 0f
        (range 0 (many p.now)))
        × (result.at < many p.now) }
{
    let n = p.len() / 2;
    let mut k = Outermost { at: a, val: 0.0 };
    for i in 0..n {
        k = farther(p, a, b, k, i, under);
    }
    k
}

// A pair with its squared distance.
#[derive(Drop)]
pub struct Pair {
    pub a: usize,
    pub b: usize,
    pub far: f32,
}

// Of the pair best and i, j the one that is farther apart.
fn wider(p: &[f32], best: Pair, i: usize, j: usize) -> Pair
    requires { (i < many p.now)
        × (j < many p.now)
        × (best.a < many p.now)
        × (best.b < many p.now) }
    ensures { (((result.a, result.b), result.far) ≡ kept2 p.now best.a best.b best.far i j)
        × (result.a < many p.now)
        × (result.b < many p.now) }
{
    let d = d2_at(p, i, j);
    let far = best.far;
    if far < d {
        return Pair { a: i, b: j, far: d };
    }
    best
}

// Of the pair best and the pairs of i with a later point the one that is farthest apart.
fn widest(p: &[f32], best: Pair, i: usize) -> Pair
    requires { (i < many p.now) × (best.a < many p.now) × (best.b < many p.now) }
    ensures { (((result.a, result.b), result.far)
        ≡ keep lt (apart p.now) (best.a, best.b) best.far
        (map (with-i i) (range (i + 1) (many p.now - (i + 1)))))
        × (result.a < many p.now)
        × (result.b < many p.now) }
{
    let n = p.len() / 2;
    let mut pair = best;
    for j in i + 1..n {
        pair = wider(p, pair, i, j);
    }
    pair
}

// The pair farthest apart, the first of those.
pub fn farthest(p: &[f32]) -> Pair
    requires { 0 < many p.now }
    ensures { (((result.a, result.b), result.far)
        ≡ keep lt (apart p.now) (0, 0) minus_one (index_pairs 0 (many p.now)))
        × (result.a < many p.now)
        × (result.b < many p.now) }
{
    let n = p.len() / 2;
    let mut best = Pair {
        a: 0,
        b: 0,
        far: -1.0,
    };
    for i in 0..n {
        best = widest(p, best, i);
    }
    best
}
