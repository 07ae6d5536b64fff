// What is compared of points of a list, by their numbers: the side of a way that one lies on, and the
// squared distance of two.
ghost use Rattle.std.specs.Prelude.{◌≡◌, ◌*◌, ◌<◌, ◌≤◌};
ghost use Rattle.hull.specs.Points.{many};
ghost use Rattle.doubled.specs.Points.{Bounded};
ghost use Rattle.whole_quad.specs.Inner.{side_at, d2_at};
ghost use Rattle.laws.specs.Gap.{gap};

use doubled::coordinates::{product, x_at, y_at};

// How far point i lies on the right of the way from a to b, counted from 268,435,456 on the way
// itself. What is not of point i is worked out once for a way.
pub fn side_at(p: &[u32], a: usize, b: usize, i: usize) -> u32
    requires a_bound { (a < many p.now) × (b < many p.now) × (i < many p.now) }
    requires bounded { Bounded p.now }
    ensures { (result ≡ side_at p.now a b i) × (result ≤ 536870912) }
{
    let xa = x_at(p, a);
    let ya = y_at(p, a);
    let xb = x_at(p, b);
    let yb = y_at(p, b);
    let right = xb + 8192 - xa;
    let up = ya + 8192 - yb;
    let from = 268435456 + product(xa, yb) - product(xb, ya);
    let x = x_at(p, i);
    let y = y_at(p, i);
    from + product(right, y) + product(up, x) - 8192 * (x + y)
}

// The square of the difference of two coordinates.
fn square(a: u32, b: u32) -> u32
    requires { (a ≤ 8192) × (b ≤ 8192) }
    ensures { (result ≡ gap a b * gap a b) × (result ≤ 67108864) }
{
    let d = a as i32 - b as i32;
    (d * d) as u32
}

// The squared distance of points a and b.
pub fn d2_at(p: &[u32], a: usize, b: usize) -> u32
    requires a_bound { (a < many p.now) × (b < many p.now) }
    requires bounded { Bounded p.now }
    ensures { (result ≡ d2_at p.now a b) × (result ≤ 134217728) }
{
    let xx = square(x_at(p, a), x_at(p, b));
    let yy = square(y_at(p, a), y_at(p, b));
    xx + yy
}
