// Points of a list of alternating x and y, by their number.
ghost use Rattle.std.specs.Prelude.{◌≡◌, [], ◌∷◌, ◌<◌, Some};
ghost use Rattle.hull.specs.Points.{many, x_at, y_at, points_at};
ghost use Rattle.hull.specs.Hull.{cross_at, d2_at};
ghost use Rattle.hull.specs.Quad.{values_of};

// A point.
#[derive(Clone, Copy)]
pub struct Point {
    pub x: f32,
    pub y: f32,
}

// A quad: four corners, clockwise with x to the right and y down.
#[derive(Clone, Copy)]
pub struct Quad {
    pub a: Point,
    pub b: Point,
    pub c: Point,
    pub d: Point,
}

// The coordinates of point i.
pub(crate) fn x_at(p: &[f32], i: usize) -> f32
    requires { i < many p.now }
    ensures { result ≡ x_at p.now i }
{
    p[2 * i]
}

pub(crate) fn y_at(p: &[f32], i: usize) -> f32
    requires { i < many p.now }
    ensures { result ≡ y_at p.now i }
{
    p[2 * i + 1]
}

// The turn from point o over a to b.
pub(crate) fn cross_at(p: &[f32], o: usize, a: usize, b: usize) -> f32
    requires { (o < many p.now) × (a < many p.now) × (b < many p.now) }
    ensures { result ≡ cross_at p.now o a b }
{
    let ox = x_at(p, o);
    let oy = y_at(p, o);
    (x_at(p, a) - ox) * (y_at(p, b) - oy) - (y_at(p, a) - oy) * (x_at(p, b) - ox)
}

// The squared distance of points a and b.
pub(crate) fn d2_at(p: &[f32], a: usize, b: usize) -> f32
    requires { (a < many p.now) × (b < many p.now) }
    ensures { result ≡ d2_at p.now a b }
{
    let dx = x_at(p, a) - x_at(p, b);
    let dy = y_at(p, a) - y_at(p, b);
    dx * dx + dy * dy
}

// Point i.
fn point_at(p: &[f32], i: usize) -> Point
    requires { i < many p.now }
    ensures { (result.x ≡ x_at p.now i) × (result.y ≡ y_at p.now i) }
{
    Point {
        x: x_at(p, i),
        y: y_at(p, i),
    }
}

// The quad of points a, b, c and d.
pub(crate) fn corners_at(p: &[f32], a: usize, b: usize, c: usize, d: usize) -> Quad
    requires { (a < many p.now)
        × (b < many p.now)
        × (c < many p.now)
        × (d < many p.now) }
    ensures { values_of (Some result) ≡ points_at p.now (a ∷ b ∷ c ∷ d ∷ []) }
{
    Quad {
        a: point_at(p, a),
        b: point_at(p, b),
        c: point_at(p, c),
        d: point_at(p, d),
    }
}
