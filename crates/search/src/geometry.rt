// Where a ring of a version lies in the picture: `ring_transform` of the Rust's ring.rs.
ghost use Rattle.std.specs.Prelude.{◌≡◌};
ghost use Rattle.search.specs.Geometry.{ring_numbers, corner_numbers, lensed};
ghost use Rattle.search.specs.Geometry.{transform_of};

use hull::points::Quad;
use lens::straight::Lens;
use transform::Transform;

// The corners of the ring's outer square in module space, x and y alternating: 3 cells out.
fn ring_numbers(side: u16) -> [f32; 8]
    ensures { result ≡ ring_numbers side }
{
    let lo = -3.0f32;
    let hi = side as f32 + 3.0;
    [lo, lo, hi, lo, hi, hi, lo, hi]
}

// The corners of a quad, x and y alternating.
fn corner_numbers(q: Quad) -> [f32; 8]
    ensures { result ≡ corner_numbers q }
{
    [q.a.x, q.a.y, q.b.x, q.b.y, q.c.x, q.c.y, q.d.x, q.d.y]
}

// A transform with a lens; a coefficient of 0 is none.
fn with_lens(t: Transform, l: Lens) -> Transform
    ensures { result ≡ lensed l t }
{
    if l.k == 0.0 {
        return t;
    }
    t.with_radial(l.x, l.y, l.k)
}

// The transform that takes the outer square of a ring onto a quad, bent by a lens; or none.
pub fn ring_transform(q: Quad, side: u16, l: Lens) -> Option<Transform>
    ensures { result ≡ transform_of q side l }
{
    let t = transform::from_quad(ring_numbers(side), corner_numbers(q))?;
    Some(with_lens(t, l))
}
