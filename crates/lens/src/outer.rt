// The hull of points and its quad. Points are alternating x, y in one list.
ghost use Rattle.std.specs.Prelude.{◌≡◌, ◌≤◌, length};
ghost use Rattle.hull.specs.Points.{many};
ghost use Rattle.hull.specs.Hull.{hull_of};
ghost use Rattle.laws.specs.Lent.{UntouchedPast};
ghost use Rattle.lens.specs.Estimate.{hull_quad};

use hull::points::Quad;

// How many vertices a hull has, and its quad or none.
#[derive(Drop)]
pub struct Outer {
    pub hull: usize,
    pub quad: Option<Quad>,
}

// The hull of points and its quad; out's beginning holds the vertices then.
pub fn outer_of(s: &[f32], out: &mut [f32]) -> Outer
    requires { length s.now ≤ length out.old }
    ensures hull { result.hull ≡ length (hull_of s.now (many s.now)) }
    ensures quad { result.quad ≡ hull_quad s.now }
    ensures out_past { UntouchedPast (length s.now)
        out.old out.new }
{
    let h = hull::walk::convex_hull(s, out);
    let q = hull::quad(&out[..2 * h]);
    Outer { hull: h, quad: q }
}
