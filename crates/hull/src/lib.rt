// The convex hull of a list of f32 points, x and y alternating, and the quad of a hull: any list,
// NaN and -0 included.
#![tactic(auto)]

ghost use Rattle.std.specs.Prelude.{◌≡◌, length};
ghost use Rattle.refusal.specs.Numbers.{said};
ghost use Rattle.hull.specs.Door.{hulled, vertices_after};
ghost use Rattle.hull.specs.Quad.{quad_floats, values_of};

use crate::points::Quad;
use refusal::Refusal;

pub mod claims;
pub mod points;
mod sides;
pub mod walk;

// Stores the vertices of the hull in out and tells how many there are; the places past them stay as
// they are. Lent where out has fewer numbers than p, and nothing is touched.
pub fn convex_hull(p: &[f32], out: &mut [f32]) -> Result<usize, Refusal>
    ensures answer { said result ≡ hulled p.now (length out.old) }
    ensures out { out.new ≡ vertices_after (said result) p.now out.old }
{
    if out.len() < p.len() {
        return Err(Refusal::Lent);
    }
    Ok(walk::convex_hull(p, out))
}

// The quad of the vertices of a hull: the farthest pair, and the farthest point on either side of
// it.
pub fn quad(p: &[f32]) -> Option<Quad>
    ensures { values_of result ≡ quad_floats p.now }
{
    if p.len() / 2 < 4 {
        return None;
    }
    let t = sides::farthest(p);
    let a = t.a;
    let b = t.b;
    let over = sides::most(p, a, b, false);
    let under = sides::most(p, a, b, true);
    let c = over.at;
    let u = over.val;
    let d = under.at;
    let w = under.val;
    if 0.0 < u {
        if w < 0.0 {
            if 0.0 <= sides::area_at(p, a, c, b, d) {
                return Some(points::corners_at(p, a, c, b, d));
            }
            return Some(points::corners_at(p, a, d, b, c));
        }
        return None;
    }
    None
}
