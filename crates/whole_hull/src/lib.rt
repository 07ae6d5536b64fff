// The convex hull of points in whole numbers, x and y alternating, doubled coordinates from 0 to
// 8,192: in one pass over the points and two over the places of the x axis between the outermost of
// them. The least y at each place makes the way above from left to right; seen from the other end
// it makes the way below.
//
// Door: `convex_hull`. Refusals, in order: 6, an odd list, or over 16,384 points; 3, the lent list
// has fewer numbers than the list of points; 21, a coordinate outside 0..8,192. A refusal changes
// nothing.
#![tactic(auto)]

ghost use Rattle.std.specs.Prelude.{◌≡◌, ◌*◌, ◌≤◌, length};
ghost use Rattle.laws.specs.Lent.{laid};
ghost use Rattle.refusal.specs.Numbers.{said};
ghost use Rattle.hull.specs.Points.{many, numbers_of};
ghost use Rattle.doubled.specs.Points.{pairs_of, Bounded};
ghost use Rattle.doubled.specs.Outline.{hull_whole};
ghost use Rattle.whole_hull.specs.Door.{hull_answer, hull_after};

use doubled::refusals::check_hull;
use refusal::Refusal;

mod chain;
mod laying;
mod tops;

// Stores the vertices of the hull of the points p in out, clockwise with x to the right and y down,
// from the least x, then the least y, and tells how many there are. The places past them stay as
// they are.
pub fn convex_hull(p: &[u32], out: &mut [u32]) -> Result<usize, Refusal>
    ensures answer { said result ≡ hull_answer p.now (length out.old) }
    ensures out { out.new ≡ hull_after (said result) p.now out.old }
{
    check_hull(p, out.len())?;
    Ok(vertices(p, out))
}

// Stores the vertices of the hull in out, and returns how many there are. The places past them stay
// as they are.
fn vertices(p: &[u32], out: &mut [u32]) -> usize
    requires p_len { length p.now ≡ 2 * many p.now }
    requires p_in_bounds { length p.now ≤ length out.old }
    requires bounded { Bounded p.now }
    ensures answer { result ≡ length (hull_whole (pairs_of p.now)) }
    ensures out { out.new
        ≡ laid (numbers_of (hull_whole (pairs_of p.now))) out.old }
{
    let n = p.len() / 2;
    if n == 0 {
        return 0;
    }
    let mut a = [65535u16; 8193];
    let mut b = [65535u16; 8193];
    let span = tops::tops(p, &mut a, &mut b);
    let mut s = [0u16; 8193];
    let mut t = [0u16; 8193];
    let k = chain::chain(&a, &mut s, span.left, span.right);
    let j = chain::chain(&b, &mut t, 8192 - span.right, 8192 - span.left);
    let end = laying::lay(&a, &s, k - 1, &b, &t, j - 1, out);
    end / 2
}
