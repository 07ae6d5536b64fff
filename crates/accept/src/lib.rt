// Which score is a fix: `accept` of the Rust's ring.rs.
#![tactic(auto)]

ghost use Rattle.std.specs.Prelude.{◌≡◌, ◌<◌, ◌≤◌};
ghost use Rattle.accept.specs.Accept.{later_of, best_place, other_of, runner_of, at_least, passes_of};
ghost use Rattle.accept.specs.Accept.{corner_at, turned_of, fixed_by, fix_of, chosen_of, accept_of};

use hull::points::{Point, Quad};
use lcr_core::version::Version;
use lens::straight::Lens;
use search::versions::{Score, Scores};
use transform::Transform;

// A located ring: its version, the transform from module space to pixels with orientation and
// mirror resolved, the fraction of positions that agree, and the corner order: the quad's corner
// where position 0 is, and whether the ring runs backwards from there.
#[derive(Clone, Copy)]
pub struct Fix {
    pub version: u8,
    pub agreement: f32,
    pub corner: usize,
    pub mirrored: bool,
    pub map: Transform,
}

// The later of two places, unless its score comes before the other's.
fn later(list: [Score; 64], best: usize, k: usize) -> usize
    requires best_bound { best < 64 }
    requires k_bound { k < 64 }
    ensures { (result ≡ later_of list best k) × (result < 64) }
{
    let a = list[k];
    let b = list[best];
    if ieee::before32(a.agreement, b.agreement) {
        return best;
    }
    k
}

// The last place of the greatest score.
fn best_of(s: Scores) -> usize
    requires { s.many ≤ 64 }
    ensures { (result ≡ best_place s) × (result < 64) }
{
    let list = s.list;
    let many = s.many;
    let mut b = 0usize;
    for k in 1..many {
        b = later(list, b, k);
    }
    b
}

// The greater of top and the score at k, unless k is the best place.
fn other(list: [Score; 64], best: usize, k: usize, top: f32) -> f32
    requires { k < 64 }
    ensures { result ≡ other_of list best k top }
{
    if k == best {
        return top;
    }
    let a = list[k];
    ieee::max32(top, a.agreement)
}

// The greatest score at another place than the best, at least 0.
pub fn runner_up(s: Scores, best: usize) -> f32
    requires { s.many ≤ 64 }
    ensures { result ≡ runner_of s best }
{
    let list = s.list;
    let many = s.many;
    let mut top = 0.0f32;
    for k in 0..many {
        top = other(list, best, k, top);
    }
    top
}

// Whether a score is at least so much with at least such a lead.
fn at_least(agreement: f32, least: f32, lead: f32, ahead: f32) -> bool
    ensures { result ≡ at_least agreement least lead ahead }
{
    if agreement >= least {
        return lead >= ahead;
    }
    false
}

// Whether a score with this lead is accepted: 0.85 and 0.08, or, relaxed, 0.75 and 0.2.
fn passes(agreement: f32, lead: f32, relaxed: bool) -> bool
    ensures { result ≡ passes_of agreement lead relaxed }
{
    if at_least(agreement, 0.85, lead, 0.08) {
        return true;
    }
    if relaxed {
        return at_least(agreement, 0.75, lead, 0.2);
    }
    false
}

// Corner r of a quad.
fn corner_at(q: Quad, r: usize) -> Point
    ensures { result ≡ corner_at q r }
{
    if r == 0 {
        return q.a;
    }
    if r == 1 {
        return q.b;
    }
    if r == 2 {
        return q.c;
    }
    q.d
}

// The quad from corner r on, forwards or backwards.
fn turned(q: Quad, r: usize, mirrored: bool) -> Quad
    requires { r < 4 }
    ensures { result ≡ turned_of q r mirrored }
{
    let a = corner_at(q, r);
    let b = corner_at(q, (r + 1) % 4);
    let c = corner_at(q, (r + 2) % 4);
    let d = corner_at(q, (r + 3) % 4);
    if mirrored {
        return Quad {
            a: a,
            b: d,
            c: c,
            d: b,
        };
    }
    Quad {
        a: a,
        b: b,
        c: c,
        d: d,
    }
}

// A score with a transform as a fix; none without one.
fn fixed_by(s: Score, m: Option<Transform>) -> Option<Fix>
    ensures { result ≡ fixed_by s m }
{
    let t = m?;
    Some(Fix {
        version: s.version,
        agreement: s.agreement,
        corner: s.corner,
        mirrored: s.mirrored,
        map: t,
    })
}

// A score as a fix: its corners in order, and the transform onto them.
fn fix_of(q: Quad, s: Score, l: Lens) -> Option<Fix>
    ensures { result ≡ fix_of q s l }
{
    let z = turned(q, s.corner % 4, s.mirrored);
    let side = Version::side_of(s.version);
    fixed_by(s, search::geometry::ring_transform(z, side, l))
}

// The score at the best place as a fix, where it passes.
fn chosen(q: Quad, s: Scores, best: usize, l: Lens, relaxed: bool) -> Option<Fix>
    requires many_bound { s.many ≤ 64 }
    requires best_bound { best < 64 }
    ensures { result ≡ chosen_of q s best l relaxed }
{
    let list = s.list;
    let top = list[best];
    let lead = top.agreement - runner_up(s, best);
    if passes(top.agreement, lead, relaxed) {
        return fix_of(q, top, l);
    }
    None
}

// The best version as a fix, where its score passes.
pub fn accept(q: Quad, s: Scores, l: Lens, relaxed: bool) -> Option<Fix>
    requires { s.many ≤ 64 }
    ensures { result ≡ accept_of q s l relaxed }
{
    if s.many == 0 {
        return None;
    }
    let best = best_of(s);
    chosen(q, s, best, l, relaxed)
}
