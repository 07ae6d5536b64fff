// The walk round a hull: its first point, the next one, and all of them.
ghost use Rattle.std.specs.Prelude.{◌≡◌, cond, ◌*◌, ◌≤◌, ◌<◌, length};
ghost use Rattle.whole.specs.Walk.{next_with};
ghost use Rattle.laws.specs.Lent.{laid};
ghost use Rattle.hull.specs.Points.{many};
ghost use Rattle.hull.specs.Hull.{better_at, lower_at, same_at, hull_tests, hull_of, hull_floats};
ghost use Rattle.hull.specs.Inner.{start_of};

use crate::points::{cross_at, d2_at, x_at, y_at};

// Whether i is to replace n, as seen from c.
fn better(p: &[f32], c: usize, n: usize, i: usize) -> bool
    requires { (c < many p.now) × (n < many p.now) × (i < many p.now) }
    ensures { result ≡ better_at p.now c n i }
{
    let turn = cross_at(p, c, n, i);
    if turn < 0.0 {
        return true;
    }
    if turn == 0.0 {
        return d2_at(p, c, n) < d2_at(p, c, i);
    }
    false
}

// Of next and i the one that the walk from cur takes.
fn taken(p: &[f32], cur: usize, next: usize, i: usize) -> usize
    requires { (cur < many p.now) × (next < many p.now) × (i < many p.now) }
    ensures { (result ≡ cond (better_at p.now cur next i) i next)
        × (result < many p.now) }
{
    if better(p, cur, next, i) {
        return i;
    }
    next
}

// The vertex after cur.
fn next_of(p: &[f32], cur: usize) -> usize
    requires { cur < many p.now }
    ensures { (result ≡ next_with (hull_tests p.now) (many p.now) cur)
        × (result < many p.now) }
{
    let n = p.len() / 2;
    let mut next = (cur + 1) % n;
    for i in 0..n {
        next = taken(p, cur, next, i);
    }
    next
}

// Whether i comes before n.
fn lower(p: &[f32], i: usize, n: usize) -> bool
    requires { (i < many p.now) × (n < many p.now) }
    ensures { result ≡ lower_at p.now i n }
{
    let ix = x_at(p, i);
    let nx = x_at(p, n);
    if ieee::before32(ix, nx) {
        return true;
    }
    if ieee::before32(nx, ix) {
        return false;
    }
    ieee::before32(y_at(p, i), y_at(p, n))
}

// Of best and i the one that comes first.
fn first_of(p: &[f32], best: usize, i: usize) -> usize
    requires { (best < many p.now) × (i < many p.now) }
    ensures { (result ≡ cond (lower_at p.now i best) i best)
        × (result < many p.now) }
{
    if lower(p, i, best) {
        return i;
    }
    best
}

// The first vertex.
fn start_of(p: &[f32]) -> usize
    requires { 0 < many p.now }
    ensures { (result ≡ start_of p.now) × (result < many p.now) }
{
    let n = p.len() / 2;
    let mut best = 0;
    for i in 0..n {
        best = first_of(p, best, i);
    }
    best
}

// Whether two points have equal coordinates.
fn same_at(p: &[f32], i: usize, j: usize) -> bool
    requires { (i < many p.now) × (j < many p.now) }
    ensures { result ≡ same_at p.now i j }
{
    if x_at(p, i) == x_at(p, j) {
        return y_at(p, i) == y_at(p, j);
    }
    false
}

// Stores the vertices of the hull in out, and returns how many there are. The places past them stay
// as they are.
pub fn convex_hull(p: &[f32], out: &mut [f32]) -> usize
    requires { 2 * many p.now ≤ length out.old }
    ensures answer { result ≡ length (hull_of p.now (many p.now)) }
    ensures out { out.new ≡ laid (hull_floats p.now) out.old }
{
    let n = p.len() / 2;
    if n == 0 {
        return 0;
    }
    let start = start_of(p);
    let mut cur = start;
    for k in 0..n {
        out[2 * k] = x_at(p, cur);
        out[2 * k + 1] = y_at(p, cur);
        cur = next_of(p, cur);
        if same_at(p, cur, start) {
            return k + 1;
        }
    }
    n
}
