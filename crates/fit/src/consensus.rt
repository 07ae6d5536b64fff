// Corners from edges fitted by consensus: `edge_quad` of the Rust's ring.rs. Points are alternating
// x, y in one list.
ghost use Rattle.std.specs.Prelude.{◌≡◌, ◌+◌, ◌/◌, ◌%◌, ◌<◌, ◌≤◌, length};
ghost use Rattle.fit.specs.Select.{KeptIn};
ghost use Rattle.laws.specs.Lent.{UntouchedPast};
ghost use Rattle.fit.specs.Consensus.{search_near, search_range, one_if, agree_of, trial_at, trials_of, consensus_of, edge_line};
ghost use Rattle.fit.specs.Inner.{under_cut, ShortUnder};

use crate::line::{Edge, Line};
use hull::points::Point;

// The best trial line so far: how many points agree with it, where 0 is no line, a point of it in
// pixels, and its unit direction.
// Kept: what may not change, since `trials_of` begins with a line of count 0 and `better_trial` compares with it.
#[derive(Drop)]
pub struct Trial {
    pub count: usize,
    pub x: f32,
    pub y: f32,
    pub u: f32,
    pub v: f32,
}

// Whether a point may belong to the edge e: from −0.05 to 1.05 along it, off by at most 0.15 of it.
fn search_near(e: Edge, x: f32, y: f32) -> bool
    ensures { result ≡ search_near e x y }
{
    if crate::middle::on_line(e.ax, e.ay, e.ux, e.uy, 0.15 * e.len, x, y) {
        return crate::middle::between(-0.05, 1.05, crate::middle::along_edge(e, x, y));
    }
    false
}

// Keeps the points that may belong to an edge, from the beginning of cand on.
// Kept: beside `middle::select`, which says why.
fn search(s: &[f32], e: Edge, cand: &mut [f32]) -> usize
    requires s_in_bounds { length s.now ≤ length cand.old }
    requires s_len_bound { length s.now ≤ 32768 }
    ensures { KeptIn (length s.now) (search_range e s.now)
        cand.old cand.new result }
{
    let n = s.len() / 2;
    let mut m = 0usize;
    for k in 0..n {
        let x = s[2 * k];
        let y = s[2 * k + 1];
        m = crate::middle::put(cand, m, search_near(e, x, y), x, y);
    }
    m
}

// One more where t holds.
fn one_if(t: bool, n: u32) -> u32
    requires { n < 32768 }
    ensures { (result ≡ one_if t n) × (result ≤ n + 1) }
{
    if t {
        return n + 1;
    }
    n
}

// How many points are within 1.5 of a line. The counter is as wide as the floats, so that the loop
// goes over four points at once.
fn agree(s: &[f32], px: f32, py: f32, fx: f32, fy: f32) -> usize
    requires { length s.now ≤ 32768 }
    ensures { (result ≡ agree_of s.now px py fx fy) × (result ≤ 16384) }
{
    let n = s.len() / 2;
    let mut m = 0u32;
    for k in 0..n {
        let on = crate::middle::on_line(px, py, fx, fy, 1.5, s[2 * k], s[2 * k + 1]);
        m = one_if(on, m);
    }
    m as usize
}

// A place below n.
fn pick(a: usize, n: usize) -> usize
    requires { 0 < n }
    ensures { (result ≡ a % n) × (result < n) }
{
    a % n
}

// The place that is some places further, round n places.
fn further(a: usize, step: usize, n: usize) -> usize
    requires { (a < n) × (step < n) × (n ≤ 16384) }
    ensures { (result ≡ (a + step) % n) × (result < n) }
{
    let b = a + step;
    if b < n {
        return b;
    }
    b - n
}

// A square under which the root is under a third of the edge, or a NaN where the root of the one
// that is tried is not.
fn cut_of(len: f32) -> f32
    ensures { ShortUnder len result }
{
    let third = len / 3.0;
    let cut = third * third * 0.9990234375;
    if ieee::root(cut) < third {
        return cut;
    }
    0.0 / 0.0
}

// Whether a square is above 0 and under a cut.
fn under_cut(d: f32, cut: f32) -> bool
    ensures { result ≡ under_cut d cut }
{
    if 0.0 < d { d < cut } else { false }
}

// The line through points i and j, where it spans a third of the edge and more points agree with
// it than with the best so far. Most that are too short are known by the cut, without a root.
fn try_pair(s: &[f32], len: f32, cut: f32, i: usize, j: usize, best: Trial) -> Trial
    requires s_len_bound { length s.now ≤ 32768 }
    requires short_under { ShortUnder len cut }
    requires i_in_bounds { (i < length s.now / 2) × (j < length s.now / 2) }
    requires count_bound { best.count ≤ 16384 }
    ensures { (result ≡ trial_at s.now len best i j) × (result.count ≤ 16384) }
{
    let px = s[2 * i];
    let py = s[2 * i + 1];
    let lx = s[2 * j] - px;
    let ly = s[2 * j + 1] - py;
    let d = lx * lx + ly * ly;
    if under_cut(d, cut) {
        return best;
    }
    let l = ieee::root(d);
    if l < len / 3.0 {
        return best;
    }
    let count = agree(s, px, py, lx / l, ly / l);
    if best.count < count {
        return Trial {
            count: count,
            x: px,
            y: py,
            u: lx / l,
            v: ly / l,
        };
    }
    best
}

// The best of 96 trials. The places i and j of a trial are two strides further than the last ones.
fn trials(s: &[f32], len: f32) -> Trial
    requires in_bounds { 2 ≤ length s.now }
    requires s_len_bound { length s.now ≤ 32768 }
    ensures { (result ≡ trials_of s.now len) × (result.count ≤ 16384) }
{
    let n = s.len() / 2;
    let cut = cut_of(len);
    let first = pick(7919, n);
    let second = pick(104729, n);
    let mut best = Trial {
        count: 0,
        x: 0.0,
        y: 0.0,
        u: 0.0,
        v: 0.0,
    };
    let mut i = pick(13, n);
    let mut j = pick(n / 2, n);
    for k in 0..96usize {
        best = try_pair(s, len, cut, i, j, best);
        i = further(i, first, n);
        j = further(j, second, n);
    }
    best
}

// The line that most of an edge's points agree with, refitted, where enough of them do.
fn consensus(s: &[f32], e: Edge, buf: &mut [f32]) -> Line
    requires in_bounds { 2 ≤ length s.now }
    requires s_in_bounds { length s.now ≤ length buf.old }
    requires s_len_bound { length s.now ≤ 32768 }
    ensures answer { result ≡ consensus_of s.now e }
    ensures buf_past { UntouchedPast (length s.now)
        buf.old buf.new }
{
    let best = trials(s, e.len);
    if best.count == 0 {
        return Line::NoLine;
    }
    let count = best.count as f32;
    if count < 0.35 * e.len {
        return Line::NoLine;
    }
    let line = Line::Along(best.x, best.y, best.u, best.v);
    crate::middle::refit_middle(s, e, line, 3.0, 1.5, buf)
}

// The line of the edge from a to b by consensus.
pub(crate) fn edge_line(s: &[f32], a: Point, b: Point, cand: &mut [f32], buf: &mut [f32]) -> Line
    requires s_in_bounds { length s.now ≤ length cand.old }
    requires s_in_bounds_2 { length s.now ≤ length buf.old }
    requires s_len_bound { length s.now ≤ 32768 }
    ensures answer { result ≡ edge_line s.now a b }
    ensures cand_past { UntouchedPast (length s.now)
        cand.old cand.new }
    ensures buf_past { UntouchedPast (length s.now)
        buf.old buf.new }
{
    let e = crate::corners::edge_of(a, b);
    if e.len < 16.0 {
        return Line::NoLine;
    }
    let m = search(s, e, cand);
    if m < 8 {
        return Line::NoLine;
    }
    consensus(&cand[..2 * m], e, buf)
}
