// One candidate quad correlated against every version, and the better of two: `correlate_quad` of
// the Rust's ring.rs and the end of its `attempt`.
ghost use Rattle.std.specs.Prelude.{◌≡◌, ◌≤◌};
ghost use Rattle.search.specs.Samples.{Photo};
ghost use Rattle.ring.specs.Trace.{span_of, is_fixed, fallback_of, trace_by, quad_trace, top_of};
ghost use Rattle.ring.specs.Trace.{better_of, both_quads};

use accept::Fix;
use hull::points::Quad;
use lens::straight::Lens;
use search::versions::{Goal, Scores};

// What an attempt looked at and found.
#[derive(Clone, Copy)]
pub struct Trace {
    // vertices of the hull that was searched: of the points, straightened where there is a lens
    pub hull: usize,
    // the quad that was searched, in pixels, straightened where there is a lens; or none
    pub quad: Option<Quad>,
    // the scores of the versions tried, in version order
    pub scores: Scores,
    // the accepted ring, or none
    pub fix: Option<Fix>,
    // the ring under the relaxed rule, where there is no fix
    pub fallback: Option<Fix>,
}

// The outer side of a quad: its mean diagonal over the root of 2.
fn span_of(q: Quad) -> f32
    ensures { result ≡ span_of q }
{
    let ac = ieee::root(fit::corners::d2(q.a.x, q.a.y, q.c));
    let bd = ieee::root(fit::corners::d2(q.b.x, q.b.y, q.d));
    (ac + bd) / 2.0 / 1.4142135
}

// Whether there is a fix.
pub fn is_fixed(f: Option<Fix>) -> bool
    ensures { result ≡ is_fixed f }
{
    f.is_some()
}

// The fix under the relaxed rule, where there is none under the ordinary one.
fn fallback_of(f: Option<Fix>, q: Quad, s: Scores, l: Lens) -> Option<Fix>
    requires { s.many ≤ 64 }
    ensures { result ≡ fallback_of f q s l }
{
    match f {
        Some(_) => None,
        None => accept::accept(q, s, l, true),
    }
}

// The trace of a quad by its scores.
fn trace_by(q: Quad, l: Lens, hull: usize, s: Scores) -> Trace
    requires { s.many ≤ 64 }
    ensures { result ≡ trace_by q l hull s }
{
    let fix = accept::accept(q, s, l, false);
    let fallback = fallback_of(fix, q, s, l);
    Trace {
        hull: hull,
        quad: Some(q),
        scores: s,
        fix: fix,
        fallback: fallback,
    }
}

// One candidate quad, correlated against every version.
fn correlate_quad(gray: &[u8], w: usize, h: usize, q: Quad, l: Lens, hull: usize, most: u8) -> Trace
    requires photo { Photo gray.now w h }
    requires most_bound { most ≤ 64 }
    ensures answer { result ≡ quad_trace gray.now w h q l hull most }
    ensures bounds { result.scores.many ≤ 64 }
{
    let g = Goal {
        quad: q,
        lens: l,
        most: most,
        span: span_of(q),
    };
    let s = search::versions::run(gray, w, h, g);
    let scores = s.scores;
    trace_by(q, l, hull, scores)
}

// The greatest score of a trace, at least 0.
fn top_of(t: Trace) -> f32
    requires { t.scores.many ≤ 64 }
    ensures { result ≡ top_of t }
{
    let s = t.scores;
    accept::runner_up(s, 64)
}

// Of two traces the first with a fix; without one the second where its greatest score is greater.
pub fn better(t: Trace, u: Trace) -> Trace
    requires many_bound { t.scores.many ≤ 64 }
    requires many_bound_2 { u.scores.many ≤ 64 }
    ensures { result ≡ better_of t u }
{
    let f = u.fix;
    if is_fixed(f) {
        return u;
    }
    if top_of(t) < top_of(u) {
        return u;
    }
    t
}

// The edge quad and the refined quad tried: the edge quad first, and only where it differs by more
// than 3 at some corner.
pub(crate) fn try_quads(
    gray: &[u8],
    w: usize,
    h: usize,
    edges: Option<Quad>,
    refined: Quad,
    l: Lens,
    hull: usize,
    most: u8,
) -> Trace
    requires photo { Photo gray.now w h }
    requires most_bound { most ≤ 64 }
    ensures { result ≡ both_quads gray.now w h edges refined l hull most }
{
    let Some(e) = edges else {
        return correlate_quad(gray, w, h, refined, l, hull, most);
    };
    if fit::corners::same_quad(e, refined, 3.0) {
        return correlate_quad(gray, w, h, refined, l, hull, most);
    }
    let t = correlate_quad(gray, w, h, e, l, hull, most);
    let f = t.fix;
    if is_fixed(f) {
        return t;
    }
    let u = correlate_quad(gray, w, h, refined, l, hull, most);
    better(t, u)
}
