// A trace put into the out-parameters of the C functions of the ring door and the finder. A ring is
// fifteen numbers: version, agreement, corner, mirrored, then the transform's eleven; all 0 where
// there is none. A score is four: version, agreement, corner, mirrored.
#![tactic(auto)]

ghost use Rattle.std.specs.Prelude.{◌≡◌, ◌+◌, ◌%◌, ◌≤◌, length};
ghost use Rattle.laws.specs.Fold.{bit};
ghost use Rattle.laws.specs.Lent.{Stored};
ghost use Rattle.c_rings.specs.Rings.{four_of, score_rows, fifteen_of, ring_of};
ghost use Rattle.c_rings.specs.Rings.{found_numbers, is_found};

use accept::Fix;
use hull::points::Quad;
use ring::quads::Trace;
use search::versions::Score;

pub mod tags;

// 1 or 0.
pub(crate) fn flag(b: bool) -> u8
    ensures { result ≡ bit b }
{
    u8::from(b)
}

// A corner's number, 0 to 3.
fn corner_of(n: usize) -> u8
    ensures { result ≡ n % 4 }
{
    (n % 4) as u8
}

// The four numbers of a score, from a place on.
fn put_score(s: Score, scores: &mut [f32], at: usize)
    requires { at + 4 ≤ length scores.old }
    ensures { Stored at (four_of s) scores.old scores.new (at + 4) }
{
    scores[at] = s.version as f32;
    scores[at + 1] = s.agreement;
    scores[at + 2] = corner_of(s.corner) as f32;
    scores[at + 3] = flag(s.mirrored) as f32;
}

// Four numbers of each of 64 places.
fn put_scores(list: [Score; 64], scores: &mut [f32])
    requires { 256 ≤ length scores.old }
    ensures { Stored 0 (score_rows list) scores.old scores.new 256 }
{
    for k in 0..64 {
        put_score(list[k], scores, 4 * k);
    }
}

// The same in a list of their own; those past the last score are 0.
fn rows(list: [Score; 64]) -> [f32; 256]
    ensures { result ≡ score_rows list }
{
    let mut all = [0f32; 256];
    put_scores(list, &mut all);
    all
}

// The fifteen numbers of a ring.
fn fifteen(f: Fix) -> [f64; 15]
    ensures { result ≡ fifteen_of f }
{
    let t = f.map;
    [
        f.version as f64,
        std::num::f32_to_f64_with_nan(f.agreement),
        corner_of(f.corner) as f64,
        flag(f.mirrored) as f64,
        t.m0,
        t.m1,
        t.m2,
        t.m3,
        t.m4,
        t.m5,
        t.m6,
        t.m7,
        t.cx,
        t.cy,
        t.kappa,
    ]
}

// The numbers of a ring, 0 where there is none.
fn ring_of(f: Option<Fix>) -> [f64; 15]
    ensures { result ≡ ring_of f }
{
    match f {
        Some(x) => fifteen(x),
        None => [0f64; 15],
    }
}

// The numbers of a quad, 0 where there is none.
fn corners_of(c: Option<Quad>) -> [f32; 8]
    ensures { result ≡ found_numbers c }
{
    match c {
        Some(q) => c_pictures::shapes::numbers(q),
        None => [0f32; 8],
    }
}

// Whether there is a quad.
fn is_found(c: Option<Quad>) -> bool
    ensures { result ≡ is_found c }
{
    c.is_some()
}

// Every number of a trace.
pub fn put_trace(
    t: Trace,
    hull: &mut usize,
    found: &mut bool,
    quad: &mut [f32; 8],
    tried: &mut usize,
    scores: &mut [f32; 256],
    fix: &mut [f64; 15],
    fallback: &mut [f64; 15],
)
    ensures hull { hull.new ≡ t.hull }
    ensures found { found.new ≡ is_found t.quad }
    ensures quad { quad.new ≡ found_numbers t.quad }
    ensures tried { tried.new ≡ t.scores.many }
    ensures scores { scores.new ≡ score_rows t.scores.list }
    ensures fix { fix.new ≡ ring_of t.fix }
    ensures fallback { fallback.new ≡ ring_of t.fallback }
{
    *hull = t.hull;
    let corners = t.quad;
    *found = is_found(corners);
    *quad = corners_of(corners);
    let all = t.scores;
    let list = all.list;
    *tried = all.many;
    *scores = rows(list);
    let a = t.fix;
    *fix = ring_of(a);
    let b = t.fallback;
    *fallback = ring_of(b);
}
