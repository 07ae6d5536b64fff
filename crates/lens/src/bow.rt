// How an edge bows: `bow_fit` of the Rust's ring.rs. Samples are alternating t, o in one list: how
// far along the edge, as a fraction of its length, and how far outward, in pixels.
ghost use Rattle.std.specs.Prelude.{◌≡◌, ◌+◌, ◌<◌, ◌≤◌, length};
ghost use Rattle.lens.specs.Bow.{inlier_of, row_added, sample_of, normal_of, solved_of, rest_of};
ghost use Rattle.lens.specs.Bow.{square_in, rss_of, positive_of, bow_of, two_fits};

// A bow c0 + c1·t + a·t·(1 − t) in pixels, with the standard error of a.
#[derive(Clone, Copy)]
pub struct Bow {
    pub c0: f32,
    pub c1: f32,
    pub a: f32,
    pub error: f32,
}

// The normal equations of a bow: how many samples count, the sums of the products of 1, t and
// g = t·(1 − t), and those of their products with o.
#[derive(Clone, Copy)]
pub struct Normal {
    pub n: usize,
    pub one: f64,
    pub t: f64,
    pub g: f64,
    pub tt: f64,
    pub tg: f64,
    pub gg: f64,
    pub o: f64,
    pub to: f64,
    pub go: f64,
}

// Whether a sample counts: within 2 of the bow before, where there is one.
fn inlier(prev: Option<Bow>, t: f32, o: f32, g: f32) -> bool
    ensures { result ≡ inlier_of prev t o g }
{
    let Some(b) = prev else {
        return true;
    };
    !(ieee::abs32(o - b.c0 - b.c1 * t - b.a * g) > 2.0)
}

// One more row 1, t, g and its right side o.
fn add_row(a: Normal, t: f64, g: f64, o: f64) -> Normal
    requires { a.n < 32768 }
    ensures { result ≡ row_added a t g o }
{
    Normal {
        n: a.n + 1,
        one: a.one + 1.0,
        t: a.t + t,
        g: a.g + g,
        tt: a.tt + t * t,
        tg: a.tg + t * g,
        gg: a.gg + g * g,
        o: a.o + o,
        to: a.to + t * o,
        go: a.go + g * o,
    }
}

// One more sample, where it counts.
fn add_sample(a: Normal, prev: Option<Bow>, t: f32, o: f32) -> Normal
    requires { a.n < 32768 }
    ensures { (result ≡ sample_of prev t o a) × (result.n ≤ a.n + 1) }
{
    let g = t * (1.0 - t);
    if inlier(prev, t, o, g) {
        return add_row(
            a,
            std::num::f32_to_f64_with_nan(t),
            std::num::f32_to_f64_with_nan(g),
            std::num::f32_to_f64_with_nan(o),
        );
    }
    a
}

// The normal equations of the samples.
fn normal_of(s: &[f32], prev: Option<Bow>) -> Normal
    requires { length s.now ≤ 32768 }
    ensures { (result ≡ normal_of s.now prev) × (result.n ≤ 16384) }
{
    let n = s.len() / 2;
    let mut a = Normal {
        n: 0,
        one: 0.0,
        t: 0.0,
        g: 0.0,
        tt: 0.0,
        tg: 0.0,
        gg: 0.0,
        o: 0.0,
        to: 0.0,
        go: 0.0,
    };
    for k in 0..n {
        a = add_sample(a, prev, s[2 * k], s[2 * k + 1]);
    }
    a
}

// The unknowns of three equations with a right side, or none.
fn solve3(a: Normal, v0: f64, v1: f64, v2: f64) -> Option<[f64; 3]>
    ensures { result ≡ solved_of a v0 v1 v2 }
{
    let mut m = [a.one, a.t, a.g, a.t, a.tt, a.tg, a.g, a.tg, a.gg];
    let mut v = [v0, v1, v2];
    if math::elimination::forward(&mut m, &mut v, 3) {
        let mut x = [0.0, 0.0, 0.0];
        math::elimination::back(&m, &v, &mut x, 3);
        return Some(x);
    }
    None
}

// How far a sample is off a bow.
fn rest(f0: f32, f1: f32, f2: f32, t: f32, o: f32) -> f32
    ensures { result ≡ rest_of f0 f1 f2 t o }
{
    o - f0 - f1 * t - f2 * t * (1.0 - t)
}

// A sum with the square of r, where all count or r is at most 2 in magnitude.
fn square_in(all: bool, sum: f32, r: f32) -> f32
    ensures { result ≡ square_in all sum r }
{
    if all {
        return sum + r * r;
    }
    if fit::middle::at_most(r, 2.0) {
        return sum + r * r;
    }
    sum
}

// The sum of the squares of what the samples are off a bow.
fn rss(s: &[f32], all: bool, f0: f32, f1: f32, f2: f32) -> f32
    ensures { result ≡ rss_of s.now all f0 f1 f2 }
{
    let n = s.len() / 2;
    let mut sum = 0.0f32;
    for k in 0..n {
        sum = square_in(all, sum, rest(f0, f1, f2, s[2 * k], s[2 * k + 1]));
    }
    sum
}

// The greater of x and 0; a NaN counts as 0.
fn positive(x: f64) -> f64
    ensures { result ≡ positive_of x }
{
    if 0.0 < x {
        return x;
    }
    0.0
}

// The bow that fits the samples best, of those near the bow before, where there is one; or none.
pub fn bow_fit(s: &[f32], prev: Option<Bow>) -> Option<Bow>
    requires { length s.now ≤ 32768 }
    ensures { result ≡ bow_of s.now prev }
{
    let a = normal_of(s, prev);
    if a.n < 8 {
        return None;
    }
    let x = solve3(a, a.o, a.to, a.go)?;
    let inverse = solve3(a, 0.0, 0.0, 1.0)?;
    let f0 = ieee::narrowed(x[0]);
    let f1 = ieee::narrowed(x[1]);
    let f2 = ieee::narrowed(x[2]);
    let sum = rss(s, prev.is_none(), f0, f1, f2);
    let n = (a.n - 3) as f32;
    let var = sum / n * ieee::narrowed(positive(inverse[2]));
    Some(Bow {
        c0: f0,
        c1: f1,
        a: f2,
        error: ieee::root(var),
    })
}

// The bow in two fits: of all samples, then of those near the first.
pub(crate) fn two_fits(s: &[f32]) -> Option<Bow>
    requires { length s.now ≤ 32768 }
    ensures { result ≡ two_fits s.now }
{
    let first = bow_fit(s, None)?;
    bow_fit(s, Some(first))
}
