// The mean of four edges' coefficients and whether they agree on it, as `estimate_lens` of the
// Rust's ring.rs weighs them.
ghost use Rattle.std.specs.Prelude.{◌≡◌};
ghost use Rattle.lens.specs.Estimate.{measures_of, weights, shares, agrees, all_agree};
ghost use Rattle.lens.specs.Estimate.{corner_reach, slope_step};

use crate::estimate::{Pass, Slopes};
use crate::measure::Slope;
use hull::points::{Point, Quad};

// The four measures, or none where one is none.
pub fn measures(
    a: Option<Slope>,
    b: Option<Slope>,
    c: Option<Slope>,
    d: Option<Slope>,
) -> Option<Slopes>
    ensures { result ≡ measures_of a b c d }
{
    let fa = a?;
    let fb = b?;
    let fc = c?;
    let fd = d?;
    Some(Slopes {
        a: fa,
        b: fb,
        c: fc,
        d: fd,
    })
}

// The sum of the weights 1 / se².
fn weigh(t: Slopes) -> f32
    ensures { result ≡ weights t }
{
    0.0 + 1.0 / (t.a.se * t.a.se)
        + 1.0 / (t.b.se * t.b.se)
        + 1.0 / (t.c.se * t.c.se)
        + 1.0 / (t.d.se * t.d.se)
}

// The sum of the coefficients by their weights.
fn summed(t: Slopes) -> f32
    ensures { result ≡ shares t }
{
    0.0 + t.a.k / (t.a.se * t.a.se)
        + t.b.k / (t.b.se * t.b.se)
        + t.c.k / (t.c.se * t.c.se)
        + t.d.k / (t.d.se * t.d.se)
}

// Whether an edge agrees with the mean.
fn agree(step: f32, total: f32, f: Slope) -> bool
    ensures { result ≡ agrees step total f }
{
    !(ieee::abs32(f.k - step) > 3.0 * f.se + 0.25 * total)
}

// Whether all four agree.
fn all_agree(step: f32, total: f32, t: Slopes) -> bool
    ensures { result ≡ all_agree step total t }
{
    if agree(step, total, t.a) {
        if agree(step, total, t.b) {
            if agree(step, total, t.c) {
                return agree(step, total, t.d);
            }
        }
    }
    false
}

// The greatest of reach and the corners' squared distances from the centre.
pub fn reach_of(q: Quad, m: Point, reach: f32) -> f32
    ensures { result ≡ corner_reach q m reach }
{
    let a = ieee::max32(reach, fit::corners::d2(q.a.x, q.a.y, m));
    let b = ieee::max32(a, fit::corners::d2(q.b.x, q.b.y, m));
    let c = ieee::max32(b, fit::corners::d2(q.c.x, q.c.y, m));
    ieee::max32(c, fit::corners::d2(q.d.x, q.d.y, m))
}

// κ with the mean added, or none.
pub fn step(t: Slopes, kappa: f32, reach: f32) -> Option<Pass>
    ensures { result ≡ slope_step t kappa reach }
{
    let den = weigh(t);
    if den == 0.0 {
        return None;
    }
    if !ieee::is_finite(den) {
        return None;
    }
    let mean = summed(t) / den;
    let total = kappa + mean;
    if all_agree(mean, ieee::abs32(total), t) {
        return Some(Pass {
            kappa: total,
            reach: reach,
        });
    }
    None
}
