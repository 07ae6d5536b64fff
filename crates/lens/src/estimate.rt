// The lens that a ring's four edges tell of, in two passes: `estimate_lens` of the Rust's ring.rs.
// Points are alternating x, y in one list.
ghost use Rattle.std.specs.Prelude.{◌≡◌, ◌≤◌, length, Some};
ghost use Rattle.laws.specs.Lent.{UntouchedPast};
ghost use Rattle.lens.specs.Measure.{measure_of};
ghost use Rattle.lens.specs.Estimate.{after_measure, quad_measures, step_by, lens_pass, hull_quad};
ghost use Rattle.lens.specs.Estimate.{second_of, lens_end, lens_of};

use crate::measure::Slope;
use crate::straight::Lens;
use hull::points::{Point, Quad};

// What the four edges of a quad tell of the lens.
#[derive(Clone, Copy)]
pub struct Slopes {
    pub a: Slope,
    pub b: Slope,
    pub c: Slope,
    pub d: Slope,
}

// What a pass leaves: the coefficient κ so far in pixels to the −2, and the greatest squared
// distance of a corner from the centre in square pixels.
#[derive(Clone, Copy)]
pub struct Pass {
    pub kappa: f32,
    pub reach: f32,
}

// What the edge from a to b tells, or nothing without a look at the points where the edge before
// tells nothing.
fn next_measure(
    s: &[f32],
    before: Option<Slope>,
    a: Point,
    b: Point,
    m: Point,
    buf: &mut [f32],
) -> Option<Slope>
    requires s_in_bounds { length s.now ≤ length buf.old }
    requires s_len_bound { length s.now ≤ 32768 }
    ensures answer { result ≡ after_measure before (measure_of s.now a b m) }
    ensures buf_past { UntouchedPast (length s.now)
        buf.old buf.new }
{
    before?;
    crate::measure::measure_edge(s, a, b, m, buf)
}

// What the edges of a quad tell, or nothing where one tells nothing.
fn edges(s: &[f32], q: Quad, m: Point, buf: &mut [f32]) -> Option<Slopes>
    requires s_in_bounds { length s.now ≤ length buf.old }
    requires s_len_bound { length s.now ≤ 32768 }
    ensures answer { result ≡ quad_measures s.now q m }
    ensures buf_past { UntouchedPast (length s.now)
        buf.old buf.new }
{
    let ab = crate::measure::measure_edge(s, q.a, q.b, m, buf);
    let bc = next_measure(s, ab, q.b, q.c, m, buf);
    let cd = next_measure(s, bc, q.c, q.d, m, buf);
    let da = next_measure(s, cd, q.d, q.a, m, buf);
    crate::weigh::measures(ab, bc, cd, da)
}

// The pass by what the edges tell; no lens where they tell nothing.
fn step_by(t: Option<Slopes>, kappa: f32, reach: f32) -> Option<Pass>
    ensures { result ≡ step_by t kappa reach }
{
    crate::weigh::step(t?, kappa, reach)
}

// One pass over points with their quad; no lens without one.
fn one_pass(
    s: &[f32],
    q: Option<Quad>,
    m: Point,
    kappa: f32,
    reach: f32,
    buf: &mut [f32],
) -> Option<Pass>
    requires s_in_bounds { length s.now ≤ length buf.old }
    requires s_len_bound { length s.now ≤ 32768 }
    ensures answer { result ≡ lens_pass s.now q m kappa reach }
    ensures buf_past { UntouchedPast (length s.now)
        buf.old buf.new }
{
    let f = q?;
    let t = edges(s, f, m, buf);
    step_by(t, kappa, crate::weigh::reach_of(f, m, reach))
}

// One pass over straightened points, with the quad of their hull.
fn straight_pass(s: &[f32], m: Point, kappa: f32, reach: f32, buf: &mut [f32]) -> Option<Pass>
    requires s_in_bounds { length s.now ≤ length buf.old }
    requires s_len_bound { length s.now ≤ 32768 }
    ensures answer { result ≡ lens_pass s.now (hull_quad s.now) m kappa reach }
    ensures buf_past { UntouchedPast (length s.now)
        buf.old buf.new }
{
    let o = crate::outer::outer_of(s, buf);
    let q = o.quad;
    one_pass(s, q, m, kappa, reach, buf)
}

// The second pass, after what the first one left.
fn second(
    s: &[f32],
    raw: Option<Quad>,
    m: Point,
    first: Pass,
    straight: &mut [f32],
    buf: &mut [f32],
) -> Option<Pass>
    requires s_in_bounds { length s.now ≤ length straight.old }
    requires s_in_bounds_2 { length s.now ≤ length buf.old }
    requires s_len_bound { length s.now ≤ 32768 }
    ensures answer { result ≡ second_of s.now raw m (Some first) }
    ensures straight_past { UntouchedPast (length s.now)
        straight.old straight.new }
    ensures buf_past { UntouchedPast (length s.now)
        buf.old buf.new }
{
    if first.kappa == 0.0 {
        return one_pass(s, raw, m, first.kappa, first.reach, buf);
    }
    let l = Lens {
        x: m.x,
        y: m.y,
        k: first.kappa,
    };
    let r = crate::straight::undistort(s, l, straight);
    straight_pass(&straight[..2 * r], m, first.kappa, first.reach, buf)
}

// The lens of the last pass; κ = 0 without one.
fn end(m: Point, last: Option<Pass>) -> Lens
    ensures { result ≡ lens_end m last }
{
    let Some(p) = last else {
        return Lens {
            x: m.x,
            y: m.y,
            k: 0.0,
        };
    };
    if ieee::abs32(p.kappa * p.reach) < 0.004 {
        return Lens {
            x: m.x,
            y: m.y,
            k: 0.0,
        };
    }
    Lens {
        x: m.x,
        y: m.y,
        k: p.kappa,
    }
}

// The lens about m that the points and their quad tell of; κ = 0 where they tell of none.
pub fn estimate_lens(
    s: &[f32],
    raw: Option<Quad>,
    m: Point,
    straight: &mut [f32],
    buf: &mut [f32],
) -> Lens
    requires s_in_bounds { length s.now ≤ length straight.old }
    requires s_in_bounds_2 { length s.now ≤ length buf.old }
    requires s_len_bound { length s.now ≤ 32768 }
    ensures answer { result ≡ lens_of s.now raw m }
    ensures straight_past { UntouchedPast (length s.now)
        straight.old straight.new }
    ensures buf_past { UntouchedPast (length s.now)
        buf.old buf.new }
{
    let Some(first) = one_pass(s, raw, m, 0.0, 0.0, buf) else {
        return end(m, None);
    };
    end(m, second(s, raw, m, first, straight, buf))
}
