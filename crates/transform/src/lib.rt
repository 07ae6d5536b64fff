// The transform from module space to pixels, as transform.rs has it: `from_quad`, `with_radial`,
// `apply`. Every f32 is taken, and none has a `requires`.
#![tactic(auto)]

mod corners;

ghost use Rattle.std.specs.Prelude.{◌≡◌};
ghost use Rattle.transform.specs.Mapping.{homography, from_quad, with_radial, guarded, flat_place, bent, through_lens, applied, no_pixel, eleven_of};

// Eight coefficients and three lens numbers, all f64. The pixel of (u, v) is
// (m0 u + m1 v + m2, m3 u + m4 v + m5) / (m6 u + m7 v + 1), then bent about (cx, cy) by kappa.
#[derive(Clone, Copy)]
pub struct Transform {
    pub m0: f64,
    pub m1: f64,
    pub m2: f64,
    pub m3: f64,
    pub m4: f64,
    pub m5: f64,
    pub m6: f64,
    pub m7: f64,
    // the lens's centre, in pixels
    pub cx: f64,
    pub cy: f64,
    // the lens's coefficient, per square pixel; 0 is no lens
    pub kappa: f64,
}

// A transform as its eleven numbers: the coefficients, then the lens.
impl From<Transform> for [f64; 11] {
    ghost from_gives = { λ t s. s ≡ eleven_of t };

    fn from(t: Transform) -> [f64; 11] {
        [
            t.m0, t.m1, t.m2, t.m3, t.m4, t.m5, t.m6, t.m7, t.cx, t.cy, t.kappa,
        ]
    }
}

// A place in the picture, in pixels.
#[derive(Clone, Copy)]
pub struct Pixel {
    pub x: f32,
    pub y: f32,
}

// A place or an offset in f64, in pixels.
#[derive(Clone, Copy)]
pub struct Place {
    pub x: f64,
    pub y: f64,
}

// Eight coefficients without a lens.
fn coefficients(x: [f64; 8]) -> Transform
    ensures { result ≡ homography x }
{
    Transform {
        m0: x[0],
        m1: x[1],
        m2: x[2],
        m3: x[3],
        m4: x[4],
        m5: x[5],
        m6: x[6],
        m7: x[7],
        cx: 0.0,
        cy: 0.0,
        kappa: 0.0,
    }
}

// The transform that takes four corners to four others, where there is one; x and y of each alternate.
pub fn from_quad(src: [f32; 8], dst: [f32; 8]) -> Option<Transform>
    ensures { result ≡ from_quad src dst }
{
    let s = corners::wide8(src);
    let mut b = corners::wide8(dst);
    let mut a = corners::equations_of(s, b);
    let x = math::equations::run(&mut a, &mut b, 8)?;
    Some(coefficients(x))
}

// A divisor kept away from 0.
fn guard(w: f64) -> f64
    ensures { result ≡ guarded w }
{
    if w < 1e-9 {
        if -1e-9 < w {
            return 1e-9;
        }
    }
    w
}

// The place of (u, v) without the lens.
fn flat(t: Transform, u: f64, v: f64) -> Place
    ensures { result ≡ flat_place t u v }
{
    let w = guard(t.m6 * u + t.m7 * v + 1.0);
    Place {
        x: (t.m0 * u + t.m1 * v + t.m2) / w,
        y: (t.m3 * u + t.m4 * v + t.m5) / w,
    }
}

// One round towards the sensor's offset whose straightened offset is u.
fn bend(k: f64, u: Place, d: Place) -> Place
    ensures { result ≡ bent k u d }
{
    let s = 1.0 + k * (d.x * d.x + d.y * d.y);
    Place {
        x: u.x / s,
        y: u.y / s,
    }
}

// Through the lens, if there is one: four rounds from the straightened offset.
fn lens(cx: f64, cy: f64, k: f64, p: Place) -> Place
    ensures { result ≡ through_lens cx cy k p }
{
    if k == 0.0 {
        return p;
    }
    let u = Place {
        x: p.x - cx,
        y: p.y - cy,
    };
    let d1 = bend(k, u, u);
    let d2 = bend(k, u, d1);
    let d3 = bend(k, u, d2);
    let d4 = bend(k, u, d3);
    Place {
        x: cx + d4.x,
        y: cy + d4.y,
    }
}

// The pixel of (u, v), as wide numbers.
fn seen(t: Transform, u: f64, v: f64) -> Pixel
    ensures { result ≡ applied t u v }
{
    let p = flat(t, u, v);
    let q = lens(t.cx, t.cy, t.kappa, p);
    let r = ieee::narrowed2(q.x, q.y);
    Pixel { x: r.x, y: r.y }
}

// That of a NaN.
fn no_pixel() -> Pixel
    ensures { result ≡ no_pixel }
{
    Pixel {
        x: 0.0 / 0.0,
        y: 0.0 / 0.0,
    }
}

impl Transform {
    // The same coefficients with a lens about (cx, cy).
    pub fn with_radial(self, cx: f32, cy: f32, kappa: f32) -> Transform
        ensures { result ≡ with_radial self cx cy kappa }
    {
        Transform {
            cx: corners::wide(cx),
            cy: corners::wide(cy),
            kappa: corners::wide(kappa),
            ..self
        }
    }

    // The pixel of the place (u, v) in module space.
    pub fn apply(self, u: f32, v: f32) -> Pixel
        ensures { result ≡ applied self u v }
    {
        if u != u {
            return no_pixel();
        }
        if v != v {
            return no_pixel();
        }
        seen(self, u as f64, v as f64)
    }
}
