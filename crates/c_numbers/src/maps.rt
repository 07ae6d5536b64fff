// Transforms as eleven numbers, the coefficients m0 to m7, then cx, cy and kappa; pixels of many
// places.
ghost use Rattle.std.specs.Prelude.{◌*◌, ◌+◌, ◌<◌, ◌≤◌, length, ◌≡◌};
ghost use Rattle.laws.specs.Lent.{Stored, laid};
ghost use Rattle.c_numbers.specs.Maps.{map_of, mapped_result, mapped_after, pixel_at, mapped_pixels};
ghost use Rattle.transform.specs.Mapping.{eleven_of};

use transform::Transform;

// The transform of eleven numbers.
pub fn of_eleven(t: &[f64; 11]) -> Transform
    ensures { result ≡ map_of t.now }
{
    Transform {
        m0: t[0],
        m1: t[1],
        m2: t[2],
        m3: t[3],
        m4: t[4],
        m5: t[5],
        m6: t[6],
        m7: t[7],
        cx: t[8],
        cy: t[9],
        kappa: t[10],
    }
}

// The eleven numbers of a transform.
pub fn eleven(t: Transform) -> [f64; 11]
    ensures { result ≡ eleven_of t }
{
    t.into()
}

// A transform, where there is one.
pub fn put_mapped(answer: Option<Transform>, t: &mut [f64; 11]) -> u32
    ensures answer { result ≡ mapped_result answer }
    ensures t { t.new ≡ mapped_after answer t.old }
{
    c_answers::put_some(Ok(answer.map(eleven)), t)
}

// The pixel of place i, x and y by turns.
fn apply_at(t: Transform, uv: &[f32], i: usize, xy: &mut [f32])
    requires i_in_bounds { 2 * i + 1 < length uv.now }
    requires i_in_bounds_2 { 2 * i + 1 < length xy.old }
    ensures { Stored (2 * i) (pixel_at t uv.now i)
        xy.old xy.new (2 * i + 2) }
{
    let p = t.apply(uv[2 * i], uv[2 * i + 1]);
    xy[2 * i] = p.x;
    xy[2 * i + 1] = p.y;
}

// The pixels of all places, from the beginning of xy on.
pub fn apply_each(t: Transform, uv: &[f32], xy: &mut [f32])
    requires { length uv.now ≤ length xy.old }
    ensures { xy.new
        ≡ laid (mapped_pixels t uv.now) xy.old }
{
    let n = uv.len() / 2;
    for i in 0..n {
        apply_at(t, uv, i, xy);
    }
}
