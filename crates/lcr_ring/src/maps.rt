// Transforms for C: `from_quad`, `with_radial` and `apply` of crate `transform`. No refusals but
// that of a list too short.
ghost use Rattle.std.specs.Prelude.{◌≡◌, cond, ltb, length};
ghost use Rattle.laws.specs.Lent.{laid};
ghost use Rattle.transform.specs.Mapping.{from_quad, with_radial, applied, eleven_of};
ghost use Rattle.c_numbers.specs.Maps.{map_of, mapped_result, mapped_after, mapped_pixels};

// The transform that takes four corners to four others, without a lens.
#[unsafe(no_mangle)]
pub extern "C" fn lcr_from_quad(src: &[f32; 8], dst: &[f32; 8], t: &mut [f64; 11]) -> u32
    ensures answer { result ≡ mapped_result (from_quad src.now dst.now) }
    ensures t { t.new
        ≡ mapped_after (from_quad src.now dst.now) t.old }
{
    c_numbers::maps::put_mapped(transform::from_quad(*src, *dst), t)
}

// The same coefficients with a lens about (cx, cy), in their place.
#[unsafe(no_mangle)]
pub extern "C" fn lcr_with_radial(t: &mut [f64; 11], cx: f32, cy: f32, kappa: f32) -> u32
    ensures answer { result ≡ 0 }
    ensures t { t.new ≡ eleven_of (with_radial (map_of t.old) cx cy kappa) }
{
    let m = c_numbers::maps::of_eleven(t);
    *t = c_numbers::maps::eleven(m.with_radial(cx, cy, kappa));
    0
}

// The pixel of the place (u, v).
#[unsafe(no_mangle)]
pub extern "C" fn lcr_apply(t: &[f64; 11], u: f32, v: f32, x: &mut f32, y: &mut f32) -> u32
    ensures answer { result ≡ 0 }
    ensures x { x.new ≡ (applied (map_of t.now) u v).x }
    ensures y { y.new ≡ (applied (map_of t.now) u v).y }
{
    let m = c_numbers::maps::of_eleven(t);
    let p = m.apply(u, v);
    *x = p.x;
    *y = p.y;
    0
}

// The pixels of many places; u and v by turns, then x and y.
#[unsafe(no_mangle)]
pub extern "C" fn lcr_apply_all(t: &[f64; 11], uv: &[f32], xy: &mut [f32]) -> u32
    ensures answer { result
        ≡ cond (ltb (length xy.old) (length uv.now)) 3 0 }
    ensures xy { xy.new
        ≡ cond (ltb (length xy.old) (length uv.now)) xy.old
        (laid (mapped_pixels (map_of t.now) uv.now) xy.old) }
{
    if xy.len() < uv.len() {
        return 3;
    }
    c_numbers::maps::apply_each(c_numbers::maps::of_eleven(t), uv, xy);
    0
}
