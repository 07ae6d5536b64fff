// The ring door: one attempt at a ring, checked.
ghost use Rattle.std.specs.Prelude.{◌≡◌, length};
ghost use Rattle.laws.specs.Lent.{UntouchedPast};
ghost use Rattle.refusal.specs.Numbers.{said};
ghost use Rattle.ring.specs.Door.{answer_of, needed_of};

use crate::quads::Trace;
use refusal::Refusal;

// The trace of a list of points, x and y alternating, over a picture of width × height bytes, up to
// a greatest version. Three working lists are lent, each as long as the list of points or longer.
pub fn attempt(
    gray: &[u8],
    width: usize,
    height: usize,
    points: &[f32],
    most: u32,
    straight: &mut [f32],
    cand: &mut [f32],
    buf: &mut [f32],
) -> Result<Trace, Refusal>
    ensures answer { said result ≡ answer_of gray.now width height points.now most
        (length straight.old) (length cand.old)
        (length buf.old) }
    ensures straight_past { UntouchedPast (needed_of (said result) points.now)
        straight.old straight.new }
    ensures cand_past { UntouchedPast (needed_of (said result) points.now)
        cand.old cand.new }
    ensures buf_past { UntouchedPast (needed_of (said result) points.now)
        buf.old buf.new }
{
    let a = straight.len();
    let b = cand.len();
    let c = buf.len();
    crate::refusals::check(width, height, gray.len(), points, a, b, c, most)?;
    let t = crate::attempt::attempt(gray, width, height, points, most as u8, straight, cand, buf);
    Ok(t)
}
