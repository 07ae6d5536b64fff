// The finder: a grey picture in, the trace of its ring out. `trace` and `detect_ring` of the Rust's
// ring.rs.
//
// Each kept region is tried on its own, largest first; where there is more than one region, all ink
// together is tried last, since a ring at a large pitch falls into several regions and only all of
// them have its hull. The first trace with a fix stands, else the one with the greatest score, and
// its fallback is promoted.
#![tactic(auto)]

ghost use Rattle.std.specs.Prelude.{◌≡◌, length};
ghost use Rattle.refusal.specs.Numbers.{number_in, said};
ghost use Rattle.laws.specs.Lent.{UntouchedPast};
ghost use Rattle.picture.specs.Door.{levels_after, labels_after, StackAfter};
ghost use Rattle.region_outline.specs.Region.{need_of};
ghost use Rattle.finder.specs.Find.{check_find, answer_by, needed_of};

use crate::prepare::prepare;
use crate::refusals::Rooms;
use refusal::Refusal;
use ring::quads::Trace;

pub mod best;
pub mod claims;
pub mod outlines;
pub mod prepare;
pub mod refusals;
pub mod tries;

// What the finder finds in a picture.
#[derive(Clone, Copy)]
pub struct Found {
    // how many regions the picture has, kept or not
    pub regions: usize,
    // the trace that stands; its fix is the ring
    pub trace: Trace,
}

// The finder's entry: the trace of a picture of width × height bytes, up to a greatest version.
// levels, labels and stack are lent as to the picture door; points and the three working lists have
// 4 × (width + height) numbers or more, which an outline of the whole picture can need. Refusals: 1,
// a side outside 1..4,096; 2, bytes not width × height; 3, a lent list too short; 8, a greatest
// version outside 1..64.
pub fn find(
    gray: &[u8],
    w: usize,
    h: usize,
    most: u32,
    levels: &mut [u8],
    labels: &mut [u32],
    stack: &mut [u32],
    points: &mut [f32],
    straight: &mut [f32],
    cand: &mut [f32],
    buf: &mut [f32],
) -> Result<Found, Refusal>
    ensures answer { said result ≡ answer_by (check_find w h (length gray.now) (length levels.old)
        (length labels.old) (length stack.old)
        (length points.old) (length straight.old)
        (length cand.old) (length buf.old) most)
        gray.now w h most }
    ensures levels { levels.new
        ≡ levels_after (number_in result) gray.now w h levels.old }
    ensures labels { labels.new
        ≡ labels_after (number_in result) gray.now w h labels.old }
    ensures stack { StackAfter (number_in result) w h stack.old stack.new }
    ensures points { UntouchedPast (needed_of (said result) (need_of w h))
        points.old points.new }
    ensures straight { UntouchedPast (needed_of (said result) (need_of w h))
        straight.old straight.new }
    ensures cand { UntouchedPast (needed_of (said result) (need_of w h))
        cand.old cand.new }
    ensures buf { UntouchedPast (needed_of (said result) (need_of w h))
        buf.old buf.new }
{
    let l = Rooms {
        points: points.len(),
        straight: straight.len(),
        cand: cand.len(),
        buf: buf.len(),
    };
    let k = prepare(gray, w, h, most, levels, labels, stack, l)?;
    let t = tries::trace(
        gray, w, h, levels, labels, k, most as u8, points, straight, cand, buf,
    );
    Ok(Found {
        regions: k.all,
        trace: t,
    })
}
