// The tags of a picture: a tray may carry several. Beyond the Rust, which answers one ring.
//
// Every kept region is tried on its own, and each fix is a tag, in the regions' order. Where no
// region has a fix, the tag is what the finder finds: of all ink together, or by the fallback.
#![tactic(auto)]

ghost use Rattle.std.specs.Prelude.{◌≡◌, length};
ghost use Rattle.refusal.specs.Numbers.{number_in, said};
ghost use Rattle.laws.specs.Lent.{UntouchedPast};
ghost use Rattle.picture.specs.Door.{levels_after, labels_after, StackAfter};
ghost use Rattle.finder.specs.Find.{check_find, needed_of};
ghost use Rattle.tag_list.specs.Tags.{tags_by};
ghost use Rattle.region_outline.specs.Region.{need_of};

use crate::tag::Tags;
use finder::prepare::prepare;
use finder::refusals::Rooms;
use refusal::Refusal;

pub mod claims;
pub mod found;
pub mod sweep;
pub mod tag;

// The tags of a picture of w × h bytes, up to a greatest version. Lists are lent as to the finder:
// points and the three working lists have 4 × (w + h) numbers or more. Refusals: 1, a side outside
// 1..4,096; 2, bytes not w × h; 3, a lent list too short; 8, a greatest version outside 1..64.
pub fn tags(
    gray: &[u8],
    w: usize,
    h: usize,
    most: u32,
    levels: &mut [u8],
    labels: &mut [u32],
    stack: &mut [u32],
    points: &mut [f32],
    straight: &mut [f32],
    cand: &mut [f32],
    buf: &mut [f32],
) -> Result<Tags, Refusal>
    ensures answer { said result ≡ tags_by (check_find w h (length gray.now) (length levels.old)
        (length labels.old) (length stack.old)
        (length points.old) (length straight.old)
        (length cand.old) (length buf.old) most)
        gray.now w h most }
    ensures levels { levels.new
        ≡ levels_after (number_in result) gray.now w h levels.old }
    ensures labels { labels.new
        ≡ labels_after (number_in result) gray.now w h labels.old }
    ensures stack { StackAfter (number_in result) w h stack.old stack.new }
    ensures points { UntouchedPast (needed_of (said result) (need_of w h))
        points.old points.new }
    ensures straight { UntouchedPast (needed_of (said result) (need_of w h))
        straight.old straight.new }
    ensures cand { UntouchedPast (needed_of (said result) (need_of w h))
        cand.old cand.new }
    ensures buf { UntouchedPast (needed_of (said result) (need_of w h))
        buf.old buf.new }
{
    let l = Rooms {
        points: points.len(),
        straight: straight.len(),
        cand: cand.len(),
        buf: buf.len(),
    };
    let k = prepare(gray, w, h, most, levels, labels, stack, l)?;
    let t = found::all_tags(
        gray, w, h, levels, labels, k, most as u8, points, straight, cand, buf,
    );
    Ok(t)
}
