// What every entry over the outlines of a picture begins with: all checks, then the picture door.
ghost use Rattle.std.specs.Prelude.{◌≡◌, Ok, length};
ghost use Rattle.refusal.specs.Numbers.{number_in, said};
ghost use Rattle.laws.specs.Plane.{plane};
ghost use Rattle.regions.specs.Regions.{kept_regions};
ghost use Rattle.regions.specs.declared.answer.Kept.{Kept};
ghost use Rattle.picture.specs.Door.{answer_by, levels_after, labels_after, StackAfter};
ghost use Rattle.finder.specs.Find.{check_find};
ghost use Rattle.finder.specs.Inner.{FinderReady};

use crate::refusals::{Rooms, check};
use refusal::Refusal;
use regions::answer::Kept;

// The regions of a picture with its level grid and labels, where all checks pass: those of the
// picture door, of lists of numbers of these lengths, and of the greatest version.
pub fn prepare(
    gray: &[u8],
    w: usize,
    h: usize,
    most: u32,
    levels: &mut [u8],
    labels: &mut [u32],
    stack: &mut [u32],
    l: Rooms,
) -> Result<Kept, Refusal>
    ensures answer { said result ≡ answer_by (check_find w h (length gray.now) (length levels.old)
        (length labels.old) (length stack.old) l.points l.straight
        l.cand l.buf most) (kept_regions (plane w gray.now) w h) }
    ensures levels { levels.new
        ≡ levels_after (number_in result) gray.now w h levels.old }
    ensures labels { labels.new
        ≡ labels_after (number_in result) gray.now w h labels.old }
    ensures stack { StackAfter (number_in result) w h stack.old stack.new }
    ensures ready { (k : Kept) → result ≡ Ok k → FinderReady gray.now w h most levels.new
        labels.new k l }
{
    let a = levels.len();
    let b = labels.len();
    let c = stack.len();
    check(w, h, gray.len(), a, b, c, l, most)?;
    picture::picture(gray, w, h, levels, labels, stack)
}
