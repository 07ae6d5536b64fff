// Darkness of many boxes: a table of running ink counts, filled once, and the number of ink pixels
// of each box from four reads of it.
#![tactic(auto)]

ghost use Rattle.std.specs.Prelude.{◌≡◌, length};
ghost use Rattle.refusal.specs.Numbers.{number_in};
ghost use Rattle.darkness.specs.Door.{check_darkness, table_after, counts_after};

use crate::counts::count_all;
use crate::refusals::check;
use crate::table::fill_table;
use refusal::Refusal;

pub mod claims;
mod counts;
mod refusals;
mod table;

// The number of ink pixels of each box of a picture of w by h: of the bytes s, by the thresholds of
// the level cells in levels. Boxes are x0, y0, x1, y1 by fours, the last two exclusive. Lent: a
// table of (w + 1) × (h + 1) numbers, which holds the running counts afterwards, and a place of
// counts for each box. A refusal changes nothing: 1, a side outside 1..4,096; 2, bytes not w × h;
// 3, a level grid shorter than its cells, a table too short, or fewer places for counts than whole
// fours of box numbers; 18, the list of boxes is not whole fours of numbers, or has a box with
// x0 > x1 or y0 > y1 or past the picture's edge.
pub fn darkness(
    s: &[u8],
    levels: &[u8],
    w: usize,
    h: usize,
    boxes: &[u32],
    table: &mut [u32],
    counts: &mut [u32],
) -> Result<(), Refusal>
    ensures number { number_in result ≡ check_darkness w h (length s.now) (length levels.now)
        (length table.old) (length counts.old) boxes.now }
    ensures table { table.new
        ≡ table_after (number_in result) s.now levels.now w h table.old }
    ensures counts { counts.new
        ≡ counts_after (number_in result) s.now levels.now w boxes.now
        counts.old }
{
    check(
        w,
        h,
        s.len(),
        levels.len(),
        table.len(),
        counts.len(),
        boxes,
    )?;
    fill_table(s, levels, w, h, table);
    count_all(boxes, w, table, counts);
    Ok(())
}
