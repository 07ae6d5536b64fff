// The counts of the boxes: four reads of the table for each.
ghost use Rattle.std.specs.Prelude.{◌≡◌, ℕ, ◌/◌, ◌<◌, ◌≤◌, length};
ghost use Rattle.laws.specs.Fold.{written};
ghost use Rattle.darkness.specs.Darkness.{box_number};
ghost use Rattle.darkness.specs.Inner.{Readable, four_reads, reads_of};

use crate::refusals::{Part, box_at};

// The count of one box. The two counts that are taken off are no more than the two before them.
#[tactic(auto, using(crate::proofs::Readings::rows_apart))]
fn count_of(table: &[u32], w: usize, b: Part) -> u32
    requires { Readable table.now w b.x0 b.y0 b.x1 b.y1 }
    ensures { result ≡ four_reads table.now w b.x0 b.y0 b.x1 b.y1 }
{
    let top = b.y0 * (w + 1);
    let bottom = b.y1 * (w + 1);
    let more = table[bottom + b.x1] + table[top + b.x0];
    more - (table[bottom + b.x0] + table[top + b.x1])
}

// The counts of all boxes, each in its place.
pub fn count_all(boxes: &[u32], w: usize, table: &[u32], counts: &mut [u32])
    requires boxes_in_bounds { length boxes.now / 4 ≤ length counts.old }
    requires by_index { (i : ℕ) → i < length boxes.now / 4
        → Readable table.now w (box_number boxes.now i 0) (box_number boxes.now i 1)
        (box_number boxes.now i 2) (box_number boxes.now i 3) }
    ensures { counts.new
        ≡ written (length boxes.now / 4)
        (reads_of table.now w boxes.now) counts.old }
{
    let n = boxes.len() / 4;
    for i in 0..n {
        counts[i] = count_of(table, w, box_at(boxes, i));
    }
}
