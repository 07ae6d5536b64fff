// Cells counted by label.
ghost use Rattle.std.specs.Prelude.{◌≡◌, ℕ, ◌<◌, ◌≤◌, length, get_or};
ghost use Rattle.regions.specs.Inner.{size_in, Bumped};

use crate::clearing::clear;

// One more for the label `x`, unless that is 0.
fn bump(sizes: &mut [u32], x: u32)
    requires x_in_bounds { x ≤ length sizes.old }
    requires by_index { (i : ℕ) → i < length sizes.old → get_or sizes.old i 0 ≤ 262144 }
    ensures { Bumped x sizes.old sizes.new }
{
    if x != 0 {
        let i = (x - 1) as usize;
        sizes[i] += 1;
    }
}

// How many cells have each label from 1 to the number of counters.
pub(crate) fn tally(labels: &[u32], sizes: &mut [u32])
    requires labels_len_bound { length labels.now ≤ 262144 }
    requires by_index { (c : ℕ) → get_or labels.now c 0 ≤ length sizes.old }
    ensures { (i : ℕ) → i < length sizes.old
        → get_or sizes.new i 0 ≡ size_in labels.now i }
{
    clear(sizes);
    for x in labels {
        bump(sizes, *x);
    }
}
