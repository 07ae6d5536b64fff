// The regions of a grid of labels: `regions` of ring.rs.
ghost use Rattle.std.specs.Prelude.{◌≡◌, ℕ, ◌<◌, ◌≤◌, length, get_or};
ghost use Rattle.regions.specs.Inner.{Cells, size_in, region_in, kept_in};

use crate::answer::{Kept, Region};
use crate::pick::pick;
use crate::span::span_of;
use crate::tally::tally;

// The region of the label i + 1, of which `cells` is the number of cells, in a picture of `width`
// by `height` pixels.
fn region_of(
    labels: &[u32],
    i: usize,
    cells: u32,
    w: usize,
    h: usize,
    width: usize,
    height: usize,
) -> Region
    requires cells { Cells labels.now w h }
    requires i_bound { (i < 262144)
        × (cells ≡ size_in labels.now i)
        × (width ≤ 4096)
        × (height ≤ 4096) }
    ensures { result ≡ region_in labels.now w h width height i }
{
    let l = (i + 1) as u32;
    let b = span_of(labels, l, w, h);
    let x0 = 8 * b.x0;
    let y0 = 8 * b.y0;
    let x1 = (8 * b.x1).min(width);
    let y1 = (8 * b.y1).min(height);
    Region {
        label: l,
        cells,
        x0: x0 as u32,
        y0: y0 as u32,
        x1: x1 as u32,
        y1: y1 as u32,
    }
}

// The kept regions of a grid whose cells are counted in `sizes`.
fn kept_regions(
    labels: &[u32],
    sizes: &[u32],
    w: usize,
    h: usize,
    width: usize,
    height: usize,
) -> Kept
    requires cells { Cells labels.now w h }
    requires sizes_len_bound { (length sizes.now ≤ 262144) × (width ≤ 4096) × (height ≤ 4096) }
    requires by_index { (i : ℕ) → i < length sizes.now → get_or sizes.now i 0 ≡ size_in labels.now i }
    ensures { result ≡ kept_in labels.now (length sizes.now) w h width height }
{
    let p = pick(sizes);
    let mut list = [Region::default(); 4];
    let kept = p.kept;
    let at = p.at;
    for i in 0..kept {
        let a = at[i];
        list[i] = region_of(labels, a, sizes[a], w, h, width, height);
    }
    Kept {
        all: sizes.len(),
        kept,
        list,
    }
}

// The regions of a grid of `h` rows of `w` labels, with one counter a label.
pub fn regions(
    labels: &[u32],
    sizes: &mut [u32],
    w: usize,
    h: usize,
    width: usize,
    height: usize,
) -> Kept
    requires cells { Cells labels.now w h }
    requires sizes_len_bound { (length sizes.old ≤ 262144) × (width ≤ 4096) × (height ≤ 4096) }
    requires by_index { (c : ℕ) → get_or labels.now c 0 ≤ length sizes.old }
    ensures { result ≡ kept_in labels.now (length sizes.old) w h width height }
{
    tally(labels, sizes);
    kept_regions(labels, sizes, w, h, width, height)
}
