// The boxes of a list, and the checks of the entry in their order.
ghost use Rattle.std.specs.Prelude.{◌≡◌, ◌+◌, ◌*◌, ◌/◌, ◌<◌, ◌≤◌, eqb, length};
ghost use Rattle.laws.specs.Count.{count};
ghost use Rattle.refusal.specs.Numbers.{number_in};
ghost use Rattle.picture_checks.specs.Picture.{Sides};
ghost use Rattle.darkness.specs.Darkness.{box_number};
ghost use Rattle.darkness.specs.Door.{bad_box, is_bad_box, check_lists, check_darkness};
ghost use Rattle.darkness.specs.Inner.{Lists};

use levels::cells::cells_of;
use picture_checks::check_picture;
use refusal::Refusal;

// A box of pixels: from (x0, y0), which is within, to (x1, y1), which is not.
// Kept: beside regions::span::Span, which is in cells; one type for both would not say which.
#[derive(Drop)]
pub struct Part {
    pub x0: usize,
    pub y0: usize,
    pub x1: usize,
    pub y1: usize,
}

// Box i of a list of boxes.
pub fn box_at(boxes: &[u32], i: usize) -> Part
    requires { i < length boxes.now / 4 }
    ensures { (result.x0 ≡ box_number boxes.now i 0)
        × (result.y0 ≡ box_number boxes.now i 1)
        × (result.x1 ≡ box_number boxes.now i 2)
        × (result.y1 ≡ box_number boxes.now i 3) }
{
    let k = 4 * i;
    Part {
        x0: boxes[k] as usize,
        y0: boxes[k + 1] as usize,
        x1: boxes[k + 2] as usize,
        y1: boxes[k + 3] as usize,
    }
}

// Whether a box has x0 > x1 or y0 > y1, or passes the edge of a picture of w by h.
fn is_bad(b: Part, w: usize, h: usize) -> bool
    ensures { result ≡ bad_box w h b.x0 b.y0 b.x1 b.y1 }
{
    b.x1 < b.x0 || b.y1 < b.y0 || w < b.x1 || h < b.y1
}

// Whether no box of a list is bad.
fn boxes_fit(boxes: &[u32], w: usize, h: usize) -> bool
    ensures { result ≡ eqb (count (is_bad_box w h boxes.now) (length boxes.now / 4)) 0 }
{
    let n = boxes.len() / 4;
    for i in 0..n {
        if is_bad(box_at(boxes, i), w, h) {
            return false;
        }
    }
    true
}

// The checks of the lent lists and of the boxes, where those of the picture passed.
fn check_lists(
    w: usize,
    h: usize,
    levels: usize,
    table: usize,
    counts: usize,
    boxes: &[u32],
) -> Result<(), Refusal>
    requires { (w ≤ 4096) × (h ≤ 4096) }
    ensures answer { number_in result ≡ check_lists w h levels table counts boxes.now }
    ensures passed { number_in result ≡ 0 → Lists w h levels table counts boxes.now }
{
    if levels < cells_of(w) * cells_of(h) {
        return Err(Refusal::Lent);
    }
    if table < (w + 1) * (h + 1) {
        return Err(Refusal::Lent);
    }
    if counts < boxes.len() / 4 {
        return Err(Refusal::Lent);
    }
    if boxes.len() % 4 != 0 {
        return Err(Refusal::Boxes);
    }
    if !boxes_fit(boxes, w, h) {
        return Err(Refusal::Boxes);
    }
    Ok(())
}

// The first check that fails refuses the call.
pub fn check(
    w: usize,
    h: usize,
    bytes: usize,
    levels: usize,
    table: usize,
    counts: usize,
    boxes: &[u32],
) -> Result<(), Refusal>
    ensures answer { number_in result ≡ check_darkness w h bytes levels table counts boxes.now }
    ensures passed { number_in result ≡ 0
        → Sides w h bytes × Lists w h levels table counts boxes.now }
{
    check_picture(w, h, bytes)?;
    check_lists(w, h, levels, table, counts, boxes)
}
