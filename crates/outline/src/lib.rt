// Boundary points of a box of a picture, and the outline door.
#![tactic(auto)]

ghost use Rattle.std.specs.Prelude.{◌≡◌, length};
ghost use Rattle.laws.specs.Move.{box_at};
ghost use Rattle.refusal.specs.Numbers.{said};
ghost use Rattle.outline.specs.Door.{outline_answer, outline_after};

use refusal::Refusal;

mod cells;
mod columns;
mod refusals;
mod rows;
mod stores;
mod sweep;

// The outline door: stores the boundary points of the box x0 y0 x1 y1 in out, as alternating x and
// y, and tells how many they are, for the member pixels of the cells labelled want, or of all labelled cells where want is 0; or
// refuses, and changes nothing. levels are the thresholds of the level cells, labels the labels of
// the region cells.
pub fn outline(
    s: &[u8],
    levels: &[u8],
    labels: &[u32],
    want: u32,
    w: usize,
    h: usize,
    x0: usize,
    y0: usize,
    x1: usize,
    y1: usize,
    out: &mut [f32],
) -> Result<usize, Refusal>
    ensures answer { said result ≡ outline_answer s.now levels.now labels.now want w h
        (box_at x0 y0 x1 y1) (length out.old) }
    ensures out { out.new ≡ outline_after s.now levels.now
        labels.now want w h (box_at x0 y0 x1 y1) out.old }
{
    let bytes = s.len();
    let grid = levels.len();
    let cells = labels.len();
    let room = out.len();
    refusals::check(w, h, bytes, x0, y0, x1, y1, grid, cells, room)?;
    let end = columns::boundary_points(s, levels, labels, want, 4, w, h, x0, y0, x1, y1, out);
    Ok(end / 2)
}
