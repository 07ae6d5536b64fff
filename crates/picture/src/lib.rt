// The picture door: a grey picture in; its level grid, its labels and up to four regions out.
#![tactic(auto)]

ghost use Rattle.std.specs.Prelude.{◌≡◌, ◌*◌, ◌≤◌, length};
ghost use Rattle.laws.specs.Plane.{plane, drawn};
ghost use Rattle.levels.specs.Level.{cells, level};
ghost use Rattle.refusal.specs.Numbers.{number_in, said};
ghost use Rattle.picture_checks.specs.Picture.{Picture, Sides};
ghost use Rattle.labels.specs.Cells.{cells8, cells_of, label_at, groups_of};
ghost use Rattle.picture.specs.Door.{check_grids, picture_answer, levels_after, labels_after, StackAfter};
ghost use Rattle.regions.specs.Regions.{kept_regions};
ghost use Rattle.laws.specs.Lent.{UntouchedPast};
ghost use Rattle.picture.specs.Inner.{check_lists, ListRooms, LabelledBy};

use labels::cells::{cells_in, mark_cells, region_cells};
use labels::groups::label_all;
use levels::cells::cells_of;
use levels::level_grid;
use picture_checks::check_picture;
use refusal::Refusal;
use regions::answer::Kept;
use regions::top::regions;

// How many level cells a picture has.
fn level_cells(w: usize, h: usize) -> usize
    requires { (w ≤ 4096) × (h ≤ 4096) }
    ensures { result ≡ cells w * cells h }
{
    cells_of(w) * cells_of(h)
}

// The checks of the lent lists, by how many places they have, of which `a` are needed in the level
// grid and `n` in each of the others.
fn check_lists(a: usize, n: usize, grid: usize, labels: usize, stack: usize) -> Result<(), Refusal>
    ensures { number_in result ≡ check_lists a n grid labels stack }
{
    if grid < a {
        return Err(Refusal::Lent);
    }
    if labels < n {
        return Err(Refusal::Lent);
    }
    if stack < n {
        return Err(Refusal::Lent);
    }
    Ok(())
}

// All checks in order.
pub fn check(
    w: usize,
    h: usize,
    bytes: usize,
    grid: usize,
    labels: usize,
    stack: usize,
) -> Result<(), Refusal>
    ensures answer { number_in result ≡ check_grids w h bytes grid labels stack }
    ensures passed { number_in result ≡ 0 → Sides w h bytes × ListRooms w h grid labels stack }
{
    check_picture(w, h, bytes)?;
    check_lists(level_cells(w, h), cells_in(w, h), grid, labels, stack)
}

// The level grid and the labels of a picture, and how many labels there are. Before labelling, the
// two lists of cells hold dark and light levels.
fn ink_map(
    s: &[u8],
    w: usize,
    h: usize,
    grid: &mut [u8],
    labels: &mut [u32],
    stack: &mut [u32],
) -> u32
    requires picture { Picture s.now w h }
    requires list_rooms { ListRooms w h (length grid.old) (length labels.old) (length stack.old) }
    ensures answer { result ≡ groups_of (plane w s.now) w h }
    ensures grid { grid.new
        ≡ drawn (cells w) (cells h) (level (plane w s.now) w h) grid.old }
    ensures labels { labels.new
        ≡ drawn (cells8 w) (cells8 h) (label_at (plane w s.now) w h) labels.old }
    ensures stack_past { UntouchedPast (cells_of w h) stack.old stack.new }
{
    level_grid(s, w, h, grid, labels, stack);
    mark_cells(s, w, h, grid, labels);
    label_all(labels, stack, region_cells(w), region_cells(h))
}

// The regions of labelled cells, with `v` counters in the first places of the stack.
fn count_regions(s: &[u8], w: usize, h: usize, labels: &[u32], stack: &mut [u32], v: u32) -> Kept
    requires picture { Picture s.now w h }
    requires h_in_bounds { (cells_of w h ≤ length labels.now) × (cells_of w h ≤ length stack.old) }
    requires labelled_by { LabelledBy s.now w h labels.now v }
    ensures answer { result ≡ kept_regions (plane w s.now) w h }
    ensures stack_past { UntouchedPast (cells_of w h) stack.old stack.new }
{
    let cw = region_cells(w);
    let ch = region_cells(h);
    let n = cells_in(w, h);
    let m = v as usize;
    regions(&labels[..n], &mut stack[..m], cw, ch, w, h)
}

// The picture door. It lends a grid of one byte a level cell, and two lists of one number a region
// cell: labels and the stack. Refusals: 1, a side outside 1..4,096; 2, bytes not width times
// height; 3, a lent list too short.
pub fn picture(
    s: &[u8],
    w: usize,
    h: usize,
    grid: &mut [u8],
    labels: &mut [u32],
    stack: &mut [u32],
) -> Result<Kept, Refusal>
    ensures answer { said result ≡ picture_answer s.now w h (length grid.old)
        (length labels.old) (length stack.old) }
    ensures levels { grid.new
        ≡ levels_after (number_in result) s.now w h grid.old }
    ensures labels { labels.new
        ≡ labels_after (number_in result) s.now w h labels.old }
    ensures stack { StackAfter (number_in result) w h stack.old stack.new }
{
    check(w, h, s.len(), grid.len(), labels.len(), stack.len())?;
    let v = ink_map(s, w, h, grid, labels, stack);
    let found = count_regions(s, w, h, labels, stack, v);
    Ok(found)
}
