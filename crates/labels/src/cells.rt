// Region cells, 8 by 8 pixels each: a cell with at least 4 ink pixels is an ink cell.
ghost use Rattle.std.specs.Prelude.{◌≡◌, ◌+◌, ◌*◌, ◌≤◌, ◌<◌, ltb, length};
ghost use Rattle.laws.specs.Fold.{bit, sum_to};
ghost use Rattle.laws.specs.Plane.{plane, drawn, box};
ghost use Rattle.labels.specs.Cells.{cells8, cells_of, ink_pixels};
ghost use Rattle.labels.specs.Inner.{row_below, below, CellInside, Levelled, cell_mark, cell_mark_at};

use crate::groups::MARK;
use levels::cells::{cells_of, span_of};

// 1 for a byte below the threshold. A count of bytes in a byte lets the compiler take many at once.
fn one_below(v: u8, t: u8) -> u8
    ensures { result ≡ bit (ltb v t) }
{
    u8::from(v < t)
}

// How many bytes of a row of at most 8 are below the threshold.
fn row_ink(row: &[u8], t: u8) -> u8
    requires { length row.now ≤ 8 }
    ensures { (result ≡ sum_to (length row.now) (row_below row.now t))
        × (result ≤ 8) }
{
    let mut n: u8 = 0;
    for v in row {
        n += one_below(*v, t);
    }
    n
}

// How many pixels of the part that is lx wide and ly high, from x0 and y0, are below the threshold.
fn box_ink(s: &[u8], w: usize, x0: usize, y0: usize, lx: usize, ly: usize, t: u8) -> u8
    requires { CellInside s.now w x0 y0 lx ly }
    ensures { result ≡ box ◌+◌ 0 (below (plane w s.now) t) x0 y0 lx ly }
{
    let mut n: u8 = 0;
    for j in 0..ly {
        let a = (y0 + j) * w + x0;
        let e = a + lx;
        n += row_ink(&s[a..e], t);
    }
    n
}

// The same; whole cells have a call of their own, for which the compiler knows the sides.
fn part_ink(s: &[u8], w: usize, x0: usize, y0: usize, lx: usize, ly: usize, t: u8) -> u8
    requires { CellInside s.now w x0 y0 lx ly }
    ensures { result ≡ box ◌+◌ 0 (below (plane w s.now) t) x0 y0 lx ly }
{
    if lx == 8 && ly == 8 {
        return box_ink(s, w, x0, y0, 8, 8, t);
    }
    box_ink(s, w, x0, y0, lx, ly, t)
}

// How many region cells a side has.
pub fn region_cells(n: usize) -> usize
    requires { n ≤ 4096 }
    ensures { result ≡ cells8 n }
{
    n.div_ceil(8)
}

// How many region cells a picture has: rows by columns.
pub fn cells_in(w: usize, h: usize) -> usize
    requires { (w ≤ 4096) × (h ≤ 4096) }
    ensures { (result ≡ cells_of w h) × (result ≤ 262144) }
{
    region_cells(h) * region_cells(w)
}

// How many pixels of the cell in column cx and row cy are ink. The threshold is read once: a region
// cell lies in one level cell.
fn cell_ink(s: &[u8], w: usize, h: usize, grid: &[u8], cx: usize, cy: usize) -> u8
    requires levelled { Levelled s.now w h grid.now }
    requires cx_bound { (8 * cx < w) × (8 * cy < h) }
    ensures { result ≡ ink_pixels (plane w s.now) w h cx cy }
{
    let t = grid[cy / 2 * cells_of(w) + cx / 2];
    part_ink(
        s,
        w,
        8 * cx,
        8 * cy,
        span_of(8, w, cx),
        span_of(8, h, cy),
        t,
    )
}

fn mark_of(n: u8) -> u32
    ensures { result ≡ cell_mark n }
{
    if n < 4 { 0 } else { MARK }
}

// Marks the ink cells of a picture in the list of labels, by its level grid; 0 for any other cell.
pub fn mark_cells(s: &[u8], w: usize, h: usize, grid: &[u8], labels: &mut [u32])
    requires levelled { Levelled s.now w h grid.now }
    requires h_in_bounds { cells_of w h ≤ length labels.old }
    ensures { labels.new
        ≡ drawn (cells8 w) (cells8 h) (cell_mark_at (plane w s.now) w h)
        labels.old }
{
    let cw = region_cells(w);
    let n = cells_in(w, h);
    // Kept: x and y are counted beside k; with a row's loop apart it is two functions, no plainer.
    let mut x = 0;
    let mut y = 0;
    for k in 0..n {
        labels[k] = mark_of(cell_ink(s, w, h, grid, x, y));
        x += 1;
        if x == cw {
            x = 0;
            y += 1;
        }
    }
}
