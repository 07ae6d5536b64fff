// Boundary points of columns, strip by strip, and of a whole box. run is the shortest run that
// counts.
ghost use Rattle.std.specs.Prelude.{◌≡◌, ◌+◌, ◌-◌, ◌*◌, ◌<◌, ◌≤◌, length};
ghost use Rattle.laws.specs.Move.{box_at};
ghost use Rattle.boundary.specs.Boundary.{member_at, columns_from, boundary};
ghost use Rattle.outline.specs.Inner.{Grids, Columns, column_found, columns_found, AtMost, Wrote};

use crate::rows::all_rows;
use crate::stores::put_two;
use crate::sweep::{none_found, scan_columns};

// Stores the points of column x, whose scans of n rows from y0 on ended in d and u.
fn put_column(
    run: usize,
    out: &mut [f32],
    to: usize,
    y0: usize,
    n: usize,
    x: usize,
    d: usize,
    u: usize,
) -> usize
    requires to_in_bounds { (to + 4 ≤ length out.old) × (d ≤ n) × (u ≤ n) × (y0 + n ≤ 4096) × (x < 4096) }
    requires run_bound { run ≤ 8 }
    ensures { Wrote to (column_found run y0 n x d u) out.old out.new result }
{
    if d < run {
        return to;
    }
    put_two(
        out,
        to,
        2 * x + 1,
        2 * (y0 + (d - run)),
        2 * x + 1,
        2 * (y0 + (n + run - u)),
    )
}

// Stores the points of the n columns from x on.
fn put_columns(
    run: usize,
    down: &[u16; 64],
    up: &[u16; 64],
    x: usize,
    n: usize,
    y0: usize,
    rows: usize,
    out: &mut [f32],
    at: usize,
) -> usize
    requires n_bound { (x + n ≤ 4096)
        × (n ≤ 64)
        × (y0 + rows ≤ 4096)
        × (at + 4 * n ≤ length out.old) }
    requires at_most { AtMost n rows down.now × AtMost n rows up.now }
    requires run_bound { run ≤ 8 }
    ensures { Wrote at (columns_found run down.now up.now y0 rows x n)
        out.old out.new result }
{
    let mut to = at;
    for i in 0..n {
        let d = down[i] as usize;
        let u = up[i] as usize;
        to = put_column(run, out, to, y0, rows, x + i, d, u);
    }
    to
}

// The points of the n columns from x on. The second scan is left out where the first found no run.
fn strip(
    s: &[u8],
    levels: &[u8],
    labels: &[u32],
    want: u32,
    run: usize,
    w: usize,
    h: usize,
    x: usize,
    n: usize,
    y0: usize,
    m: usize,
    out: &mut [f32],
    at: usize,
) -> usize
    requires grids { Grids levels.now labels.now w h }
    requires columns { Columns s.now w h x n y0 m }
    requires n_nonzero { (0 < n) × (n ≤ 64) × (at + 4 * n ≤ length out.old) }
    requires run_nonzero { (0 < run) × (run ≤ 8) }
    ensures { Wrote at (columns_from run
        (member_at want w s.now levels.now labels.now) y0 m x
        n) out.old out.new result }
{
    let r = run as u16;
    let mut d = [0u16; 64];
    let mut u = [0u16; 64];
    scan_columns(s, levels, labels, want, r, w, h, x, n, y0, m, false, &mut d);
    if none_found(r, &d, n) {
        return at;
    }
    scan_columns(s, levels, labels, want, r, w, h, x, n, y0, m, true, &mut u);
    put_columns(run, &d, &u, x, n, y0, m, out, at)
}

// The points of the n columns from x0 on.
fn all_columns(
    s: &[u8],
    levels: &[u8],
    labels: &[u32],
    want: u32,
    run: usize,
    w: usize,
    h: usize,
    x0: usize,
    n: usize,
    y0: usize,
    m: usize,
    out: &mut [f32],
    at: usize,
) -> usize
    requires grids { Grids levels.now labels.now w h }
    requires columns { Columns s.now w h x0 n y0 m }
    requires n_in_bounds { at + 4 * n ≤ length out.old }
    requires run_nonzero { (0 < run) × (run ≤ 8) }
    ensures { Wrote at (columns_from run
        (member_at want w s.now levels.now labels.now) y0 m
        x0 n) out.old out.new result }
{
    let mut to = at;
    let mut i: usize = 0;
    // Kept: a step is up to 64 columns; a `for` counts one.
    while i < n {
        let left = n - i;
        // Kept: by the library's `min` the compiler does not see in `scan_columns` that a strip has at most
        // 64 columns, and leaves the loop over them rolled up.
        let wide = if left < 64 { left } else { 64 };
        let x = x0 + i;
        to = strip(s, levels, labels, want, run, w, h, x, wide, y0, m, out, to);
        i += wide;
    }
    to
}

// The boundary points of the box from x0, y0 to x1, y1; returns how many numbers were stored.
pub fn boundary_points(
    s: &[u8],
    levels: &[u8],
    labels: &[u32],
    want: u32,
    run: usize,
    w: usize,
    h: usize,
    x0: usize,
    y0: usize,
    x1: usize,
    y1: usize,
    out: &mut [f32],
) -> usize
    requires grids { Grids levels.now labels.now w h }
    requires s_len { (length s.now ≡ w * h)
        × (x0 < x1)
        × (x1 ≤ w)
        × (y0 < y1)
        × (y1 ≤ h)
        × (4 * (x1 - x0 + (y1 - y0)) ≤ length out.old) }
    requires run_nonzero { (0 < run) × (run ≤ 8) }
    ensures { Wrote 0 (boundary run (member_at want w s.now levels.now
        labels.now) (box_at x0 y0 x1 y1)) out.old out.new result }
{
    let n = x1 - x0;
    let m = y1 - y0;
    let at = all_rows(s, levels, labels, want, run, w, h, x0, n, y0, m, out);
    all_columns(s, levels, labels, want, run, w, h, x0, n, y0, m, out, at)
}
