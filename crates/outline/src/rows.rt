// Boundary points of rows. run is the shortest run that counts. A row is searched from either end
// for its first one. Where none can start at k because of a pixel at k + i, it is searched from
// k + i + 1 on: the last of the run pixels from k on is looked at first.
ghost use Rattle.std.specs.Prelude.{◌≡◌, false, ◌+◌, ◌*◌, ◌<◌, ◌≤◌, length};
ghost use Rattle.boundary.specs.Runs.{run_start};
ghost use Rattle.boundary.specs.Boundary.{member_at, row_points, rows_from};
ghost use Rattle.outline.specs.Inner.{row_line, extremes_of, skip_of, Grids, Wrote};

use crate::cells::{cut_at, place};
use crate::stores::put_two;

// Whether pixel x, y is a member.
fn member(
    s: &[u8],
    levels: &[u8],
    labels: &[u32],
    want: u32,
    w: usize,
    h: usize,
    x: usize,
    y: usize,
) -> bool
    requires grids { Grids levels.now labels.now w h }
    requires s_len { (length s.now ≡ w * h) × (x < w) × (y < h) }
    ensures { result ≡ member_at want w s.now levels.now labels.now x y }
{
    s[y * w + x] < cut_at(levels, labels, want, w, h, x, y)
}

// Whether place k of row y is a member, from either end.
fn at(
    s: &[u8],
    levels: &[u8],
    labels: &[u32],
    want: u32,
    w: usize,
    h: usize,
    x0: usize,
    n: usize,
    y: usize,
    back: bool,
    k: usize,
) -> bool
    requires grids { Grids levels.now labels.now w h }
    requires s_len { (length s.now ≡ w * h) × (x0 + n ≤ w) × (y < h) × (k < n) }
    ensures { result ≡ row_line (member_at want w s.now levels.now labels.now)
        x0 n y back k }
{
    let x = place(back, x0, n, k);
    member(s, levels, labels, want, w, h, x, y)
}

// How many places from k on no run can start at; 0 where one starts at k.
fn skip(
    s: &[u8],
    levels: &[u8],
    labels: &[u32],
    want: u32,
    run: usize,
    w: usize,
    h: usize,
    x0: usize,
    n: usize,
    y: usize,
    back: bool,
    k: usize,
) -> usize
    requires grids { Grids levels.now labels.now w h }
    requires s_len { (length s.now ≡ w * h) × (x0 + n ≤ w) × (y < h) × (k + run ≤ n) }
    ensures { (result ≡ skip_of run (row_line (member_at want w s.now levels.now
        labels.now) x0 n y back) k)
        × (result ≤ run) }
{
    for j in (0..run).rev() {
        if !at(s, levels, labels, want, w, h, x0, n, y, back, k + j) {
            return j + 1;
        }
    }
    0
}

// Where the first run of row y starts, from either end; n where there is none.
fn first_run(
    s: &[u8],
    levels: &[u8],
    labels: &[u32],
    want: u32,
    run: usize,
    w: usize,
    h: usize,
    x0: usize,
    n: usize,
    y: usize,
    back: bool,
) -> usize
    requires grids { Grids levels.now labels.now w h }
    requires s_len { (length s.now ≡ w * h) × (x0 + n ≤ w) × (y < h) }
    requires run_nonzero { (0 < run) × (run ≤ 8) }
    ensures { (result ≡ run_start run n (row_line
        (member_at want w s.now levels.now labels.now) x0 n y
        back))
        × (result ≤ n) }
{
    let mut k: usize = 0;
    // Kept: a step is as many places as `skip` tells; a `for` counts one.
    while k + run <= n {
        let d = skip(s, levels, labels, want, run, w, h, x0, n, y, back, k);
        if d == 0 {
            return k;
        }
        k += d;
    }
    n
}

// Start of the first and end of the last run of row y, counted from x0; none where it has no run.
fn run_extremes(
    s: &[u8],
    levels: &[u8],
    labels: &[u32],
    want: u32,
    run: usize,
    w: usize,
    h: usize,
    x0: usize,
    n: usize,
    y: usize,
) -> Option<(usize, usize)>
    requires grids { Grids levels.now labels.now w h }
    requires s_len { (length s.now ≡ w * h) × (x0 + n ≤ w) × (y < h) }
    requires run_nonzero { (0 < run) × (run ≤ 8) }
    ensures { result ≡ extremes_of run n (row_line
        (member_at want w s.now levels.now labels.now) x0 n y
        false) }
{
    let a = first_run(s, levels, labels, want, run, w, h, x0, n, y, false);
    if a < n {
        let b = first_run(s, levels, labels, want, run, w, h, x0, n, y, true);
        return Some((a, n - b));
    }
    None
}

// The points of row y.
fn row_points(
    s: &[u8],
    levels: &[u8],
    labels: &[u32],
    want: u32,
    run: usize,
    w: usize,
    h: usize,
    x0: usize,
    n: usize,
    y: usize,
    out: &mut [f32],
    to: usize,
) -> usize
    requires grids { Grids levels.now labels.now w h }
    requires s_len { (length s.now ≡ w * h) × (x0 + n ≤ w) × (y < h) × (to + 4 ≤ length out.old) }
    requires run_nonzero { (0 < run) × (run ≤ 8) }
    ensures { Wrote to (row_points run
        (member_at want w s.now levels.now labels.now) x0 n y)
        out.old out.new result }
{
    let Some((a, b)) = run_extremes(s, levels, labels, want, run, w, h, x0, n, y) else {
        return to;
    };
    put_two(out, to, 2 * (x0 + a), 2 * y + 1, 2 * (x0 + b), 2 * y + 1)
}

// The points of the m rows from y0 on.
pub fn all_rows(
    s: &[u8],
    levels: &[u8],
    labels: &[u32],
    want: u32,
    run: usize,
    w: usize,
    h: usize,
    x0: usize,
    n: usize,
    y0: usize,
    m: usize,
    out: &mut [f32],
) -> usize
    requires grids { Grids levels.now labels.now w h }
    requires s_len { (length s.now ≡ w * h)
        × (x0 + n ≤ w)
        × (y0 + m ≤ h)
        × (4 * m ≤ length out.old) }
    requires run_nonzero { (0 < run) × (run ≤ 8) }
    ensures { Wrote 0 (rows_from run (member_at want w s.now levels.now
        labels.now) x0 n y0 m) out.old out.new result }
{
    let mut to: usize = 0;
    for i in 0..m {
        to = row_points(s, levels, labels, want, run, w, h, x0, n, y0 + i, out, to);
    }
    to
}
