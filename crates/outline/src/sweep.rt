// Scans of strips of at most 64 columns, row by row, from the top or from the bottom. run is the
// shortest run that counts. A column's state is one number: below run the run so far, from run on
// the first run was found and starts at state - run.
ghost use Rattle.std.specs.Prelude.{◌≡◌, true, cond, ℕ, ◌+◌, ◌*◌, ◌/◌, ◌<◌, ◌≤◌, ltb, get_or, length};
ghost use Rattle.boundary.specs.Boundary.{member_at};
ghost use Rattle.outline.specs.Inner.{scan_step, Grids, Columns, CutRow, part_of, Stepped, Swept, AtMost};

use crate::cells::{cut_again, cut_at, place};

// a, or b where c is false.
fn pick(c: bool, a: u16, b: u16) -> u16
    ensures { result ≡ cond c a b }
{
    if c { a } else { b }
}

// One pixel p more of a column, with the threshold t. Without branches, so that columns go side by
// side.
fn next_state(run: u16, state: u16, p: u8, t: u8, k: u16) -> u16
    requires { (k < 4096) × (state ≤ 4096) }
    ensures { result ≡ scan_step run state (ltb p t) k }
{
    let more = state + 1;
    let grown = pick(more == run, k + 1, more);
    let kept = pick(p < t, grown, 0);
    pick(run <= state, state, kept)
}

// The thresholds of the n pixels from x on in row y.
fn fill_cuts(
    levels: &[u8],
    labels: &[u32],
    want: u32,
    w: usize,
    h: usize,
    x: usize,
    n: usize,
    y: usize,
    cuts: &mut [u8; 64],
)
    requires grids { Grids levels.now labels.now w h }
    requires n_bound { (x + n ≤ w) × (0 < n) × (n ≤ 64) × (y < h) × (length cuts.old ≡ 64) }
    ensures { CutRow want w levels.now labels.now x n (y / 8) cuts.new }
{
    let mut a = x;
    let mut t = cut_at(levels, labels, want, w, h, x, y);
    for i in 0..n {
        let cx = a / 8;
        a = x + i;
        t = cut_again(levels, labels, want, w, h, a, y, cx, t);
        cuts[i] = t;
    }
}

// The same, where the thresholds of row cy of cells are there.
fn refill(
    levels: &[u8],
    labels: &[u32],
    want: u32,
    w: usize,
    h: usize,
    x: usize,
    n: usize,
    cy: usize,
    y: usize,
    cuts: &mut [u8; 64],
)
    requires grids { Grids levels.now labels.now w h }
    requires n_bound { (x + n ≤ w) × (0 < n) × (n ≤ 64) × (y < h) }
    requires cut_row { CutRow want w levels.now labels.now x n cy cuts.old }
    ensures { CutRow want w levels.now labels.now x n (y / 8) cuts.new }
{
    let c = y / 8;
    if c == cy {
        return;
    }
    fill_cuts(levels, labels, want, w, h, x, n, y, cuts);
}

// One row more for each column of a strip.
fn step_row(run: u16, row: &[u8], cuts: &[u8; 64], state: &mut [u16; 64], k: u16)
    requires row_len_bound { (length row.now ≤ 64) × (length state.old ≡ 64) × (k < 4096) }
    requires at_most { AtMost (length row.now) 4096 state.old }
    ensures { Stepped run row.now cuts.now state.old k
        (length row.now) state.new }
{
    for (i, p) in row.iter().enumerate() {
        state[i] = next_state(run, state[i], *p, cuts[i], k);
    }
}

// The same for the n columns from x on, at row y of the picture.
fn sweep_row(
    run: u16,
    s: &[u8],
    w: usize,
    h: usize,
    x: usize,
    n: usize,
    y: usize,
    cuts: &[u8; 64],
    state: &mut [u16; 64],
    k: u16,
)
    requires s_len { (length s.now ≡ w * h) × (w ≤ 4096) × (h ≤ 4096) × (x + n ≤ w) × (y < h) }
    requires n_bound { (n ≤ 64) × (length state.old ≡ 64) × (k < 4096) × AtMost n 4096 state.old }
    ensures { Stepped run (part_of (y * w + x) n s.now) cuts.now
        state.old k n state.new }
{
    let a = y * w + x;
    step_row(run, &s[a..a + n], cuts, state, k);
}

// Whether each of the n columns has its run; looked at after every eighth row only.
fn all_found(run: u16, state: &[u16; 64], n: usize, k: usize) -> bool
    requires { n ≤ 64 }
    ensures { result ≡ true → (i : ℕ) → i < n → run ≤ get_or state.now i 0 }
{
    k % 8 == 0 && state[..n].iter().all(|d| run <= *d)
}

// Whether none of the n columns has a run.
pub fn none_found(run: u16, state: &[u16; 64], n: usize) -> bool
    requires { n ≤ 64 }
    ensures { result ≡ true → (i : ℕ) → i < n → get_or state.now i 0 < run }
{
    state[..n].iter().all(|d| *d < run)
}

// The states of the n columns from x on after all rows of the box, or as soon as each has its run.
pub fn scan_columns(
    s: &[u8],
    levels: &[u8],
    labels: &[u32],
    want: u32,
    run: u16,
    w: usize,
    h: usize,
    x: usize,
    n: usize,
    y0: usize,
    rows: usize,
    back: bool,
    state: &mut [u16; 64],
)
    requires grids { Grids levels.now labels.now w h }
    requires columns { Columns s.now w h x n y0 rows × (0 < n) × (n ≤ 64) × (0 < run) }
    requires swept { Swept run (member_at want w s.now levels.now labels.now) y0 rows x n back 0
        state.old }
    ensures { Swept run (member_at want w s.now levels.now labels.now) y0
        rows x n back rows state.new }
{
    let mut cuts = [0u8; 64];
    let mut y = place(back, y0, rows, 0);
    fill_cuts(levels, labels, want, w, h, x, n, y, &mut cuts);
    for k in 0..rows {
        let cy = y / 8;
        y = place(back, y0, rows, k);
        refill(levels, labels, want, w, h, x, n, cy, y, &mut cuts);
        sweep_row(run, s, w, h, x, n, y, &cuts, state, k as u16);
        if all_found(run, state, n, k + 1) {
            return;
        }
    }
}
