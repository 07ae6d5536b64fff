// The dark and light levels of the level cells, 16 by 16 pixels each, from bins of pixel values.
ghost use Rattle.std.specs.Prelude.{◌≡◌, ◌+◌, ◌-◌, ◌*◌, ◌≤◌, ◌<◌, min, length};
ghost use Rattle.laws.specs.Plane.{plane, drawn, value_at};
ghost use Rattle.levels.specs.Level.{count_rows, low_bin, high_bin, cells, dark, light};
ghost use Rattle.picture_checks.specs.Picture.{Picture};
ghost use Rattle.levels.specs.Inner.{Within, Bins, BinsUpTo, sums, one_more, row_more, Counted};

// Adds a byte to the turn-th of four times 32 bins.
fn count_one(bins: &mut [u32; 128], turn: usize, v: u8)
    requires bins_len { (length bins.old ≡ 128) × (turn < 4) }
    requires bins_up_to { BinsUpTo 256 (sums bins.old) }
    ensures { Counted (one_more v bins.old) bins.new }
{
    let b = 32 * turn + (v / 8) as usize;
    bins[b] += 1;
}

// Adds the bytes of a row of at most 16 pixels to four times 32 bins, by turns: stores that follow
// each other never wait for each other.
fn count_row(row: &[u8], bins: &mut [u32; 128])
    requires row_len_bound { length row.now ≤ 16 }
    requires bins_len { length bins.old ≡ 128 }
    requires bins_up_to { BinsUpTo 240 (sums bins.old) }
    ensures { Counted (row_more row.now bins.old) bins.new }
{
    for (i, v) in row.iter().enumerate() {
        count_one(bins, i % 4, *v);
    }
}

// The sum of bin i of four times 32 bins.
fn sum_at(bins: &[u32; 128], i: usize) -> u32
    requires bins_up_to { BinsUpTo 256 (sums bins.now) }
    requires i_bound { i < 32 }
    ensures { result ≡ sums bins.now i }
{
    bins[i] + bins[32 + i] + bins[64 + i] + bins[96 + i]
}

// The sums of four times 32 bins.
fn merged(bins: &[u32; 128]) -> [u32; 32]
    requires { BinsUpTo 256 (sums bins.now) }
    ensures { Bins (sums bins.now) result }
{
    let mut r = [0u32; 32];
    for i in 0..32 {
        r[i] = sum_at(bins, i);
    }
    r
}

// The bins of the part of a picture that is lx wide and ly high, from x0 and y0.
fn count_part(s: &[u8], w: usize, x0: usize, y0: usize, lx: usize, ly: usize) -> [u32; 32]
    requires { Within s.now w x0 y0 lx ly }
    ensures { Bins (count_rows (plane w s.now) x0 y0 lx ly) result }
{
    let mut bins = [0u32; 128];
    for j in 0..ly {
        let a = (y0 + j) * w + x0;
        let e = a + lx;
        count_row(&s[a..e], &mut bins);
    }
    merged(&bins)
}

// The same. Whole cells have their own call, for which the compiler knows the sides.
fn count_cell(s: &[u8], w: usize, x0: usize, y0: usize, lx: usize, ly: usize) -> [u32; 32]
    requires { Within s.now w x0 y0 lx ly }
    ensures { Bins (count_rows (plane w s.now) x0 y0 lx ly) result }
{
    if lx == 16 && ly == 16 {
        return count_part(s, w, x0, y0, 16, 16);
    }
    count_part(s, w, x0, y0, lx, ly)
}

// The first bin from below where the running count exceeds cut, else 31.
fn low_bin(bins: &[u32; 32], cut: u32) -> usize
    requires { BinsUpTo 256 (value_at bins.now) }
    ensures answer { result ≡ low_bin (value_at bins.now) cut }
    ensures most { result ≤ 31 }
{
    let mut acc: u32 = 0;
    for b in 0..31 {
        acc += bins[b];
        if cut < acc {
            return b;
        }
    }
    31
}

// The first bin from above where the running count exceeds cut, else 0.
fn high_bin(bins: &[u32; 32], cut: u32) -> usize
    requires { BinsUpTo 256 (value_at bins.now) }
    ensures answer { result ≡ high_bin (value_at bins.now) cut }
    ensures most { result ≤ 31 }
{
    // Kept: low_bin from the other end; one fn with a const for the end branches in the loop, no plainer.
    let mut acc: u32 = 0;
    for k in 0..31 {
        acc += bins[31 - k];
        if cut < acc {
            return 31 - k;
        }
    }
    0
}

// How many pixels of cell c lie on a side of n, where a cell has `size` of them.
pub fn span_of(size: usize, n: usize, c: usize) -> usize
    requires { size * c < n }
    ensures { result ≡ min size (n - size * c) }
{
    (n - size * c).min(size)
}

// The dark and light level of one cell: 8 times its low bin, 8 times its high bin and 7.
#[derive(Clone, Copy)]
pub struct Levels {
    pub dark: u8,
    pub light: u8,
}

fn cell_levels(s: &[u8], w: usize, h: usize, cx: usize, cy: usize) -> Levels
    requires picture { Picture s.now w h }
    requires cx_bound { (16 * cx < w) × (16 * cy < h) }
    ensures { (result.dark ≡ dark (plane w s.now) w h cx cy)
        × (result.light ≡ light (plane w s.now) w h cx cy) }
{
    let lx = span_of(16, w, cx);
    let ly = span_of(16, h, cy);
    let bins = count_cell(s, w, 16 * cx, 16 * cy, lx, ly);
    let cut = (lx * ly / 20) as u32;
    let low = low_bin(&bins, cut);
    let high = high_bin(&bins, cut);
    Levels {
        dark: (8 * low) as u8,
        light: (8 * high + 7) as u8,
    }
}

// How many level cells a side has.
pub fn cells_of(n: usize) -> usize
    requires { n ≤ 4096 }
    ensures { result ≡ cells n }
{
    n.div_ceil(16)
}

// The dark and light levels of every cell.
pub(crate) fn level_cells(s: &[u8], w: usize, h: usize, darks: &mut [u32], lights: &mut [u32])
    requires picture { Picture s.now w h }
    requires h_in_bounds { (cells w * cells h ≤ length darks.old)
        × (cells w * cells h ≤ length lights.old) }
    ensures darks { darks.new
        ≡ drawn (cells w) (cells h) (dark (plane w s.now) w h) darks.old }
    ensures lights { lights.new
        ≡ drawn (cells w) (cells h) (light (plane w s.now) w h) lights.old }
{
    let cw = cells_of(w);
    let n = cw * cells_of(h);
    for k in 0..n {
        let v = cell_levels(s, w, h, k % cw, k / cw);
        darks[k] = v.dark as u32;
        lights[k] = v.light as u32;
    }
}
