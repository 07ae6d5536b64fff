// The least dark and greatest light level within 3 cells, in two steps, and thresholds from them.
ghost use Rattle.std.specs.Prelude.{◌≡◌, ◌+◌, ◌*◌, ◌≤◌, ◌<◌, length};
ghost use Rattle.laws.specs.Fold.{fold, written};
ghost use Rattle.laws.specs.Lent.{UntouchedPast};
ghost use Rattle.laws.specs.Plane.{plane, drawn, value_at};
ghost use Rattle.levels.specs.Level.{from3, many3, sharp};
ghost use Rattle.levels.specs.Inner.{LevelGrid, Bytes, pool_step, unit, pooled_across, pooled_down, pooled, pairwise};

use threshold::threshold_of;

// The greater or the lesser of two bytes.
fn join8(most: bool, a: u8, b: u8) -> u8
    ensures { result ≡ pool_step most a b }
{
    if most { a.max(b) } else { a.min(b) }
}

// What a pool begins from.
fn unit8(most: bool) -> u8
    ensures { result ≡ unit most }
{
    if most { 0 } else { 255 }
}

// The cells within 3 of c on a side of n: the first, and how many.
fn near_first(c: usize) -> usize
    ensures { result ≡ from3 c }
{
    c.saturating_sub(3)
}

fn near_count(n: usize, c: usize) -> usize
    requires { (c < n) × (n ≤ 256) }
    ensures { result ≡ many3 n c }
{
    (c + 4).min(n) - near_first(c)
}

// The greatest or the least of a row of bytes.
fn join_row(row: &[u32], most: bool) -> u8
    requires { Bytes (length row.now) row.now }
    ensures { result ≡ fold (pool_step most) (unit most) (length row.now)
        (value_at row.now) }
{
    let mut r = unit8(most);
    for v in row {
        r = join8(most, r, *v as u8);
    }
    r
}

// One cell, over the cells within 3 in its row.
fn across_cell(g: &[u32], w: usize, h: usize, x: usize, y: usize, most: bool) -> u8
    requires level_grid { LevelGrid g.now w h }
    requires bytes { Bytes (w * h) g.now }
    requires x_lt_w { (x < w) × (y < h) }
    ensures { result ≡ pooled_across most w (plane w g.now) x y }
{
    let a = y * w + near_first(x);
    let e = a + near_count(w, x);
    join_row(&g[a..e], most)
}

// One cell, over the cells within 3 in its column.
fn down_cell(g: &[u8], w: usize, h: usize, x: usize, y: usize, most: bool) -> u8
    requires level_grid { LevelGrid g.now w h }
    requires x_lt_w { (x < w) × (y < h) }
    ensures { result ≡ pooled_down most h (plane w g.now) x y }
{
    let y0 = near_first(y);
    let n = near_count(h, y);
    let mut m = unit8(most);
    for j in 0..n {
        m = join8(most, m, g[(y0 + j) * w + x]);
    }
    m
}

fn pool_across(src: &[u32], dst: &mut [u8], w: usize, h: usize, most: bool)
    requires level_grid { LevelGrid src.now w h }
    requires bytes { Bytes (w * h) src.now }
    requires h_in_bounds { w * h ≤ length dst.old }
    ensures { dst.new
        ≡ drawn w h (pooled_across most w (plane w src.now)) dst.old }
{
    let n = w * h;
    // Kept: x and y are counted beside k; with a row's loop apart it is two functions, no plainer.
    let mut x = 0;
    let mut y = 0;
    for k in 0..n {
        dst[k] = across_cell(src, w, h, x, y, most);
        x += 1;
        if x == w {
            x = 0;
            y += 1;
        }
    }
}

fn pool_down(src: &[u8], dst: &mut [u32], w: usize, h: usize, most: bool)
    requires level_grid { LevelGrid src.now w h }
    requires h_in_bounds { w * h ≤ length dst.old }
    ensures dst { dst.new
        ≡ drawn w h (pooled_down most h (plane w src.now)) dst.old }
    ensures bytes { Bytes (w * h) dst.new }
{
    let n = w * h;
    // Kept: x and y are counted beside k; with a row's loop apart it is two functions, no plainer.
    let mut x = 0;
    let mut y = 0;
    for k in 0..n {
        dst[k] = down_cell(src, w, h, x, y, most) as u32;
        x += 1;
        if x == w {
            x = 0;
            y += 1;
        }
    }
}

// A grid pooled in place, by way of the working grid `mid`.
fn pool(g: &mut [u32], mid: &mut [u8], w: usize, h: usize, most: bool)
    requires level_grid { LevelGrid g.old w h }
    requires bytes_2 { Bytes (w * h) g.old }
    requires level_grid_2 { LevelGrid mid.old w h }
    ensures g { g.new
        ≡ drawn w h (pooled most w h (plane w g.old)) g.old }
    ensures bytes { Bytes (w * h) g.new }
    ensures mid_past { UntouchedPast (w * h) mid.old mid.new }
{
    pool_across(g, mid, w, h, most);
    pool_down(mid, g, w, h, most);
}

// The thresholds of n pooled cells.
fn thresholds(darks: &[u32], lights: &[u32], grid: &mut [u8], n: usize)
    requires n_in_bounds { (n ≤ length darks.now) × (n ≤ length lights.now) × (n ≤ length grid.old) }
    requires bytes { Bytes n darks.now }
    requires bytes_2 { Bytes n lights.now }
    ensures { grid.new
        ≡ written n (pairwise darks.now lights.now) grid.old }
{
    for k in 0..n {
        grid[k] = threshold_of(darks[k] as u8, lights[k] as u8);
    }
}

// The thresholds before filling. It writes over the two grids of levels.
pub(crate) fn sharp(darks: &mut [u32], lights: &mut [u32], grid: &mut [u8], w: usize, h: usize)
    requires level_grid { LevelGrid darks.old w h }
    requires level_grid_2 { LevelGrid lights.old w h }
    requires level_grid_3 { LevelGrid grid.old w h }
    requires bytes { Bytes (w * h) darks.old }
    requires bytes_2 { Bytes (w * h) lights.old }
    ensures grid { grid.new
        ≡ drawn w h (sharp w h (plane w darks.old) (plane w lights.old))
        grid.old }
    ensures darks_past { UntouchedPast (w * h) darks.old darks.new }
    ensures lights_past { UntouchedPast (w * h) lights.old lights.new }
{
    pool(darks, grid, w, h, false);
    pool(lights, grid, w, h, true);
    thresholds(darks, lights, grid, w * h);
}
