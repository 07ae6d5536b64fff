// Up to eight fill passes, each from the grid before it.
ghost use Rattle.std.specs.Prelude.{◌≡◌, ◌+◌, ◌*◌, ◌≤◌, ◌<◌, length};
ghost use Rattle.laws.specs.Fold.{written};
ghost use Rattle.laws.specs.Lent.{UntouchedPast};
ghost use Rattle.laws.specs.Plane.{plane, drawn, value_at};
ghost use Rattle.levels.specs.Level.{west, east, north, south, nonzero, mean, fill_at, passes};
ghost use Rattle.levels.specs.Inner.{LevelGrid, Bytes};

// The side neighbours of a cell but the west one, 0 outside the grid.
fn east_of(g: &[u8], w: usize, x: usize, y: usize) -> u8
    requires w_in_bounds { y * w + w ≤ length g.now }
    requires x_lt_w { x < w }
    ensures { result ≡ east w (plane w g.now) x y }
{
    if x + 1 < w {
        return g[y * w + (x + 1)];
    }
    0
}

fn north_of(g: &[u8], w: usize, x: usize, y: usize) -> u8
    requires { y * w + x < length g.now }
    ensures { result ≡ north (plane w g.now) x y }
{
    if y == 0 {
        return 0;
    }
    g[(y - 1) * w + x]
}

fn south_of(g: &[u8], w: usize, h: usize, x: usize, y: usize) -> u8
    requires level_grid { LevelGrid g.now w h }
    requires x_lt_w { (x < w) × (y < h) }
    ensures { result ≡ south h (plane w g.now) x y }
{
    if y + 1 < h {
        return g[(y + 1) * w + x];
    }
    0
}

// 1 if a byte is not 0.
fn one_if(v: u8) -> u32
    ensures { result ≡ nonzero v }
{
    u32::from(v != 0)
}

// The mean of those that are not 0, rounded down; 0 if all are.
fn mean_of(a: u8, b: u8, c: u8, d: u8) -> u8
    ensures { result ≡ mean a b c d }
{
    let n = one_if(a) + one_if(b) + one_if(c) + one_if(d);
    if n == 0 {
        return 0;
    }
    let sum = a as u32 + b as u32 + c as u32 + d as u32;
    (sum / n) as u8
}

// One cell after a fill pass, of v in it and of the byte to its west.
fn fill_cell(g: &[u8], w: usize, h: usize, x: usize, y: usize, v: u8, left: u8) -> u8
    requires level_grid { LevelGrid g.now w h }
    requires x_lt_w { (x < w) × (y < h) }
    requires v_value { v ≡ plane w g.now x y }
    requires left_value { left ≡ west (plane w g.now) x y }
    ensures { result ≡ fill_at w h (plane w g.now) x y }
{
    if v != 0 {
        return v;
    }
    mean_of(
        left,
        east_of(g, w, x, y),
        north_of(g, w, x, y),
        south_of(g, w, h, x, y),
    )
}

// One fill pass, from the grid prev into the grid next. The byte to the west is the one that prev
// has there, kept from the cell before; at the beginning of a row it is 0.
fn fill_pass(prev: &[u8], next: &mut [u32], w: usize, h: usize)
    requires level_grid { LevelGrid prev.now w h }
    requires h_in_bounds { w * h ≤ length next.old }
    ensures next { next.new
        ≡ drawn w h (fill_at w h (plane w prev.now)) next.old }
    ensures bytes { Bytes (w * h) next.new }
{
    let n = w * h;
    // Kept: x and y are counted beside k; with a row's loop apart it is two functions, no plainer.
    let mut x = 0;
    let mut y = 0;
    let mut left: u8 = 0;
    for k in 0..n {
        let here = prev[k];
        let filled = fill_cell(prev, w, h, x, y, here, left);
        next[k] = filled as u32;
        left = here;
        x += 1;
        if x == w {
            left = 0;
            x = 0;
            y += 1;
        }
    }
}

// The first n numbers of a list of bytes, copied.
fn narrow(src: &[u32], dst: &mut [u8], n: usize)
    requires n_in_bounds { (n ≤ length src.now) × (n ≤ length dst.old) }
    requires bytes { Bytes n src.now }
    ensures { dst.new ≡ written n (value_at src.now) dst.old }
{
    for k in 0..n {
        dst[k] = src[k] as u8;
    }
}

// Eight fill passes over a grid, each into the working grid and back.
pub(crate) fn fill_passes(grid: &mut [u8], work: &mut [u32], w: usize, h: usize)
    requires level_grid { LevelGrid grid.old w h }
    requires level_grid_2 { LevelGrid work.old w h }
    ensures grid { grid.new
        ≡ drawn w h (passes w h 8 (plane w grid.old)) grid.old }
    ensures work_past { UntouchedPast (w * h) work.old work.new }
{
    for _ in 0..8usize {
        fill_pass(grid, work, w, h);
        narrow(work, grid, w * h);
    }
}
