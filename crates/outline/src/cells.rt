// Thresholds and labels of the cells that a pixel lies in.
ghost use Rattle.std.specs.Prelude.{◌≡◌, ◌+◌, ◌/◌, ◌<◌, ◌≤◌};
ghost use Rattle.boundary.specs.Boundary.{counts as Counts};
ghost use Rattle.outline.specs.Inner.{toward, cut_of, Grids};

// Place k of the n places from a on, from either end.
pub fn place(back: bool, a: usize, n: usize, k: usize) -> usize
    requires { (k < n) × (a + n ≤ 4096) }
    ensures { (result ≡ a + toward back n k) × (result < a + n) }
{
    if back {
        return a + (n - 1 - k);
    }
    a + k
}

// Whether a cell's label counts; 0 wanted means any.
fn counts(want: u32, label: u32) -> bool
    ensures { result ≡ Counts want label }
{
    if label == 0 {
        return false;
    }
    if want == 0 {
        return true;
    }
    label == want
}

// The threshold of the cell of pixel x, y, or 0 where its label does not count.
pub fn cut_at(
    levels: &[u8],
    labels: &[u32],
    want: u32,
    w: usize,
    h: usize,
    x: usize,
    y: usize,
) -> u8
    requires grids { Grids levels.now labels.now w h }
    requires x_lt_w { (x < w) × (y < h) }
    ensures { result ≡ cut_of want w levels.now labels.now (x / 8) (y / 8) }
{
    if counts(want, labels[y / 8 * ((w + 7) / 8) + x / 8]) {
        return levels[y / 8 / 2 * ((w + 15) / 16) + x / 8 / 2];
    }
    0
}

// The same, where t is that of column cx of cells in the same row.
pub fn cut_again(
    levels: &[u8],
    labels: &[u32],
    want: u32,
    w: usize,
    h: usize,
    x: usize,
    y: usize,
    cx: usize,
    t: u8,
) -> u8
    requires grids { Grids levels.now labels.now w h }
    requires x_lt_w { (x < w) × (y < h) }
    requires t_value { t ≡ cut_of want w levels.now labels.now cx (y / 8) }
    ensures { result ≡ cut_of want w levels.now labels.now (x / 8) (y / 8) }
{
    let c = x / 8;
    if c == cx {
        return t;
    }
    cut_at(levels, labels, want, w, h, x, y)
}
