// The table of running ink counts: place (x, y), in rows of w + 1, has the number of ink pixels
// with a column below x and a row below y.
ghost use Rattle.std.specs.Prelude.{◌≡◌, ℕ, ◌+◌, ◌*◌, ◌/◌, ◌<◌, ◌≤◌, ltb, length, get_or, set};
ghost use Rattle.laws.specs.Fold.{bit};
ghost use Rattle.laws.specs.Lent.{UntouchedPast};
ghost use Rattle.laws.specs.Plane.{plane, drawn};
ghost use Rattle.levels.specs.Level.{cells, span};
ghost use Rattle.darkness.specs.Darkness.{ink_bit, ink_before};
ghost use Rattle.darkness.specs.Inner.{Sized, CountSpot, TableHeld, CountedTo, cell_end, RowTo};

use levels::cells::cells_of;
use regions::clearing::clear;

// Place (x, y) of a list in rows of n.
fn place(n: usize, x: usize, y: usize) -> usize
    requires { (n ≤ 4097) × (x ≤ 4097) × (y ≤ 4097) }
    ensures { (result ≡ y * n + x) × (result ≤ 16789506) }
{
    y * n + x
}

// The threshold of level cell c in row y of the picture.
fn threshold_at(levels: &[u8], w: usize, h: usize, c: usize, y: usize) -> u8
    requires h_in_bounds { cells w * cells h ≤ length levels.now }
    requires w_bound { (w ≤ 4096) × (h ≤ 4096) }
    requires c_bound { (16 * c < w) × (y < h) }
    ensures { result ≡ plane (cells w) levels.now c (y / 16) }
{
    levels[y / 16 * cells_of(w) + c]
}

// Puts the count of the place below and right of a pixel, place `down` of the table: the count
// above it, in place `up`, and the row's own. The pixel is byte `pixel`; `sum` is the row's count
// before it, and the answer is the count with it.
fn put_count(
    s: &[u8],
    table: &mut [u32],
    t: u8,
    pixel: usize,
    up: usize,
    down: usize,
    sum: u32,
) -> u32
    requires { CountSpot s.now table.old pixel up down sum }
    ensures answer { result ≡ sum + bit (ltb (get_or s.now pixel 0) t) }
    ensures table { table.new
        ≡ set table.old down (get_or table.old up 0 + result) }
{
    let n = sum + u32::from(s[pixel] < t);
    table[down] = table[up] + n;
    n
}

// Puts the counts of the pixels of row y in the m columns of level cell c. `sum` is the row's count
// before them; the answer is its count with them. The threshold is read once.
fn fill_columns(
    s: &[u8],
    levels: &[u8],
    w: usize,
    h: usize,
    table: &mut [u32],
    c: usize,
    m: usize,
    y: usize,
    sum: u32,
) -> u32
    requires sized { Sized s.now levels.now table.old w h }
    requires c_bound { (16 * c < w) × (m ≡ span w c) × (y < h) }
    requires row_to { RowTo (ink_bit w s.now levels.now) w y table.old table.old (16 * c) sum }
    ensures { RowTo (ink_bit w s.now levels.now) w y table.old
        table.new (cell_end w c) result }
{
    let t = threshold_at(levels, w, h, c, y);
    let pixel = place(w, 16 * c, y);
    let up = place(w + 1, 16 * c + 1, y);
    let down = up + (w + 1);
    let mut n = sum;
    for i in 0..m {
        n = put_count(s, table, t, pixel + i, up + i, down + i, n);
    }
    n
}

// The same for level cell c as a whole or cut at the edge. A whole cell has its own call, for which
// the compiler knows how many columns there are.
fn fill_cell(
    s: &[u8],
    levels: &[u8],
    w: usize,
    h: usize,
    table: &mut [u32],
    c: usize,
    y: usize,
    sum: u32,
) -> u32
    requires sized { Sized s.now levels.now table.old w h }
    requires c_bound { (16 * c < w) × (y < h) }
    requires row_to { RowTo (ink_bit w s.now levels.now) w y table.old table.old (16 * c) sum }
    ensures { RowTo (ink_bit w s.now levels.now) w y table.old
        table.new (cell_end w c) result }
{
    let left = w - 16 * c;
    if left < 16 {
        return fill_columns(s, levels, w, h, table, c, left, y, sum);
    }
    fill_columns(s, levels, w, h, table, c, 16, y, sum)
}

// Row y + 1 of the table, from row y of the picture and row y of the table.
fn fill_row(s: &[u8], levels: &[u8], w: usize, h: usize, table: &mut [u32], y: usize)
    requires sized { Sized s.now levels.now table.old w h }
    requires y_lt_h { y < h }
    requires table_held { TableHeld (ink_bit w s.now levels.now) w ((y + 1) * (w + 1)) table.old }
    ensures { CountedTo (ink_bit w s.now levels.now) w ((y + 2) * (w + 1))
        table.old table.new }
{
    let first = (y + 1) * (w + 1);
    table[first] = 0;
    let n = cells_of(w);
    let mut sum = 0;
    for c in 0..n {
        sum = fill_cell(s, levels, w, h, table, c, y, sum);
    }
}

// Puts 0 into the first n places of a list.
fn clear_front(list: &mut [u32], n: usize)
    requires { n ≤ length list.old }
    ensures list { (i : ℕ) → i < n → get_or list.new i 0 ≡ 0 }
    ensures list_past { UntouchedPast n list.old list.new }
{
    clear(&mut list[..n]);
}

// The whole table.
pub fn fill_table(s: &[u8], levels: &[u8], w: usize, h: usize, table: &mut [u32])
    requires { Sized s.now levels.now table.old w h }
    ensures { table.new
        ≡ drawn (w + 1) (h + 1) (ink_before (ink_bit w s.now levels.now))
        table.old }
{
    clear_front(table, w + 1);
    for y in 0..h {
        fill_row(s, levels, w, h, table, y);
    }
}
