// Gaussian elimination in place, on a matrix row by row and its right side.
ghost use Rattle.std.specs.Prelude.{◌≡◌, ◌+◌, ◌-◌, ◌*◌, ◌<◌, ◌≤◌, length};
ghost use Rattle.math.specs.Lists.{number_at};
ghost use Rattle.math.specs.Elimination.{sys, pivot, swap_on, row_less, cleared_row, clear_on};
ghost use Rattle.math.specs.Elimination.{arranged, forward_on, less_on, back_on};

// The row from column c's diagonal on whose entry in column c is greatest in magnitude.
fn pivot_row(a: &[f64], n: usize, c: usize) -> usize
    requires n_bound { n ≤ 8 }
    requires c_lt_n { c < n }
    requires n_in_bounds { n * n ≤ length a.now }
    ensures { (result ≡ pivot a.now n c) × (result < n) }
{
    let mut p = c;
    for r in c + 1..n {
        let x = ieee::abs64(a[r * n + c]);
        let y = ieee::abs64(a[p * n + c]);
        if y < x {
            p = r;
        }
    }
    p
}

// Exchanges the rows of n places that start at i and j.
fn swap_rows(a: &mut [f64], i: usize, j: usize, n: usize)
    requires n_in_bounds { i + n ≤ length a.old }
    requires n_in_bounds_2 { j + n ≤ length a.old }
    ensures { a.new ≡ swap_on i j n 0 a.old }
{
    for k in 0..n {
        a.swap(i + k, j + k);
    }
}

// Takes f times the row that starts at c from the row that starts at r, from column k0 on.
fn row_less(a: &mut [f64], r: usize, c: usize, f: f64, k0: usize, n: usize)
    requires k0_le_n { k0 ≤ n }
    requires n_in_bounds { r + n ≤ length a.old }
    requires n_in_bounds_2 { c + n ≤ length a.old }
    ensures { a.new ≡ row_less r c f (n - k0) k0 a.old }
{
    for k in k0..n {
        a[r + k] -= f * a[c + k];
    }
}

// Eliminates column c, whose pivot is d, from row r.
fn clear_row(a: &mut [f64], b: &mut [f64], n: usize, c: usize, d: f64, r: usize)
    requires n_bound { n ≤ 8 }
    requires c_lt_n { c < n }
    requires r_lt_n { r < n }
    requires n_in_bounds { n * n ≤ length a.old }
    requires n_in_bounds_2 { n ≤ length b.old }
    ensures { sys a.new b.new
        ≡ cleared_row n c d r (sys a.old b.old) }
{
    let f = a[r * n + c] / d;
    if f == 0.0 {
        return;
    }
    row_less(a, r * n, c * n, f, c, n);
    b[r] -= f * b[c];
}

// Eliminates column c from the rows below its diagonal.
fn clear_below(a: &mut [f64], b: &mut [f64], n: usize, c: usize)
    requires n_bound { n ≤ 8 }
    requires c_lt_n { c < n }
    requires n_in_bounds { n * n ≤ length a.old }
    requires n_in_bounds_2 { n ≤ length b.old }
    ensures { sys a.new b.new
        ≡ clear_on n c (number_at a.old (c * n + c)) (n - (c + 1)) (c + 1)
        (sys a.old b.old) }
{
    let d = a[c * n + c];
    for r in c + 1..n {
        clear_row(a, b, n, c, d, r);
    }
}

// Exchanges rows c and p.
fn arrange(a: &mut [f64], b: &mut [f64], n: usize, c: usize, p: usize)
    requires n_bound { n ≤ 8 }
    requires c_lt_n { c < n }
    requires p_lt_n { p < n }
    requires n_in_bounds { n * n ≤ length a.old }
    requires n_in_bounds_2 { n ≤ length b.old }
    ensures { sys a.new b.new
        ≡ arranged n c p (sys a.old b.old) }
{
    if p == c {
        return;
    }
    swap_rows(a, c * n, p * n, n);
    b.swap(c, p);
}

// Makes the matrix upper triangular; whether every pivot's magnitude was at least 1e-12, or a NaN.
pub fn forward(a: &mut [f64], b: &mut [f64], n: usize) -> bool
    requires n_bound { n ≤ 8 }
    requires n_in_bounds { n * n ≤ length a.old }
    requires n_in_bounds_2 { n ≤ length b.old }
    ensures { record { ok = result; left = sys a.new b.new }
        ≡ forward_on n n 0 (sys a.old b.old) }
{
    for c in 0..n {
        let p = pivot_row(a, n, c);
        let x = ieee::abs64(a[p * n + c]);
        if x < 1e-12 {
            return false;
        }
        arrange(a, b, n, c, p);
        clear_below(a, b, n, c);
    }
    true
}

// s0 less the products of the row that starts at w with x, from column k0 on.
fn less_row(a: &[f64], x: &[f64], w: usize, k0: usize, n: usize, s0: f64) -> f64
    requires k0_le_n { k0 ≤ n }
    requires n_in_bounds { w + n ≤ length a.now }
    requires n_in_bounds_2 { n ≤ length x.now }
    ensures { result ≡ less_on a.now x.now w (n - k0) k0 s0 }
{
    let mut s = s0;
    for k in k0..n {
        s -= a[w + k] * x[k];
    }
    s
}

// Solves an upper triangular system into x, from the last row to the first.
pub fn back(a: &[f64], b: &[f64], x: &mut [f64], n: usize)
    requires n_bound { n ≤ 8 }
    requires n_in_bounds { n * n ≤ length a.now }
    requires n_in_bounds_2 { n ≤ length b.now }
    requires n_in_bounds_3 { n ≤ length x.old }
    ensures { x.new
        ≡ back_on (sys a.now b.now) n n x.old }
{
    for r in (0..n).rev() {
        let s = less_row(a, x, r * n, r + 1, n, b[r]);
        x[r] = s / a[r * n + r];
    }
}
