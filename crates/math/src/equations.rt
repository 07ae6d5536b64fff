// Systems of up to eight equations and least squares, on lists of exactly their places.
ghost use Rattle.std.specs.Prelude.{◌≡◌, ◌+◌, ◌*◌, ◌<◌, ◌≤◌, length};
ghost use Rattle.math.specs.Elimination.{sys};
ghost use Rattle.math.specs.Equations.{zero_cells, solution, add_cells, add_lines, add_rows};
ghost use Rattle.math.specs.Equations.{nudged, normal};

use crate::elimination;

// The solution of n equations, by elimination on the lists that hold them: n numbers, and +0 in the
// places that it does not use.
pub fn run(a: &mut [f64], b: &mut [f64], n: usize) -> Option<[f64; 8]>
    requires n_bound { n ≤ 8 }
    requires a_len { length a.old ≡ n * n }
    requires b_len { length b.old ≡ n }
    ensures { result ≡ solution n a.old b.old }
{
    if !elimination::forward(a, b, n) {
        return None;
    }
    let mut x = [0f64; 8];
    elimination::back(a, b, &mut x[..n], n);
    Some(x)
}

// The same on copies, in lists of as many places.
fn run_copy(m: &mut [f64], v: &mut [f64], a: &[f64], b: &[f64], n: usize) -> Option<[f64; 8]>
    requires n_bound { n ≤ 8 }
    requires a_len { length a.now ≡ n * n }
    requires b_len { length b.now ≡ n }
    requires m_len { length m.old ≡ n * n }
    requires v_len { length v.old ≡ n }
    ensures { result ≡ solution n a.now b.now }
{
    m.copy_from_slice(a);
    v.copy_from_slice(b);
    run(m, v, n)
}

// The same with room for the copies: less of it for up to four equations.
pub(crate) fn on_copies(a: &[f64], b: &[f64], n: usize) -> Option<[f64; 8]>
    requires n_bound { n ≤ 8 }
    requires a_len { length a.now ≡ n * n }
    requires b_len { length b.now ≡ n }
    ensures { result ≡ solution n a.now b.now }
{
    let cells = n * n;
    if n <= 4 {
        let mut m = [0f64; 16];
        let mut v = [0f64; 4];
        return run_copy(&mut m[..cells], &mut v[..n], a, b, n);
    }
    let mut m = [0f64; 64];
    let mut v = [0f64; 8];
    run_copy(&mut m[..cells], &mut v[..n], a, b, n)
}

// Row i of the matrix, with a sample's products added; its values start at w.
fn add_cells(m: &mut [f64], basis: &[f64], w: usize, n: usize, i: usize)
    requires n_bound { n ≤ 8 }
    requires i_lt_n { i < n }
    requires n_in_bounds { n * n ≤ length m.old }
    requires n_in_bounds_2 { w + n ≤ length basis.now }
    ensures { m.new ≡ add_cells basis.now w n i n 0 m.old }
{
    let f = basis[w + i];
    for j in 0..n {
        m[i * n + j] += f * basis[w + j];
    }
}

// A sample's products, added to every row.
fn add_lines(m: &mut [f64], v: &mut [f64], basis: &[f64], w: usize, t: f64, n: usize)
    requires n_bound { n ≤ 8 }
    requires n_in_bounds { n * n ≤ length m.old }
    requires n_in_bounds_2 { n ≤ length v.old }
    requires n_in_bounds_3 { w + n ≤ length basis.now }
    ensures { sys m.new v.new
        ≡ add_lines basis.now w t n n 0 (sys m.old v.old) }
{
    for i in 0..n {
        add_cells(m, basis, w, n, i);
        v[i] += basis[w + i] * t;
    }
}

// Every sample's products.
fn add_rows(m: &mut [f64], v: &mut [f64], basis: &[f64], targets: &[f64], n: usize)
    requires n_bound { n ≤ 8 }
    requires n_in_bounds { n * n ≤ length m.old }
    requires n_in_bounds_2 { n ≤ length v.old }
    requires basis_len { length basis.now ≡ length targets.now * n }
    ensures { sys m.new v.new
        ≡ add_rows basis.now targets.now n
        (length targets.now) 0 (sys m.old v.old) }
{
    for (r, t) in targets.iter().enumerate() {
        add_lines(m, v, basis, r * n, *t, n);
    }
}

// 1e-9, added along the diagonal.
fn nudge(m: &mut [f64], n: usize)
    requires n_bound { n ≤ 8 }
    requires n_in_bounds { n * n ≤ length m.old }
    ensures { m.new ≡ nudged n n 0 m.old }
{
    for i in 0..n {
        m[i * n + i] += 1e-9;
    }
}

// The fit of the samples, with working lists of +0.
pub(crate) fn fit(
    m: &mut [f64],
    v: &mut [f64],
    basis: &[f64],
    targets: &[f64],
    n: usize,
) -> Option<[f64; 8]>
    requires n_bound { n ≤ 8 }
    requires m_value { m.old ≡ zero_cells (n * n) }
    requires v_value { v.old ≡ zero_cells n }
    requires basis_len { length basis.now ≡ length targets.now * n }
    ensures { result ≡ solution n (normal n basis.now targets.now).m
        (normal n basis.now targets.now).v }
{
    add_rows(m, v, basis, targets, n);
    nudge(m, n);
    run(m, v, n)
}
