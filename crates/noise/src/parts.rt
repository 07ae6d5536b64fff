// A row with an outline as three parts: what lies before its first run, from there to the end of
// its last run, and after it. There are as many such rows as the product of the parts' counts.
ghost use Rattle.std.specs.Prelude.{◌≡◌, ◌+◌, ◌<◌, ◌≤◌};
ghost use Rattle.noise.specs.Rows.{rows_with};
ghost use Rattle.noise.specs.Inner.{clear_rows, middle_rows, Filled};

// The clear rows of i + 1 pixels from those of fewer, which t lists. A clear row of i + 1 pixels is
// one that is not ink and a row of i without a run. This is a pixel, ink or not, and a row of i - 1
// without a run, but for those where an ink pixel makes a run: k - 1 ink pixels follow it, and then
// a clear row of i - k.
fn next(t: &[u64; 62], k: usize, i: usize) -> u64
    requires filled { Filled k i t.now }
    requires k_nonzero { (0 < k) × (0 < i) × (i ≤ 60) }
    ensures { result ≡ clear_rows k (i + 1) }
{
    if i < k {
        return 2 * t[i];
    }
    2 * t[i] - t[i - k]
}

// How many rows of n pixels are clear: without a run of k, and with a pixel that is not ink next to
// the outline.
pub fn clear_rows(k: usize, n: usize) -> u64
    requires { (0 < k) × (n ≤ 61) }
    ensures { result ≡ clear_rows k n }
{
    let mut t = [1u64; 62];
    for i in 1..n {
        let v = next(&t, k, i);
        t[i + 1] = v;
    }
    t[n]
}

// How many rows of m pixels begin and end with k ink pixels.
fn middle_rows(k: usize, m: usize) -> u64
    requires { m ≤ 60 }
    ensures { result ≡ middle_rows k m }
{
    if m < k {
        return 0;
    }
    let more = m - k;
    if more < k {
        return 1;
    }
    1u64 << (more - k)
}

// How many rows of n pixels have an outline from one place to another.
pub fn between(k: usize, n: usize, first: usize, last: usize) -> u64
    requires { (0 < k) × (n ≤ 60) × (first < n) × (last < n) }
    ensures { result ≡ rows_with k n first last }
{
    if last < first {
        return 0;
    }
    let before = clear_rows(k, first);
    let middle = middle_rows(k, last + 1 - first);
    let after = clear_rows(k, n - 1 - last);
    before * (middle * after)
}
