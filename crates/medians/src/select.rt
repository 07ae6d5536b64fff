// The median of f32 values by a recursive selection, on lists that can be ordered.
ghost use Rattle.std.specs.Prelude.{◌≡◌, true, false, cond, ◌<◌, ◌≤◌, length};
ghost use Rattle.std.specs.Float.Ieee as Ieee;
ghost use Rattle.medians.specs.Median.{SameValues, Numbers, all_usable, median};
ghost use Rattle.medians.specs.Inner.{Stop, Floor, Risen, Sunk, Parting, Parted, Selected, Largest, Turned};

// Where a partition has come to.
#[derive(Drop)]
pub struct Split {
    // nothing before this place is above the pivot
    pub i: usize,
    // nothing from this place on is below the pivot
    pub e: usize,
}

// The first place from `from` on whose value is not below p.
fn up(v: &[f32], from: usize, p: f32) -> usize
    requires { Stop v.now from p }
    ensures { Risen v.now from p result }
{
    // Kept: the pivot ends the walk without a test of the bound, which a `for` or `position` has.
    let mut i = from;
    while v[i] < p {
        i += 1;
    }
    i
}

// One more than the last place before `from` whose value is not above p.
fn down(v: &[f32], from: usize, p: f32) -> usize
    requires from_in_bounds { from ≤ length v.now }
    requires floor { Floor v.now from p }
    ensures { Sunk v.now from p result }
{
    // Kept: it walks back to a value that ends it, without the test of the bound that a `for` has.
    let mut e = from;
    while p < v[e - 1] {
        e -= 1;
    }
    e
}

// One round of a partition by p: a value on either side that belongs on the other changes places.
fn turn(v: &mut [f32], i: usize, e: usize, p: f32) -> Split
    requires i_lt_e { i < e }
    requires parting { Parting v.old p i e }
    ensures { Turned v.old v.new p i e result.i result.e }
{
    let a = up(v, i, p);
    let b = down(v, e, p);
    if b <= a {
        return Split { i: a, e: b };
    }
    let d = b - 1;
    v.swap(a, d);
    Split { i: a + 1, e: d }
}

// Hoare's partition by the value in the middle.
fn partition(v: &mut [f32]) -> Split
    requires { 0 < length v.old }
    ensures { Parted v.old v.new result.i result.e }
{
    let p = v[(v.len() - 1) / 2];
    // Kept: both ends move, as far as each turn finds.
    let mut i: usize = 0;
    let mut e = v.len();
    while i < e {
        let s = turn(v, i, e, p);
        i = s.i;
        e = s.e;
    }
    Split { i, e }
}

// The k-th smallest value, counted from 0, at its place: on the part that holds that place.
fn select(v: &mut [f32], k: usize) -> f32
    requires k_in_bounds { k < length v.old }
    requires numbers { Numbers v.old }
    ensures { Selected v.old v.new k result }
{
    if v.len() <= 1 {
        return v[k];
    }
    let s = partition(v);
    let i = s.i;
    let e = s.e;
    if k < e {
        return select(&mut v[..e], k);
    }
    if i <= k {
        return select(&mut v[i..], k - i);
    }
    v[k]
}

// The larger of two.
// Kept: the library's `max` promises either of two that compare equal, and `largest` cites x there.
fn larger(x: f32, y: f32) -> f32
    ensures { result ≡ cond (Ieee.lt x y) y x }
{
    if x < y { y } else { x }
}

// The largest of the first n values.
fn largest(v: &[f32], n: usize) -> f32
    requires n_nonzero { 0 < n }
    requires n_in_bounds { n ≤ length v.now }
    requires numbers { Numbers v.now }
    ensures { Largest v.now n result }
{
    let mut m = v[0];
    for i in 1..n {
        m = larger(m, v[i]);
    }
    m
}

// The median; of usable values it is no NaN.
pub(crate) fn middle(v: &mut [f32]) -> f32
    requires { Numbers v.old }
    ensures v { (result ≡ median v.old) × SameValues v.old v.new }
    ensures answer { all_usable v.old ≡ true → Ieee.is_nan result ≡ false }
{
    let n = v.len();
    if n == 0 {
        return 0.0;
    }
    let upper = select(v, n / 2);
    if n % 2 == 1 {
        return upper;
    }
    let lower = largest(v, n / 2);
    0.5 * (lower + upper)
}
