// What is done with each value of a list: the doors' test, copies, distances; then the median
// distance from the median.
ghost use Rattle.std.specs.Prelude.{◌≡◌, true, map, length};
ghost use Rattle.medians.specs.Median.{Numbers, all_usable, usable, away, mad_sigma};

use crate::select;

// Whether x is finite and not -0.
fn fit(x: f32) -> bool
    ensures { result ≡ usable x }
{
    ieee::is_finite(x) && x.to_bits() != 0x8000_0000
}

// Whether all values are finite and not -0. It looks at every value, with no way out between.
pub(crate) fn all_fit(v: &[f32]) -> bool
    ensures { (result ≡ all_usable v.now) × (result ≡ true → Numbers v.now) }
{
    let mut ok = true;
    for x in v {
        ok &= fit(*x);
    }
    ok
}

// Copies a list to one of as many places.
// Kept: the library's `copy_from_slice` is a call of C's memmove here, which a static library would
// need from outside.
fn copy(to: &mut [f32], from: &[f32])
    requires { length to.old ≡ length from.now }
    ensures { to.new ≡ from.now }
{
    for (i, x) in from.iter().enumerate() {
        to[i] = *x;
    }
}

// The distance of x from c.
fn distance(c: f32, x: f32) -> f32
    ensures { result ≡ away c x }
{
    ieee::abs32(x - c)
}

// The distance of each value from c.
fn distances(to: &mut [f32], from: &[f32], c: f32)
    requires { length to.old ≡ length from.now }
    ensures { to.new ≡ map (away c) from.now }
{
    for (i, x) in from.iter().enumerate() {
        to[i] = distance(c, *x);
    }
}

// The median distance from the median, times 1.4826, with a working list of as many places.
pub(crate) fn spread(work: &mut [f32], values: &[f32]) -> f32
    requires work_len { length work.old ≡ length values.now }
    requires values_value { all_usable values.now ≡ true }
    requires numbers { Numbers values.now }
    ensures { result ≡ mad_sigma values.now }
{
    copy(work, values);
    let c = select::middle(work);
    distances(work, values, c);
    let d = select::middle(work);
    1.4826 * d
}
