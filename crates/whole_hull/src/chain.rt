// The vertices above, from the least x to the greatest: a stack of places, of which those go that
// the point at a new place leaves behind.
ghost use Rattle.std.specs.Prelude.{◌≡◌, true, false, ◌+◌, ◌<◌, ◌≤◌, length};
ghost use Rattle.laws.specs.Lists.{stack_of};
ghost use Rattle.laws.specs.Plane.{value_at};
ghost use Rattle.whole_hull.specs.Inner.{Full, sum_l, sum_r, Chain, ChainReady, Steep, PlacesWithin};

use doubled::coordinates::product;

// The least y at place x.
fn y_of(a: &[u16], x: u32) -> u32
    requires a_len { length a.now ≡ 8193 }
    requires full { Full (value_at a.now) x }
    ensures { (result ≡ value_at a.now x) × (result ≤ 8192) × (x ≤ 8192) }
{
    let i = x as usize;
    a[i] as u32
}

// Whether the point at c is left behind on the way from that at u to that at w: it lies on the
// right of it, or on it.
fn behind(a: &[u16], u: u32, c: u32, w: u32) -> bool
    requires a_len { length a.now ≡ 8193 }
    requires full { Full (value_at a.now) u }
    requires full_2 { Full (value_at a.now) c }
    requires full_3 { Full (value_at a.now) w }
    requires u_lt_c { (u < c) × (c < w) }
    ensures { (result ≡ true → sum_l (value_at a.now) u c w ≤ sum_r (value_at a.now) u c w)
        × (result ≡ false → sum_r (value_at a.now) u c w < sum_l (value_at a.now) u c w) }
{
    let yu = y_of(a, u);
    let yc = y_of(a, c);
    let yw = y_of(a, w);
    let l = product(yw + 8192 - yu, c - u) + 8192 * (w - c);
    let r = product(yc + 8192 - yu, w - u);
    if r < l {
        return false;
    }
    true
}

// How many of the n places stay when the point at e comes.
fn kept(a: &[u16], s: &[u16], n: usize, e: u32) -> usize
    requires a_len { length a.now ≡ 8193 }
    requires n_in_bounds { n ≤ length s.now }
    requires full { Full (value_at a.now) e }
    requires chain_ready { ChainReady (value_at a.now) e (stack_of s.now n) }
    ensures { (result ≤ n)
        × ChainReady (value_at a.now) e (stack_of s.now result)
        × Steep (value_at a.now) e (stack_of s.now result) }
{
    let mut m = n;
    // Kept: a stack is taken down from its top as long as a test holds; a `for` counts up.
    while 1 < m {
        if behind(a, s[m - 2] as u32, s[m - 1] as u32, e) {
            m -= 1;
            continue;
        }
        return m;
    }
    m
}

// The stack after place e; returns how many places it has.
fn placed(a: &[u16], s: &mut [u16], n: usize, e: u32) -> usize
    requires a_len { length a.now ≡ 8193 }
    requires s_len { (length s.old ≡ 8193) × (n ≤ e) × (e < 8193) }
    requires chain { Chain (value_at a.now) e (stack_of s.old n) }
    ensures { Chain (value_at a.now) (e + 1) (stack_of s.new result) × (result ≤ e + 1) }
{
    let i = e as usize;
    if 8192 < a[i] {
        return n;
    }
    let m = kept(a, s, n, e);
    s[m] = e as u16;
    m + 1
}

// Stores the places of the vertices above in s, and returns how many there are. All points are at
// places from left to right.
pub fn chain(a: &[u16], s: &mut [u16], left: u32, right: u32) -> usize
    requires a_len { length a.now ≡ 8193 }
    requires s_len { length s.old ≡ 8193 }
    requires places_within { PlacesWithin (value_at a.now) left right }
    ensures { Chain (value_at a.now) 8193 (stack_of s.new result) × (result ≤ 8193) }
{
    let mut n = 0usize;
    for e in left..right + 1 {
        n = placed(a, s, n, e);
    }
    n
}
