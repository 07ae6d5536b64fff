// Points stored in the lent list.
ghost use Rattle.std.specs.Prelude.{◌≡◌, [], ◌∷◌, ◌+◌, ◌≤◌, length};
ghost use Rattle.hull.specs.Points.{half_of};
ghost use Rattle.outline.specs.Inner.{Wrote};

// The f32 number n / 2.
fn half(n: usize) -> f32
    requires { n ≤ 16384 }
    ensures { result ≡ half_of n }
{
    n as f32 * 0.5
}

// Stores two points, given in doubled coordinates, from place at on; returns the place after them.
pub fn put_two(out: &mut [f32], at: usize, ax: usize, ay: usize, bx: usize, by: usize) -> usize
    requires at_in_bounds { at + 4 ≤ length out.old }
    requires ax_bound { (ax ≤ 16384) × (ay ≤ 16384) × (bx ≤ 16384) × (by ≤ 16384) }
    ensures { Wrote at ((ax, ay) ∷ (bx, by) ∷ []) out.old out.new result }
{
    out[at] = half(ax);
    out[at + 1] = half(ay);
    out[at + 2] = half(bx);
    out[at + 3] = half(by);
    at + 4
}
