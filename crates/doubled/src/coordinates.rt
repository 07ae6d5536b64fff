// Points of a list by their number, and products of their coordinates: at most 2 to the power 27, so
// that sums of a few fit a u32.
ghost use Rattle.std.specs.Prelude.{◌≡◌, ◌*◌, ◌<◌, ◌≤◌};
ghost use Rattle.hull.specs.Points.{many};
ghost use Rattle.doubled.specs.Points.{x_at, y_at, Bounded};

// The coordinates of point i.
pub fn x_at(p: &[u32], i: usize) -> u32
    requires i_bound { i < many p.now }
    requires bounded { Bounded p.now }
    ensures { (result ≡ x_at p.now i) × (result ≤ 8192) }
{
    p[2 * i]
}

pub fn y_at(p: &[u32], i: usize) -> u32
    requires i_bound { i < many p.now }
    requires bounded { Bounded p.now }
    ensures { (result ≡ y_at p.now i) × (result ≤ 8192) }
{
    p[2 * i + 1]
}

// The product of a coordinate, or a difference of two that is counted from 8,192, with a coordinate.
pub fn product(a: u32, b: u32) -> u32
    requires { (a ≤ 16384) × (b ≤ 8192) }
    ensures { (result ≡ a * b) × (result ≤ 134217728) }
{
    a * b
}
