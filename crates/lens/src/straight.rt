// Points straightened by a lens: `undistort` of the Rust's ring.rs. Points are alternating x, y in
// one list.
ghost use Rattle.std.specs.Prelude.{◌≡◌, ◌≤◌, length};
ghost use Rattle.fit.specs.Select.{KeptIn};
ghost use Rattle.lens.specs.Straight.{straight_x, straight_y, straight_of};

// A lens: the centre in pixels, and the coefficient κ in pixels to the −2; 0 is no lens.
#[derive(Clone, Copy)]
pub struct Lens {
    pub x: f32,
    pub y: f32,
    pub k: f32,
}

// Where a camera without the lens would have put the point x, y.
fn straight_x(l: Lens, x: f32, y: f32) -> f32
    ensures { result ≡ straight_x l x y }
{
    let dx = x - l.x;
    let dy = y - l.y;
    let s = 1.0 + l.k * (dx * dx + dy * dy);
    l.x + dx * s
}

fn straight_y(l: Lens, x: f32, y: f32) -> f32
    ensures { result ≡ straight_y l x y }
{
    let dx = x - l.x;
    let dy = y - l.y;
    let s = 1.0 + l.k * (dx * dx + dy * dy);
    l.y + dy * s
}

// Puts the points, straightened, from the beginning of out on, and tells how many there are.
pub fn undistort(s: &[f32], l: Lens, out: &mut [f32]) -> usize
    requires s_in_bounds { length s.now ≤ length out.old }
    requires s_len_bound { length s.now ≤ 32768 }
    ensures { KeptIn (length s.now) (straight_of l s.now)
        out.old out.new result }
{
    let n = s.len() / 2;
    let mut m = 0usize;
    for k in 0..n {
        let x = s[2 * k];
        let y = s[2 * k + 1];
        m = fit::middle::put(out, m, true, straight_x(l, x, y), straight_y(l, x, y));
    }
    m
}
