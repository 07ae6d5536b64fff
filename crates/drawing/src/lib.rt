// Lines drawn into a plane: the pixels of a picture, one byte each, row by row. A line stays inside
// the picture whatever its ends are.
#![tactic(auto)]

ghost use Rattle.std.specs.Prelude.{◌&&◌, ◌≡◌, ◌+◌, ◌≤◌, ◌<◌, length};
ghost use Rattle.picture_checks.specs.Picture.{Sides};
ghost use Rattle.drawing.specs.Lines.{steps_of, line_point, on_side, dot_on, dots_on, line_on};

pub mod claims;
pub mod shapes;

// Column and row of an end of a line, each counted from 32,768 before the picture's first: pixel
// (0, 0) is the spot (32768, 32768).
#[derive(Clone, Copy)]
pub struct Spot {
    pub x: u16,
    pub y: u16,
}

// The steps of a line.
fn steps(a: Spot, b: Spot) -> usize
    ensures answer { result ≡ steps_of a b }
    ensures bounds { (1 ≤ result) × (result ≤ 65535) }
{
    let across = a.x.abs_diff(b.x);
    let down = a.y.abs_diff(b.y);
    across.max(down).max(1) as usize
}

// The number after k of n even steps from a to b.
fn between(a: u16, b: u16, n: usize, k: usize) -> usize
    requires { (1 ≤ n) × (n ≤ 65535) × (k ≤ n) }
    ensures answer { result ≡ line_point a b n k }
    ensures most { result ≤ 65535 }
{
    let weighted = a as usize * (n - k) + b as usize * k;
    (2 * weighted + n) / (2 * n)
}

// Whether a spot's number is that of one of n columns or rows.
fn on_side(n: usize, x: usize) -> bool
    ensures { result ≡ on_side n x }
{
    32768 <= x && x - 32768 < n
}

// Whether a spot lies in the picture.
fn inside(w: usize, h: usize, x: usize, y: usize) -> bool
    ensures { result ≡ (on_side w x && on_side h y) }
{
    on_side(w, x) && on_side(h, y)
}

// One point, where it lies in the picture.
fn dot(plane: &mut [u8], w: usize, h: usize, x: usize, y: usize, colour: u8)
    requires { Sides w h (length plane.old) }
    ensures { plane.new ≡ dot_on w h x y colour plane.old }
{
    if !inside(w, h, x, y) {
        return;
    }
    plane[(y - 32768) * w + (x - 32768)] = colour;
}

// All points of a line.
fn dots(plane: &mut [u8], w: usize, h: usize, a: Spot, b: Spot, colour: u8)
    requires { Sides w h (length plane.old) }
    ensures { plane.new
        ≡ dots_on w h a b colour (steps_of a b + 1) plane.old }
{
    let n = steps(a, b);
    for k in 0..n + 1 {
        let x = between(a.x, b.x, n, k);
        let y = between(a.y, b.y, n, k);
        dot(plane, w, h, x, y, colour);
    }
}

// A line from a to b in a picture of w by h: its pixels get the colour. A plane with a side outside
// 1..4,096 or of other than w × h bytes stays as it is.
pub fn line(plane: &mut [u8], w: usize, h: usize, a: Spot, b: Spot, colour: u8)
    ensures { plane.new ≡ line_on w h a b colour plane.old }
{
    match picture_checks::check_picture(w, h, plane.len()) {
        Ok(()) => dots(plane, w, h, a, b, colour),
        Err(_) => {}
    }
}
