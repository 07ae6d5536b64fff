// Shapes of lines: a closed outline through points, a box, a small filled square. Each keeps the
// plane's length and, since it draws by `line` alone, stays inside the picture.
ghost use Rattle.std.specs.Prelude.{◌≤◌, ◌<◌, ◌*◌, ◌+◌, length};

use crate::{Spot, between, line};

// A place from 0 up, in pixels, cut to a whole number of at most 32,767; a NaN counts as 0.
fn limited(x: f32) -> u16
    ensures { result ≤ 32767 }
{
    ieee::to_u32(x).min(32767) as u16
}

// The least whole number of pixels that is not below a place from 0 up; at most 32,768.
fn covering(x: f32) -> u16
    ensures { result ≤ 32768 }
{
    let t = limited(x);
    if t as f32 == x { t } else { t + 1 }
}

// A spot's number of a place in pixels: that of the column or row that the place lies in, the last
// in reach where it lies further out.
fn cut(x: f32) -> u16 {
    if x < 0.0 {
        return 32768 - covering(-x);
    }
    32768 + limited(x)
}

// The spot that a place in pixels lies in.
pub fn spot_of(x: f32, y: f32) -> Spot {
    Spot {
        x: cut(x),
        y: cut(y),
    }
}

// The spot of point i of a list of alternating x and y.
fn spot_at(points: &[f32], i: usize) -> Spot
    requires { 2 * i + 1 < length points.now }
{
    spot_of(points[2 * i], points[2 * i + 1])
}

// The point after point i of n: the first after the last.
fn after(i: usize, n: usize) -> usize
    requires { i < n }
    ensures { result < n }
{
    if i + 1 < n { i + 1 } else { 0 }
}

// The outline through the points of a list of alternating x and y, from the last to the first too.
pub fn closed(plane: &mut [u8], w: usize, h: usize, points: &[f32], colour: u8) {
    let n = points.len() / 2;
    for i in 0..n {
        let a = spot_at(points, i);
        let b = spot_at(points, after(i, n));
        line(plane, w, h, a, b, colour);
    }
}

// The spot of the pixel in column c and row r, the last in reach where it lies further out.
fn pixel(c: usize, r: usize) -> Spot {
    Spot {
        x: numbered(c),
        y: numbered(r),
    }
}

// A spot's number of column or row n.
fn numbered(n: usize) -> u16 {
    32768 + n.min(32767) as u16
}

// The outermost pixels of a box, from pixel (x0, y0), which is within, to (x1, y1), which is not.
pub fn box_outline(
    plane: &mut [u8],
    w: usize,
    h: usize,
    x0: usize,
    y0: usize,
    x1: usize,
    y1: usize,
    colour: u8,
) {
    if x1 <= x0 {
        return;
    }
    if y1 <= y0 {
        return;
    }
    let a = pixel(x0, y0);
    let b = pixel(x1 - 1, y0);
    let c = pixel(x1 - 1, y1 - 1);
    let d = pixel(x0, y1 - 1);
    line(plane, w, h, a, b, colour);
    line(plane, w, h, b, c, colour);
    line(plane, w, h, c, d, colour);
    line(plane, w, h, d, a, colour);
}

// A number and d more, or the last.
// Kept: past 65,531 it is the last whatever d is, which the library's `saturating_add` is not.
fn more(n: u16, d: u16) -> u16
    requires { d ≤ 4 }
{
    if 65531 < n { 65535 } else { n + d }
}

// A filled square of five by five pixels about a spot.
pub fn square(plane: &mut [u8], w: usize, h: usize, s: Spot, colour: u8) {
    let left = s.x.saturating_sub(2);
    let top = s.y.saturating_sub(2);
    let right = more(left, 4);
    for j in 0..5u16 {
        let y = more(top, j);
        let a = Spot { x: left, y };
        let b = Spot { x: right, y };
        line(plane, w, h, a, b, colour);
    }
}

// The spot after k of n even steps from a to b.
pub fn partway(a: Spot, b: Spot, n: usize, k: usize) -> Spot
    requires { (1 ≤ n) × (n ≤ 65535) × (k ≤ n) }
{
    Spot {
        x: between(a.x, b.x, n, k) as u16,
        y: between(a.y, b.y, n, k) as u16,
    }
}
