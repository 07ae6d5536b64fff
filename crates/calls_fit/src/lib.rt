// Calls of fit's and lens's entries. An f32 is one word; points are x and y by turns, at most 4,096
// of them; a quad is the eight numbers of its corners, a line x, y, u, v.
//     800 tls_line points..                                0, line
//     801 refit_middle edge, line, wide, tight, points..   0, 1, line; 0, 0 for none
//     802 intersect line, line                             0, 1, x, y; 0, 0 for none
//     803 refine_quad quad, points..                       0, quad
//     804 edge_quad quad, points..                         0, 1, quad; 0, 0 for none
//     805 same_quad quad, quad, tol                        0, flag
//     806 bow_fit some, c0, c1, a, samples..               0, 1, c0, c1, a, error; 0, 0 for none
//     807 estimate_lens x, y, some, quad, points..         0, x, y, k
//     808 undistort x, y, k, points..                      0, points
// An edge is ax, ay, ux, uy, len. `some` is 0 where there is no bow before, or no quad.
#![tactic(auto)]

pub mod answers;

ghost use Rattle.std.specs.Prelude.{◌≡◌, ◌≤◌, length};

use fit::line::{Edge, Line};
use hull::points::{Point, Quad};
use lens::bow::Bow;
use lens::straight::Lens;
use word_numbers::floats;

// How many numbers stand before the points.
fn head(kind: u32) -> usize
    ensures { result ≤ 17 }
{
    match kind {
        800 => 0,
        801 | 807 => 11,
        802 | 803 | 804 => 8,
        805 => 17,
        806 => 4,
        _ => 3,
    }
}

// Room for the longest list of points.
fn room() -> [f32; 8192]
    ensures { 8192 ≡ length result }
{
    [0f32; 8192]
}

pub fn answer(kind: u32, args: &[u32], out: &mut [u32]) -> usize {
    let h = head(kind);
    if args.len() < h {
        return 0;
    }
    let n = args.len() - h;
    if 8192 < n {
        return 0;
    }
    let mut a = [0f32; 17];
    floats::read32(args, &mut a);
    let mut s = room();
    floats::read32(&args[h..], &mut s);
    of_points(kind, &a, &s[..n], out)
}

// The point whose coordinates are the numbers i and i + 1.
fn point(a: &[f32; 17], i: usize) -> Point
    requires { i ≤ 15 }
{
    Point {
        x: a[i],
        y: a[i + 1],
    }
}

// The quad whose corners are the numbers from i on.
fn quad(a: &[f32; 17], i: usize) -> Quad
    requires { i ≤ 9 }
{
    let p = point(a, i);
    let q = point(a, i + 2);
    let r = point(a, i + 4);
    let s = point(a, i + 6);
    Quad {
        a: p,
        b: q,
        c: r,
        d: s,
    }
}

// The line of the numbers from i on.
fn line(a: &[f32; 17], i: usize) -> Line
    requires { i ≤ 13 }
{
    Line::Along(a[i], a[i + 1], a[i + 2], a[i + 3])
}

fn of_points(kind: u32, a: &[f32; 17], s: &[f32], out: &mut [u32]) -> usize
    requires { length s.now ≤ 8192 }
{
    match kind {
        800 => answers::lines(fit::line::tls_line(s), out, 1),
        802 => answers::crossing(fit::line::intersect(line(a, 0), line(a, 4)), out),
        805 => {
            let same = fit::corners::same_quad(quad(a, 0), quad(a, 8), a[16]);
            word_numbers::two(out, 0, word_numbers::flag(same))
        }
        806 => answers::bow(lens::bow::bow_fit(s, before(a)), out),
        _ => lend(kind, a, s, out),
    }
}

// The bow before, or none.
fn before(a: &[f32; 17]) -> Option<Bow> {
    if a[0] == 0.0 {
        return None;
    }
    Some(Bow {
        c0: a[1],
        c1: a[2],
        a: a[3],
        error: 0.0,
    })
}

// The calls that need working lists.
fn lend(kind: u32, a: &[f32; 17], s: &[f32], out: &mut [u32]) -> usize
    requires { length s.now ≤ 8192 }
{
    let mut x = room();
    let mut y = room();
    of_lists(kind, a, s, &mut x, &mut y, out)
}

fn of_lists(
    kind: u32,
    a: &[f32; 17],
    s: &[f32],
    x: &mut [f32],
    y: &mut [f32],
    out: &mut [u32],
) -> usize
    requires s_len_bound { length s.now ≤ 8192 }
    requires x_len { length x.old ≡ 8192 }
    requires y_len { length y.old ≡ 8192 }
{
    match kind {
        801 => refit(a, s, x, out),
        803 => answers::corners(fit::corners::refine_quad(s, quad(a, 0), x), out, 1),
        804 => answers::found(fit::edges::edge_quad(s, quad(a, 0), x, y), out),
        807 => estimate(a, s, x, y, out),
        808 => straight(a, s, x, out),
        _ => 0,
    }
}

fn refit(a: &[f32; 17], s: &[f32], x: &mut [f32], out: &mut [u32]) -> usize
    requires s_len_bound { length s.now ≤ 8192 }
    requires x_len { length x.old ≡ 8192 }
{
    let e = Edge {
        ax: a[0],
        ay: a[1],
        ux: a[2],
        uy: a[3],
        len: a[4],
    };
    let fitted = fit::middle::refit_middle(s, e, line(a, 5), a[9], a[10], x);
    answers::lines(fitted, out, 2)
}

fn estimate(a: &[f32; 17], s: &[f32], x: &mut [f32], y: &mut [f32], out: &mut [u32]) -> usize
    requires s_len_bound { length s.now ≤ 8192 }
    requires x_len { length x.old ≡ 8192 }
    requires y_len { length y.old ≡ 8192 }
{
    let l = lens::estimate::estimate_lens(s, raw(a), point(a, 0), x, y);
    let n = [l.x, l.y, l.k];
    answers::put(out, 1, &n)
}

// The quad of an estimate, or none.
fn raw(a: &[f32; 17]) -> Option<Quad> {
    if a[2] == 0.0 {
        return None;
    }
    Some(quad(a, 3))
}

fn straight(a: &[f32; 17], s: &[f32], x: &mut [f32], out: &mut [u32]) -> usize
    requires s_len_bound { length s.now ≤ 8192 }
    requires x_len { length x.old ≡ 8192 }
{
    let l = Lens {
        x: a[0],
        y: a[1],
        k: a[2],
    };
    let m = lens::straight::undistort(s, l, x);
    answers::put(out, 1, &x[..2 * m])
}
