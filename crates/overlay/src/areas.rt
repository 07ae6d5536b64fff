// Kept regions, drawn: of each its box, its hull and its quad.
ghost use Rattle.std.specs.Prelude.{◌≤◌, length};

use crate::paint::{BOX, HULL, QUAD};
use drawing::shapes::{box_outline, closed};
use hull::points::Quad;
use regions::answer::{Kept, Region};

// The numbers of n points, of which a list has room.
fn numbers(n: usize, room: usize) -> usize
    ensures { result ≤ room }
{
    if room / 2 < n { 0 } else { 2 * n }
}

// The boundary points of a region, as the first numbers of the list; how many numbers.
fn region_points(
    gray: &[u8],
    w: usize,
    h: usize,
    levels: &[u8],
    labels: &[u32],
    r: Region,
    list: &mut [f32],
) -> usize
    ensures { result ≤ length list.old }
{
    let x0 = r.x0 as usize;
    let y0 = r.y0 as usize;
    let x1 = r.x1 as usize;
    let y1 = r.y1 as usize;
    let a = outline::outline(gray, levels, labels, r.label, w, h, x0, y0, x1, y1, list);
    let Ok(n) = a else {
        return 0;
    };
    numbers(n, list.len())
}

// The vertices of the hull of points, as the first numbers of the list; how many numbers.
fn vertices(p: &[f32], list: &mut [f32]) -> usize
    ensures { result ≤ length list.old }
{
    let Ok(n) = hull::convex_hull(p, list) else {
        return 0;
    };
    numbers(n, list.len())
}

// The outline of a quad.
pub(crate) fn quad_outline(plane: &mut [u8], w: usize, h: usize, q: Quad, colour: u8) {
    let c = [q.a.x, q.a.y, q.b.x, q.b.y, q.c.x, q.c.y, q.d.x, q.d.y];
    closed(plane, w, h, &c, colour);
}

// A hull, and its quad where it has one.
fn hull_and_quad(plane: &mut [u8], w: usize, h: usize, vertices: &[f32]) {
    closed(plane, w, h, vertices, HULL);
    let Some(q) = hull::quad(vertices) else {
        return;
    };
    quad_outline(plane, w, h, q, QUAD);
}

// A region: its box, its hull and its quad. The places past the kept regions have no cells.
fn region(
    gray: &[u8],
    w: usize,
    h: usize,
    plane: &mut [u8],
    levels: &[u8],
    labels: &[u32],
    r: Region,
    points: &mut [f32],
    list: &mut [f32],
) {
    if r.cells == 0 {
        return;
    }
    let x0 = r.x0 as usize;
    let y0 = r.y0 as usize;
    let x1 = r.x1 as usize;
    let y1 = r.y1 as usize;
    box_outline(plane, w, h, x0, y0, x1, y1, BOX);
    let n = region_points(gray, w, h, levels, labels, r, points);
    let m = vertices(&points[..n], list);
    hull_and_quad(plane, w, h, &list[..m]);
}

// All kept regions, the largest first.
pub(crate) fn all_regions(
    gray: &[u8],
    w: usize,
    h: usize,
    plane: &mut [u8],
    levels: &[u8],
    labels: &[u32],
    k: Kept,
    points: &mut [f32],
    list: &mut [f32],
) {
    let kept = k.list;
    for r in kept.iter() {
        region(gray, w, h, plane, levels, labels, *r, points, list);
    }
}
