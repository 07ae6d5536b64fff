// Tags, drawn: of each its outline, its first corner and its direction.
use crate::areas::quad_outline;
use crate::paint::{CORNER, TAG};
use drawing::line;
use drawing::shapes::{partway, spot_of, square};
use hull::points::Quad;
use tag_list::tag::{Tag, Tags};

// The first corner, a filled square, and the direction, a pennant: a triangle whose long side is
// the first third of the way from the first corner to the second, and whose short side is the first
// eighth of the way from the first corner to the last.
fn first_corner(plane: &mut [u8], w: usize, h: usize, q: Quad) {
    let a = spot_of(q.a.x, q.a.y);
    let b = spot_of(q.b.x, q.b.y);
    let d = spot_of(q.d.x, q.d.y);
    let tip = partway(a, b, 3, 1);
    let foot = partway(a, d, 8, 1);
    line(plane, w, h, a, tip, CORNER);
    line(plane, w, h, tip, foot, CORNER);
    line(plane, w, h, foot, a, CORNER);
    square(plane, w, h, a, CORNER);
}

// A tag. The places past the tags have version 0.
fn tag(plane: &mut [u8], w: usize, h: usize, t: Tag) {
    if t.version == 0 {
        return;
    }
    let q = t.corners;
    quad_outline(plane, w, h, q, TAG);
    first_corner(plane, w, h, q);
}

// All tags.
pub(crate) fn all_tags(plane: &mut [u8], w: usize, h: usize, t: Tags) {
    let list = t.list;
    for x in list.iter() {
        tag(plane, w, h, *x);
    }
}
