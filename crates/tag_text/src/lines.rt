// The lines of tags. Each function has room for the longest numbers of their types, not only for
// those that a tag has.
ghost use Rattle.std.specs.Prelude.{◌≡◌, ◌+◌, ◌*◌, ◌≤◌, min, [], ◌∷◌, length};
ghost use Rattle.laws.specs.Lent.{Stored};
ghost use Rattle.refusal.specs.Numbers.{said};
ghost use Rattle.text.specs.Text.{decimal, line_of, refused_word};
ghost use Rattle.tag_text.specs.Lines.{yes_or_no, point_text, corners_text, ring_text, pose_text};
ghost use Rattle.tag_text.specs.Lines.{tag_line, tag_lines, tags_text, answer_text};

use crate::decimal::put_fixed;
use hull::points::{Point, Quad};
use refusal::Refusal;
use tag_list::tag::{Tag, Tags};
use text::{put_byte, put_spaced, put_word};

// A number, a space before it.
pub(crate) fn put_count(out: &mut [u8], at: usize, n: u32) -> usize
    requires { at + 11 ≤ length out.old }
    ensures out { Stored at (32 ∷ decimal n) out.old out.new result }
    ensures most { result ≤ at + 11 }
{
    put_spaced(out, at, n as usize)
}

// `yes` or `no`, a space before it.
fn put_answer(out: &mut [u8], at: usize, yes: bool) -> usize
    requires { at + 4 ≤ length out.old }
    ensures out { Stored at (yes_or_no yes) out.old out.new result }
    ensures most { result ≤ at + 4 }
{
    if yes {
        return put_word(out, at, b" yes");
    }
    put_word(out, at, b" no")
}

// A point, x then y, to a tenth of a pixel.
fn put_point(out: &mut [u8], at: usize, p: Point) -> usize
    requires { at + 28 ≤ length out.old }
    ensures out { Stored at (point_text p) out.old out.new result }
    ensures most { result ≤ at + 28 }
{
    let a = put_fixed(out, at, p.x, 1, 10);
    put_fixed(out, a, p.y, 1, 10)
}

// Four corners in their order.
fn put_corners(out: &mut [u8], at: usize, q: Quad) -> usize
    requires { at + 112 ≤ length out.old }
    ensures out { Stored at (corners_text q) out.old out.new result }
    ensures most { result ≤ at + 112 }
{
    let first = q.a;
    let second = q.b;
    let third = q.c;
    let fourth = q.d;
    let a = put_point(out, at, first);
    let b = put_point(out, a, second);
    let c = put_point(out, b, third);
    put_point(out, c, fourth)
}

// What a tag is: version, agreement to a thousandth.
fn put_ring(out: &mut [u8], at: usize, version: u8, agreement: f32) -> usize
    requires { at + 44 ≤ length out.old }
    ensures out { Stored at (ring_text version agreement) out.old out.new result }
    ensures most { result ≤ at + 44 }
{
    let a = put_word(out, at, b"version");
    let b = put_count(out, a, version as u32);
    let c = put_word(out, b, b" agreement");
    put_fixed(out, c, agreement, 3, 1000)
}

// How it lies: whether it is mirrored, corners; and the end of the line.
fn put_pose(out: &mut [u8], at: usize, mirrored: bool, corners: Quad) -> usize
    requires { at + 134 ≤ length out.old }
    ensures out { Stored at (pose_text mirrored corners) out.old out.new result }
    ensures most { result ≤ at + 134 }
{
    let a = put_word(out, at, b" mirrored");
    let b = put_answer(out, a, mirrored);
    let c = put_word(out, b, b" corners");
    let d = put_corners(out, c, corners);
    put_byte(out, d, b'\n')
}

// The line of a tag.
fn put_tag(out: &mut [u8], at: usize, t: Tag) -> usize
    requires { at + 178 ≤ length out.old }
    ensures out { Stored at (tag_line t) out.old out.new result }
    ensures most { result ≤ at + 178 }
{
    let corners = t.corners;
    let a = put_ring(out, at, t.version, t.agreement);
    put_pose(out, a, t.mirrored, corners)
}

// The lines of the first n tags.
fn put_list(out: &mut [u8], at: usize, list: [Tag; 4], n: usize) -> usize
    requires { (n ≤ 4) × (at + 178 * n ≤ length out.old) }
    ensures out { Stored at (tag_lines list n) out.old out.new result }
    ensures most { result ≤ at + 178 * n }
{
    let mut to = at;
    for k in 0..n {
        to = put_tag(out, to, list[k]);
    }
    to
}

// n, or 4 where it is above.
fn at_most_four(n: usize) -> usize
    ensures { result ≡ min n 4 }
{
    n.min(4)
}

// The lines of the tags, or `none`.
fn put_tags(out: &mut [u8], t: Tags) -> usize
    requires { 712 ≤ length out.old }
    ensures out { Stored 0 (tags_text t) out.old out.new result }
    ensures most { result ≤ 712 }
{
    let n = at_most_four(t.many);
    if n == 0 {
        return put_word(out, 0, b"none\n");
    }
    let list = t.list;
    put_list(out, 0, list, n)
}

// The line of a refusal.
pub(crate) fn put_refused(out: &mut [u8], at: usize, n: u32) -> usize
    requires { at + 19 ≤ length out.old }
    ensures out { Stored at (line_of refused_word (n ∷ [])) out.old out.new result }
    ensures most { result ≤ at + 19 }
{
    let a = put_word(out, at, b"refused");
    let b = put_count(out, a, n);
    put_byte(out, b, b'\n')
}

// The text of an answer.
pub(crate) fn put_text(out: &mut [u8], a: Result<Tags, Refusal>) -> usize
    requires { 712 ≤ length out.old }
    ensures out { Stored 0 (answer_text (said a)) out.old out.new result }
    ensures most { result ≤ 712 }
{
    match a {
        Ok(t) => put_tags(out, t),
        Err(r) => put_refused(out, 0, r.number()),
    }
}
