// Lines of the listing.
ghost use Rattle.std.specs.Prelude.{◌≡◌, [], ◌+◌, ◌*◌, ◌≤◌, length, Some};
ghost use Rattle.hull.specs.Quad.{quad_floats, values_of};
ghost use Rattle.text.specs.Text.{line_of, spaced};
ghost use Rattle.laws.specs.Lent.{Stored};
ghost use Rattle.traylist_text.specs.Inner.{Short, NearPoints, cut_double, corners_line};

use hull::points::Quad;
use text::{put_byte, put_word};

// Numbers below 100,000, a space before each.
fn put_numbers(out: &mut [u8], at: usize, ns: &[u32]) -> usize
    requires short { Short ns.now }
    requires ns_in_bounds { at + 6 * length ns.now ≤ length out.old }
    ensures { Stored at (spaced ns.now) out.old out.new result }
{
    let mut to = at;
    for n in ns {
        to = text::put_spaced(out, to, *n as usize);
    }
    to
}

// A word, numbers below 100,000 with a space before each, and a line feed.
pub(crate) fn line(out: &mut [u8], at: usize, word: &[u8], ns: &[u32]) -> usize
    requires short { Short ns.now }
    requires ns_in_bounds { at + (length word.now + (6 * length ns.now + 1)) ≤ length out.old }
    ensures { Stored at (line_of word.now ns.now) out.old
        out.new result }
{
    let a = put_word(out, at, word);
    let b = put_numbers(out, a, ns);
    put_byte(out, b, b'\n')
}

// Twice x as a whole number.
fn doubled(x: f32) -> u32
    ensures { result ≡ cut_double x }
{
    ieee::to_u32(x * 2.0)
}

// The line of the corners of a quad, doubled.
fn corners(q: Quad, out: &mut [u8], at: usize) -> usize
    requires near_points { NearPoints (values_of (Some q)) }
    requires at_in_bounds { at + 53 ≤ length out.old }
    ensures { Stored at (corners_line (values_of (Some q))) out.old out.new result }
{
    let a = q.a;
    let b = q.b;
    let c = q.c;
    let d = q.d;
    let ns = [
        doubled(a.x),
        doubled(a.y),
        doubled(b.x),
        doubled(b.y),
        doubled(c.x),
        doubled(c.y),
        doubled(d.x),
        doubled(d.y),
    ];
    line(out, at, b"quad", &ns)
}

// The line of the quad of the vertices p.
pub(crate) fn quad_line(p: &[f32], out: &mut [u8], at: usize) -> usize
    requires near_points { NearPoints p.now }
    requires at_in_bounds { at + 53 ≤ length out.old }
    ensures { Stored at (corners_line (quad_floats p.now)) out.old
        out.new result }
{
    let Some(q) = hull::quad(p) else {
        return line(out, at, b"quad none", &[]);
    };
    corners(q, out, at)
}
