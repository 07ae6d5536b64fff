// Tags put into the out-parameter of the C function of the tag list. A tag is eleven numbers:
// version, agreement, mirrored, then x and y of its four corners in the ring's own order.
ghost use Rattle.std.specs.Prelude.{◌≡◌, ◌+◌, ◌≤◌, length};
ghost use Rattle.laws.specs.Lent.{Stored};
ghost use Rattle.c_rings.specs.Tags.{tag_numbers, list_numbers};

use crate::flag;
use tag_list::tag::Tag;

// The eleven numbers of a tag, from a place on.
fn put_tag(t: Tag, out: &mut [f32], at: usize)
    requires { at + 11 ≤ length out.old }
    ensures { Stored at (tag_numbers t) out.old out.new (at + 11) }
{
    let q = t.corners;
    let a = q.a;
    let b = q.b;
    let c = q.c;
    let d = q.d;
    out[at] = t.version as f32;
    out[at + 1] = t.agreement;
    out[at + 2] = flag(t.mirrored) as f32;
    out[at + 3] = a.x;
    out[at + 4] = a.y;
    out[at + 5] = b.x;
    out[at + 6] = b.y;
    out[at + 7] = c.x;
    out[at + 8] = c.y;
    out[at + 9] = d.x;
    out[at + 10] = d.y;
}

// Those of each of four places.
fn put_tags(list: [Tag; 4], out: &mut [f32])
    requires { 44 ≤ length out.old }
    ensures { Stored 0 (list_numbers list) out.old out.new 44 }
{
    for k in 0..4 {
        put_tag(list[k], out, 11 * k);
    }
}

// The same in a list of their own; those past the last tag are 0.
pub fn numbers(list: [Tag; 4]) -> [f32; 44]
    ensures { result ≡ list_numbers list }
{
    let mut all = [0f32; 44];
    put_tags(list, &mut all);
    all
}
