// A tag by its fix, and a short list of tags.
ghost use Rattle.std.specs.Prelude.{◌≡◌, ◌<◌};
ghost use Rattle.tag_list.specs.Tags.{mapped_point, ring_corners, tag_of, no_tag, no_tags};
ghost use Rattle.tag_list.specs.Inner.{with_tag, with_fix};

use accept::Fix;
use hull::points::{Point, Quad};
use lcr_core::version::Version;
use transform::Transform;

// A tag in a picture.
#[derive(Clone, Copy)]
pub struct Tag {
    // version, 1 to 64
    pub version: u8,
    // fraction of the ring's positions that agree, 0 to 1
    pub agreement: f32,
    // whether the ring runs backwards round its quad, as in a mirror
    pub mirrored: bool,
    // the corners of the ring's outer square, in pixels of the picture, in the ring's own order:
    // that of position 0 first, then along rising positions
    pub corners: Quad,
}

// Up to four tags, the first first, and how many; the places past them hold a tag of version 0.
#[derive(Clone, Copy)]
pub struct Tags {
    pub many: usize,
    pub list: [Tag; 4],
}

// The place in the picture of a place of module space.
fn point_of(m: Transform, u: f32, v: f32) -> Point
    ensures { result ≡ mapped_point m u v }
{
    let p = m.apply(u, v);
    Point { x: p.x, y: p.y }
}

// The corners of a ring in the picture, in its own order.
fn corners_of(f: Fix) -> Quad
    ensures { result ≡ ring_corners f }
{
    let lo = -3.0f32;
    let hi = Version::side_of(f.version) as f32 + 3.0;
    let m = f.map;
    Quad {
        a: point_of(m, lo, lo),
        b: point_of(m, hi, lo),
        c: point_of(m, hi, hi),
        d: point_of(m, lo, hi),
    }
}

// The tag of a fix.
fn tag_of(f: Fix) -> Tag
    ensures { result ≡ tag_of f }
{
    let q = corners_of(f);
    Tag {
        version: f.version,
        agreement: f.agreement,
        mirrored: f.mirrored,
        corners: q,
    }
}

// What stands in the places past the tags.
fn no_tag() -> Tag
    ensures { result ≡ no_tag }
{
    let p = Point { x: 0.0, y: 0.0 };
    Tag {
        version: 0,
        agreement: 0.0,
        mirrored: false,
        corners: Quad {
            a: p,
            b: p,
            c: p,
            d: p,
        },
    }
}

// No tags.
pub fn no_tags() -> Tags
    ensures { result ≡ no_tags }
{
    let t = no_tag();
    Tags {
        many: 0,
        list: [t, t, t, t],
    }
}

// One tag more.
fn with_tag(s: Tags, t: Tag) -> Tags
    requires { s.many < 4 }
    ensures { result ≡ with_tag s t }
{
    let mut list = s.list;
    let many = s.many;
    list[many] = t;
    Tags {
        many: many + 1,
        list: list,
    }
}

// One tag more where there is a fix.
pub(crate) fn with_fix(s: Tags, f: Option<Fix>) -> Tags
    requires { s.many < 4 }
    ensures { result ≡ with_fix s f }
{
    let Some(x) = f else {
        return s;
    };
    let t = tag_of(x);
    with_tag(s, t)
}
