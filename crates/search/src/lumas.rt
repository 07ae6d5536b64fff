// The luma of each ring position: `ring_lumas` of the Rust's ring.rs.
ghost use Rattle.std.specs.Prelude.{◌≡◌, length};
ghost use Rattle.lcr_core.specs.Version.{positions_of};
ghost use Rattle.search.specs.Samples.{Photo};
ghost use Rattle.search.specs.Lumas.{has_inner, outer_sum, luma_at, lumas_of};

use crate::samples::{Sum, mean_of, sample_cell};
use lcr_core::border;
use lcr_core::version::Version;
use transform::Transform;

// Whether the ring is two deep at a position, and its inner cell is the position's own.
fn has_inner(p: usize, v: Version) -> bool
    ensures { result ≡ has_inner v p }
{
    if border::is_two_deep(p) {
        let cell = border::inner_cell(p, v);
        return border::position(cell.x, cell.y, v) == Some(p);
    }
    false
}

// The samples of a position's outer cell.
fn outer_sum(gray: &[u8], w: usize, h: usize, t: Transform, v: Version, p: usize) -> Sum
    requires { Photo gray.now w h }
    ensures { result ≡ outer_sum gray.now w h t v p }
{
    let none = Sum { sum: 0.0, n: 0.0 };
    sample_cell(gray, w, h, t, border::outer_cell(p, v), none)
}

// The luma of a position.
fn luma_at(gray: &[u8], w: usize, h: usize, t: Transform, v: Version, p: usize) -> f32
    requires { Photo gray.now w h }
    ensures { result ≡ luma_at gray.now w h t v p }
{
    let outer = outer_sum(gray, w, h, t, v, p);
    if has_inner(p, v) {
        let cell = border::inner_cell(p, v);
        return mean_of(sample_cell(gray, w, h, t, cell, outer));
    }
    mean_of(outer)
}

// The lumas of all positions of a version, into the lent list.
pub fn ring_lumas(gray: &[u8], w: usize, h: usize, t: Transform, v: Version, out: &mut [f32])
    requires photo { Photo gray.now w h }
    requires out_len { length out.old ≡ positions_of v }
    ensures { out.new ≡ lumas_of gray.now w h t v }
{
    let n = v.positions();
    for p in 0..n {
        out[p] = luma_at(gray, w, h, t, v, p);
    }
}
