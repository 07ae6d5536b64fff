// One outline of a picture tried: which region it is of, its points, its trace.
ghost use Rattle.std.specs.Prelude.{◌≡◌, ◌≤◌};
ghost use Rattle.laws.specs.Plane.{plane};
ghost use Rattle.hull.specs.Points.{floats_of};
ghost use Rattle.search.specs.Samples.{Photo};
ghost use Rattle.ring.specs.Trace.{attempt_of};
ghost use Rattle.finder.specs.Inner.{region_by, tries_by};
ghost use Rattle.finder.specs.Inner.{Roomy, Worked};
ghost use Rattle.region_outline.specs.Region.{need_of, Gridded, Boxed, region_points};

use regions::answer::{Kept, Region};
use ring::quads::Trace;

// The region of try i: the i-th kept region, and past these all ink.
pub fn region_of(k: Kept, i: usize, w: usize, h: usize) -> Region
    requires { (k.kept ≤ 4) × ((w ≤ 4096) × (h ≤ 4096)) }
    ensures { result ≡ region_by k i w h }
{
    let kept = k.kept;
    let list = k.list;
    if i < kept {
        return list[i];
    }
    Region {
        label: 0,
        cells: 0,
        x0: 0,
        y0: 0,
        x1: w as u32,
        y1: h as u32,
    }
}

// How many tries there are: all ink is one where there is more than one region.
pub(crate) fn tries_of(k: Kept) -> usize
    requires { k.kept ≤ 4 }
    ensures { result ≡ tries_by k }
{
    if 1 < k.all {
        return k.kept + 1;
    }
    k.kept
}

// The trace of one region.
pub fn try_one(
    gray: &[u8],
    w: usize,
    h: usize,
    levels: &[u8],
    labels: &[u32],
    r: Region,
    most: u8,
    points: &mut [f32],
    straight: &mut [f32],
    cand: &mut [f32],
    buf: &mut [f32],
) -> Trace
    requires photo { Photo gray.now w h }
    requires gridded { Gridded gray.now w h levels.now labels.now }
    requires boxed { Boxed w h r }
    requires most_bound { most ≤ 64 }
    requires roomy { Roomy (need_of w h) points.old straight.old cand.old buf.old }
    ensures answer { result ≡ attempt_of gray.now w h
        (floats_of (region_points (plane w gray.now) w h r)) most }
    ensures points { Worked (need_of w h) points.old points.new
        straight.old straight.new cand.old cand.new
        buf.old buf.new }
{
    let n = region_outline::region_points(gray, w, h, levels, labels, r, points);
    ring::attempt::attempt(gray, w, h, &points[..2 * n], most, straight, cand, buf)
}
