// The outlines of a picture tried one after the other: the loop of `trace` of the Rust's ring.rs.
ghost use Rattle.std.specs.Prelude.{◌≡◌, ◌+◌, ◌≤◌};
ghost use Rattle.laws.specs.Plane.{plane};
ghost use Rattle.regions.specs.Regions.{kept_regions};
ghost use Rattle.hull.specs.Points.{floats_of};
ghost use Rattle.search.specs.Samples.{Photo};
ghost use Rattle.ring.specs.Trace.{first_of, attempt_of};
ghost use Rattle.finder.specs.Find.{tries_of, try_of, best_trace, trace_of};
ghost use Rattle.finder.specs.Inner.{Roomy, Worked};
ghost use Rattle.region_outline.specs.Region.{need_of, Gridded, Boxed, region_points};

use crate::best::promoted;
use crate::outlines::{region_of, tries_of, try_one};
use regions::answer::{Kept, Region};
use ring::quads::{Trace, better, is_fixed};

// The trace that stands after one region more, none of which is tried once there is a fix.
fn try_more(
    gray: &[u8],
    w: usize,
    h: usize,
    levels: &[u8],
    labels: &[u32],
    r: Region,
    most: u8,
    best: Trace,
    points: &mut [f32],
    straight: &mut [f32],
    cand: &mut [f32],
    buf: &mut [f32],
) -> Trace
    requires photo { Photo gray.now w h }
    requires gridded { Gridded gray.now w h levels.now labels.now }
    requires boxed { Boxed w h r }
    requires most_bound { most ≤ 64 }
    requires many_bound { best.scores.many ≤ 64 }
    requires roomy { Roomy (need_of w h) points.old straight.old cand.old buf.old }
    ensures answer { result ≡ first_of best (attempt_of gray.now w h
        (floats_of (region_points (plane w gray.now) w h r)) most) }
    ensures points { Worked (need_of w h) points.old points.new
        straight.old straight.new cand.old cand.new
        buf.old buf.new }
{
    let f = best.fix;
    if is_fixed(f) {
        return best;
    }
    let t = try_one(
        gray, w, h, levels, labels, r, most, points, straight, cand, buf,
    );
    better(best, t)
}

// The trace that stands after try i, from the one that stood before it.
pub fn try_next(
    gray: &[u8],
    w: usize,
    h: usize,
    levels: &[u8],
    labels: &[u32],
    k: Kept,
    most: u8,
    i: usize,
    best: Trace,
    points: &mut [f32],
    straight: &mut [f32],
    cand: &mut [f32],
    buf: &mut [f32],
) -> Trace
    requires photo { Photo gray.now w h }
    requires gridded { Gridded gray.now w h levels.now labels.now }
    requires k_value { k ≡ kept_regions (plane w gray.now) w h }
    requires most_bound { most ≤ 64 }
    requires best_value { best ≡ best_trace (try_of gray.now w h most) i }
    requires roomy { Roomy (need_of w h) points.old straight.old cand.old buf.old }
    ensures answer { result ≡ best_trace (try_of gray.now w h most) (i + 1) }
    ensures points { Worked (need_of w h) points.old points.new
        straight.old straight.new cand.old cand.new
        buf.old buf.new }
{
    let r = region_of(k, i, w, h);
    if i == 0 {
        return try_one(
            gray, w, h, levels, labels, r, most, points, straight, cand, buf,
        );
    }
    try_more(
        gray, w, h, levels, labels, r, most, best, points, straight, cand, buf,
    )
}

// The trace that stands after all tries.
fn try_all(
    gray: &[u8],
    w: usize,
    h: usize,
    levels: &[u8],
    labels: &[u32],
    k: Kept,
    most: u8,
    points: &mut [f32],
    straight: &mut [f32],
    cand: &mut [f32],
    buf: &mut [f32],
) -> Trace
    requires photo { Photo gray.now w h }
    requires gridded { Gridded gray.now w h levels.now labels.now }
    requires k_value { k ≡ kept_regions (plane w gray.now) w h }
    requires most_bound { most ≤ 64 }
    requires roomy { Roomy (need_of w h) points.old straight.old cand.old buf.old }
    ensures answer { result ≡ best_trace (try_of gray.now w h most)
        (tries_of (plane w gray.now) w h) }
    ensures points { Worked (need_of w h) points.old points.new
        straight.old straight.new cand.old cand.new
        buf.old buf.new }
{
    let n = tries_of(k);
    let mut best = ring::attempt::short_trace(0);
    for i in 0..n {
        best = try_next(
            gray, w, h, levels, labels, k, most, i, best, points, straight, cand, buf,
        );
    }
    best
}

// The trace of a picture: the one that stands, its fallback promoted.
pub(crate) fn trace(
    gray: &[u8],
    w: usize,
    h: usize,
    levels: &[u8],
    labels: &[u32],
    k: Kept,
    most: u8,
    points: &mut [f32],
    straight: &mut [f32],
    cand: &mut [f32],
    buf: &mut [f32],
) -> Trace
    requires photo { Photo gray.now w h }
    requires gridded { Gridded gray.now w h levels.now labels.now }
    requires k_value { k ≡ kept_regions (plane w gray.now) w h }
    requires most_bound { most ≤ 64 }
    requires roomy { Roomy (need_of w h) points.old straight.old cand.old buf.old }
    ensures answer { result ≡ trace_of gray.now w h most }
    ensures points { Worked (need_of w h) points.old points.new
        straight.old straight.new cand.old cand.new
        buf.old buf.new }
{
    let t = try_all(
        gray, w, h, levels, labels, k, most, points, straight, cand, buf,
    );
    promoted(t)
}
