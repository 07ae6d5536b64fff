// The tags of a picture: those of the kept regions' own fixes, or what the finder finds.
ghost use Rattle.std.specs.Prelude.{◌≡◌, ◌≤◌};
ghost use Rattle.laws.specs.Plane.{plane};
ghost use Rattle.regions.specs.Regions.{kept_regions};
ghost use Rattle.search.specs.Samples.{Photo};
ghost use Rattle.region_outline.specs.Region.{need_of, Gridded};
ghost use Rattle.finder.specs.Find.{tries_of, try_of, best_trace, trace_of};
ghost use Rattle.finder.specs.Inner.{Roomy, Worked};
ghost use Rattle.tag_list.specs.Tags.{fix_tags, four_tags, tags_of};

use crate::sweep::sweep;
use crate::tag::{Tags, no_tags, with_fix};
use finder::best::promoted;
use finder::tries::try_next;
use regions::answer::Kept;
use ring::quads::Trace;

// The trace that stands after all tries, from the one after the kept regions: all ink together is
// tried where there is more than one region.
fn after_all_ink(
    gray: &[u8],
    w: usize,
    h: usize,
    levels: &[u8],
    labels: &[u32],
    k: Kept,
    most: u8,
    best: Trace,
    points: &mut [f32],
    straight: &mut [f32],
    cand: &mut [f32],
    buf: &mut [f32],
) -> Trace
    requires photo { Photo gray.now w h }
    requires gridded { Gridded gray.now w h levels.now labels.now }
    requires k_value { k ≡ kept_regions (plane w gray.now) w h }
    requires most_bound { most ≤ 64 }
    requires best_value { best ≡ best_trace (try_of gray.now w h most) k.kept }
    requires roomy { Roomy (need_of w h) points.old straight.old cand.old buf.old }
    ensures answer { result ≡ best_trace (try_of gray.now w h most)
        (tries_of (plane w gray.now) w h) }
    ensures points { Worked (need_of w h) points.old points.new
        straight.old straight.new cand.old cand.new
        buf.old buf.new }
{
    if 1 < k.all {
        let n = k.kept;
        return try_next(
            gray, w, h, levels, labels, k, most, n, best, points, straight, cand, buf,
        );
    }
    best
}

// The tag of the finder's fix, from the trace that stands after the kept regions.
fn found_tag(
    gray: &[u8],
    w: usize,
    h: usize,
    levels: &[u8],
    labels: &[u32],
    k: Kept,
    most: u8,
    best: Trace,
    points: &mut [f32],
    straight: &mut [f32],
    cand: &mut [f32],
    buf: &mut [f32],
) -> Tags
    requires photo { Photo gray.now w h }
    requires gridded { Gridded gray.now w h levels.now labels.now }
    requires k_value { k ≡ kept_regions (plane w gray.now) w h }
    requires most_bound { most ≤ 64 }
    requires best_value { best ≡ best_trace (try_of gray.now w h most) k.kept }
    requires roomy { Roomy (need_of w h) points.old straight.old cand.old buf.old }
    ensures answer { result ≡ four_tags (fix_tags (trace_of gray.now w h most).fix) }
    ensures points { Worked (need_of w h) points.old points.new
        straight.old straight.new cand.old cand.new
        buf.old buf.new }
{
    let all = after_all_ink(
        gray, w, h, levels, labels, k, most, best, points, straight, cand, buf,
    );
    let t = promoted(all);
    let fix = t.fix;
    with_fix(no_tags(), fix)
}

// The tags of a picture.
pub(crate) fn all_tags(
    gray: &[u8],
    w: usize,
    h: usize,
    levels: &[u8],
    labels: &[u32],
    k: Kept,
    most: u8,
    points: &mut [f32],
    straight: &mut [f32],
    cand: &mut [f32],
    buf: &mut [f32],
) -> Tags
    requires photo { Photo gray.now w h }
    requires gridded { Gridded gray.now w h levels.now labels.now }
    requires k_value { k ≡ kept_regions (plane w gray.now) w h }
    requires most_bound { most ≤ 64 }
    requires roomy { Roomy (need_of w h) points.old straight.old cand.old buf.old }
    ensures answer { result ≡ four_tags (tags_of gray.now w h most) }
    ensures points { Worked (need_of w h) points.old points.new
        straight.old straight.new cand.old cand.new
        buf.old buf.new }
{
    let s = sweep(
        gray, w, h, levels, labels, k, most, points, straight, cand, buf,
    );
    let own = s.tags;
    if 0 < own.many {
        return own;
    }
    let best = s.best;
    found_tag(
        gray, w, h, levels, labels, k, most, best, points, straight, cand, buf,
    )
}
