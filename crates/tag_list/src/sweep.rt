// Every kept region of a picture tried: the trace that stands, and the tags of their own fixes.
ghost use Rattle.std.specs.Prelude.{◌≡◌, ◌+◌, ◌<◌, ◌≤◌};
ghost use Rattle.laws.specs.Plane.{plane};
ghost use Rattle.regions.specs.Regions.{kept_regions};
ghost use Rattle.search.specs.Samples.{Photo};
ghost use Rattle.ring.specs.Trace.{first_of};
ghost use Rattle.region_outline.specs.Region.{need_of, Gridded};
ghost use Rattle.finder.specs.Inner.{Roomy, Worked};
ghost use Rattle.tag_list.specs.Inner.{standing_of, After};

use crate::tag::{Tags, no_tags, with_fix};
use finder::outlines::{region_of, try_one};
use regions::answer::Kept;
use ring::quads::{Trace, better, is_fixed};

// What the tries so far have given.
#[derive(Drop)]
pub struct Swept {
    // the trace that stands, as in the finder
    pub best: Trace,
    // the tags of the tries' own fixes
    pub tags: Tags,
}

// The first trace where it has a fix, else the better of both.
fn first(t: Trace, u: Trace) -> Trace
    requires many_bound { t.scores.many ≤ 64 }
    requires many_bound_2 { u.scores.many ≤ 64 }
    ensures { result ≡ first_of t u }
{
    let f = t.fix;
    if is_fixed(f) {
        return t;
    }
    better(t, u)
}

// The trace that stands after try i, whose trace is t.
fn standing(best: Trace, t: Trace, i: usize) -> Trace
    requires many_bound { best.scores.many ≤ 64 }
    requires many_bound_2 { t.scores.many ≤ 64 }
    ensures { result ≡ standing_of best t i }
{
    if i == 0 {
        return t;
    }
    first(best, t)
}

// One region more.
fn sweep_next(
    gray: &[u8],
    w: usize,
    h: usize,
    levels: &[u8],
    labels: &[u32],
    k: Kept,
    most: u8,
    i: usize,
    s: Swept,
    points: &mut [f32],
    straight: &mut [f32],
    cand: &mut [f32],
    buf: &mut [f32],
) -> Swept
    requires photo { Photo gray.now w h }
    requires gridded { Gridded gray.now w h levels.now labels.now }
    requires k_value { k ≡ kept_regions (plane w gray.now) w h }
    requires most_bound { most ≤ 64 }
    requires i_bound { i < 4 }
    requires after { After gray.now w h most i s }
    requires roomy { Roomy (need_of w h) points.old straight.old cand.old buf.old }
    ensures answer { After gray.now w h most (i + 1) result }
    ensures points { Worked (need_of w h) points.old points.new
        straight.old straight.new cand.old cand.new
        buf.old buf.new }
{
    let r = region_of(k, i, w, h);
    let t = try_one(
        gray, w, h, levels, labels, r, most, points, straight, cand, buf,
    );
    let best = s.best;
    let tags = s.tags;
    let fix = t.fix;
    Swept {
        best: standing(best, t, i),
        tags: with_fix(tags, fix),
    }
}

// All kept regions.
pub(crate) fn sweep(
    gray: &[u8],
    w: usize,
    h: usize,
    levels: &[u8],
    labels: &[u32],
    k: Kept,
    most: u8,
    points: &mut [f32],
    straight: &mut [f32],
    cand: &mut [f32],
    buf: &mut [f32],
) -> Swept
    requires photo { Photo gray.now w h }
    requires gridded { Gridded gray.now w h levels.now labels.now }
    requires k_value { k ≡ kept_regions (plane w gray.now) w h }
    requires most_bound { most ≤ 64 }
    requires roomy { Roomy (need_of w h) points.old straight.old cand.old buf.old }
    ensures answer { After gray.now w h most k.kept result }
    ensures points { Worked (need_of w h) points.old points.new
        straight.old straight.new cand.old cand.new
        buf.old buf.new }
{
    let n = k.kept;
    let mut s = Swept {
        best: ring::attempt::short_trace(0),
        tags: no_tags(),
    };
    for i in 0..n {
        s = sweep_next(
            gray, w, h, levels, labels, k, most, i, s, points, straight, cand, buf,
        );
    }
    s
}
