// The outline of a region of a picture by the outline door, which refuses none of them.
#![tactic(auto)]

ghost use Rattle.std.specs.Prelude.{◌≡◌, ◌*◌, ◌≤◌, length, take};
ghost use Rattle.laws.specs.Lent.{UntouchedPast};
ghost use Rattle.laws.specs.Plane.{plane};
ghost use Rattle.picture_checks.specs.Picture.{Sides};
ghost use Rattle.hull.specs.Points.{floats_of};
ghost use Rattle.region_outline.specs.Region.{region_points, need_of, Gridded, Boxed};

use regions::answer::Region;

// The points of a region, as the first numbers of the list; how many there are.
pub fn region_points(
    s: &[u8],
    w: usize,
    h: usize,
    levels: &[u8],
    labels: &[u32],
    r: Region,
    list: &mut [f32],
) -> usize
    requires sides { Sides w h (length s.now) }
    requires gridded { Gridded s.now w h levels.now labels.now }
    requires boxed { Boxed w h r }
    requires h_in_bounds { need_of w h ≤ length list.old }
    ensures bounds { 2 * result ≤ need_of w h }
    ensures list { take (2 * result) list.new
        ≡ floats_of (region_points (plane w s.now) w h r) }
    ensures list_past { UntouchedPast (need_of w h) list.old list.new }
{
    let x0 = r.x0 as usize;
    let y0 = r.y0 as usize;
    let x1 = r.x1 as usize;
    let y1 = r.y1 as usize;
    outline::outline(s, levels, labels, r.label, w, h, x0, y0, x1, y1, list).unwrap()
}
