// The listing of a picture, region by region. Working lists are local: 100 level cells and 400
// region cells for sides up to 160, and at most 640 points.
ghost use Rattle.std.specs.Prelude.{◌≡◌, ◌+◌, ◌≤◌, length};
ghost use Rattle.laws.specs.Plane.{plane};
ghost use Rattle.regions.specs.Regions.{kept_regions};
ghost use Rattle.region_outline.specs.Region.{Gridded};
ghost use Rattle.traylist_text.specs.Listing.{region_lines, first_lines, picture_text};
ghost use Rattle.laws.specs.Lent.{Stored};
ghost use Rattle.traylist_text.specs.Inner.{OutlinePoints, lines_by, TrayPicture, TrayRegion};

use crate::lines::{line, quad_line};
use regions::answer::{Kept, Region};

// The lines of an outline whose points are p: how many points and vertices, and the quad.
fn outline_lines(p: &[f32], out: &mut [u8], at: usize) -> usize
    requires outline_points { OutlinePoints p.now }
    requires at_in_bounds { at + 73 ≤ length out.old }
    ensures { Stored at (lines_by p.now) out.old out.new result }
{
    let mut vertices = [0f32; 1280];
    let n = p.len() / 2;
    let m = hull::walk::convex_hull(p, &mut vertices);
    let next = line(out, at, b"outline", &[n as u32, m as u32]);
    quad_line(&vertices[..2 * m], out, next)
}

// The lines of one region.
fn region_lines(
    s: &[u8],
    w: usize,
    h: usize,
    levels: &[u8],
    labels: &[u32],
    r: Region,
    out: &mut [u8],
    at: usize,
) -> usize
    requires tray_picture { TrayPicture s.now w h }
    requires gridded { Gridded s.now w h levels.now labels.now }
    requires tray_region { TrayRegion w h r }
    requires at_in_bounds { at + 116 ≤ length out.old }
    ensures { Stored at (region_lines (plane w s.now) w h r) out.old
        out.new result }
{
    let mut list = [0f32; 1280];
    let next = line(
        out,
        at,
        b"region",
        &[r.label, r.cells, r.x0, r.y0, r.x1, r.y1],
    );
    let n = region_outline::region_points(s, w, h, levels, labels, r, &mut list);
    outline_lines(&list[..2 * n], out, next)
}

// The lines of the kept regions.
fn all_regions(
    s: &[u8],
    w: usize,
    h: usize,
    levels: &[u8],
    labels: &[u32],
    k: Kept,
    out: &mut [u8],
    at: usize,
) -> usize
    requires tray_picture { TrayPicture s.now w h }
    requires gridded { Gridded s.now w h levels.now labels.now }
    requires k_value { k ≡ kept_regions (plane w s.now) w h }
    requires at_in_bounds { at + 464 ≤ length out.old }
    ensures { Stored at (first_lines (plane w s.now) w h k.kept) out.old
        out.new result }
{
    let list = k.list;
    let mut to = at;
    for i in 0..k.kept {
        let r = list[i];
        to = region_lines(s, w, h, levels, labels, r, out, to);
    }
    to
}

// The listing of a picture.
pub(crate) fn picture_text(s: &[u8], w: usize, h: usize, out: &mut [u8]) -> usize
    requires tray_picture { TrayPicture s.now w h }
    requires in_bounds { 484 ≤ length out.old }
    ensures { Stored 0 (picture_text (plane w s.now) w h) out.old
        out.new result }
{
    let mut levels = [0u8; 100];
    let mut labels = [0u32; 400];
    let mut stack = [0u32; 400];
    let found = picture::picture(s, w, h, &mut levels, &mut labels, &mut stack);
    let k = found.unwrap();
    let next = line(out, 0, b"regions", &[k.all as u32, k.kept as u32]);
    all_regions(s, w, h, &levels, &labels, k, out, next)
}
