// Marks read back from a picture of a ring.
ghost use Rattle.std.specs.Prelude.{◌≡◌, ◌<◌, ◌≤◌, ◌*◌, length};
ghost use Rattle.lcr_core.specs.Version.{positions_of};
ghost use Rattle.proof_ring.specs.Doors.{least_side};
ghost use Rattle.proof_ring.specs.Reading.{centre, light_read, marks_read};

use crate::cells::outer_spot;
use lcr_core::version::Version;

// The pixel at the centre of a place, two cells from the edge.
fn centre(pitch: usize, k: usize) -> usize
    requires { (pitch ≤ 16) × (k ≤ 4096) }
    ensures { result ≡ centre pitch k }
{
    (k + 2) * pitch + pitch / 2
}

// Whether the centre of a position's outer cell is light.
fn light_at(version: Version, pitch: usize, pixels: &[u8], w: usize, p: usize) -> bool
    requires le_pitch { (1 ≤ pitch) × (pitch ≤ 16) × (w ≤ 4096) }
    requires pitch_bound { least_side version pitch ≤ w }
    requires w_in_bounds { least_side version pitch * w ≤ length pixels.now }
    requires p_bound { p < positions_of version }
    ensures { result ≡ light_read version pitch pixels.now w p }
{
    let s = outer_spot(p, version);
    let x = centre(pitch, s.x);
    let y = centre(pitch, s.y);
    128 <= pixels[y * w + x]
}

// The marks at all positions.
pub(crate) fn read_marks(
    version: Version,
    pitch: usize,
    pixels: &[u8],
    w: usize,
    marks: &mut [bool],
)
    requires le_pitch { (1 ≤ pitch) × (pitch ≤ 16) × (w ≤ 4096) }
    requires pitch_bound { least_side version pitch ≤ w }
    requires w_in_bounds { least_side version pitch * w ≤ length pixels.now }
    requires marks_len { length marks.old ≡ positions_of version }
    ensures { marks.new ≡ marks_read version pitch pixels.now w }
{
    let n = version.positions();
    for p in 0..n {
        marks[p] = light_at(version, pitch, pixels, w, p);
    }
}
