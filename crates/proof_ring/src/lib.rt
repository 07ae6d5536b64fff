// Proof rings for the label printer's shop: the ring of a version drawn into a lent picture, in
// any of the eight poses, and its marks read back from the cells' centres by whole numbers.
//
// Doors: `draw_ring` and `read_ring`. Refusals, in order: 8, a version outside 1..64; 1, a side
// outside 1..4,096; 2, bytes not width times height; 16, a pitch outside 1..16, a corner outside
// 0..3 or a side below (version side + 10) times the pitch; at the reading then 11, marks not as
// many as positions. No door has a `requires`.
#![tactic(auto)]

ghost use Rattle.std.specs.Prelude.{◌≡◌};
ghost use Rattle.picture_checks.specs.Picture.{check_picture, Sides};
ghost use Rattle.proof_ring.specs.Doors.{check_plan, Planned, draw_answer, pixels_after, read_answer, marks_after};
ghost use Rattle.refusal.specs.Numbers.{number_in, said};

use crate::paint::{Plan, draw};
use crate::read::read_marks;
use lcr_core::version::Version;
use picture_checks::check_picture;
use refusal::Refusal;

pub mod cells;
pub mod claims;
pub mod paint;
pub mod read;

// The checks of pitch, corner and sides: 16 where one fails.
fn check_plan(version: Version, pitch: u32, corner: u32, w: usize, h: usize) -> Result<(), Refusal>
    ensures answer { number_in result ≡ check_plan version pitch corner w h 0 }
    ensures passed { number_in result ≡ 0 → Planned version pitch corner w h }
{
    if pitch < 1 {
        return Err(Refusal::Plate);
    }
    if 16 < pitch {
        return Err(Refusal::Plate);
    }
    if 3 < corner {
        return Err(Refusal::Plate);
    }
    let least = (version.side() as usize + 10) * pitch as usize;
    if w < least {
        return Err(Refusal::Plate);
    }
    if h < least {
        return Err(Refusal::Plate);
    }
    Ok(())
}

// The checks of a picture, then those of pitch, corner and sides.
fn check(
    version: Version,
    pitch: u32,
    corner: u32,
    w: usize,
    h: usize,
    bytes: usize,
) -> Result<(), Refusal>
    ensures answer { number_in result
        ≡ check_picture w h bytes (check_plan version pitch corner w h 0) }
    ensures passed { number_in result ≡ 0 → Sides w h bytes × Planned version pitch corner w h }
{
    check_picture(w, h, bytes)?;
    check_plan(version, pitch, corner, w, h)
}

// Draws the ring of a version into a picture of w by h pixels, at a pitch of 1 to 16 pixels a
// cell, at corner 0 to 3, forwards or reversed. A refusal leaves the picture.
pub fn draw_ring(
    version: u32,
    pitch: u32,
    corner: u32,
    reversed: bool,
    pixels: &mut [u8],
    w: usize,
    h: usize,
) -> Result<(), Refusal>
    ensures answer { said result ≡ draw_answer version pitch corner pixels.old w h }
    ensures pixels { pixels.new
        ≡ pixels_after (said result) version pitch corner reversed pixels.old w h }
{
    let v = Version::new(version)?;
    check(v, pitch, corner, w, h, pixels.len())?;
    draw(
        pixels,
        &Plan {
            version: v,
            pitch: pitch as usize,
            corner: corner as usize,
            reversed,
            width: w,
        },
    );
    Ok(())
}

// Reads the marks of a version's ring at a pitch, at corner 0, forwards, from the centres of its
// outer cells: light where the grey is 128 or more. A refusal leaves the marks.
pub fn read_ring(
    version: u32,
    pitch: u32,
    pixels: &[u8],
    w: usize,
    h: usize,
    marks: &mut [bool],
) -> Result<(), Refusal>
    ensures answer { said result ≡ read_answer version pitch pixels.now w h marks.old }
    ensures marks { marks.new
        ≡ marks_after (said result) version pitch pixels.now w marks.old }
{
    let v = Version::new(version)?;
    check(v, pitch, 0, w, h, pixels.len())?;
    if marks.len() != v.positions() {
        return Err(Refusal::Marks);
    }
    read_marks(v, pitch as usize, pixels, w, marks);
    Ok(())
}
