// The ring door's checks, in order: 1, 2, 6, 3, 7, 8.
ghost use Rattle.std.specs.Prelude.{◌≡◌};
ghost use Rattle.refusal.specs.Numbers.{number_in};
ghost use Rattle.lcr_core.specs.Version.{is_version};
ghost use Rattle.ring.specs.Checks.{has_room, coordinate_of, coordinates_of};
ghost use Rattle.ring.specs.Checks.{check_points, check_ring};

use lcr_core::version::Version;
use picture_checks::{check_picture, is_points};
use refusal::Refusal;

// Whether three working lists have room for n numbers each.
fn has_room(n: usize, a: usize, b: usize, c: usize) -> bool
    ensures { result ≡ has_room n a b c }
{
    if a < n {
        return false;
    }
    if b < n {
        return false;
    }
    n <= c
}

// Whether a coordinate is finite and within ±32,768.
fn coordinate(v: f32) -> bool
    ensures { result ≡ coordinate_of v }
{
    if ieee::is_finite(v) {
        return ieee::abs32(v) <= 32768.0;
    }
    false
}

// Whether every number of a list is such a coordinate.
fn coordinates(s: &[f32]) -> bool
    ensures { result ≡ coordinates_of s.now }
{
    s.iter().all(|v| coordinate(*v))
}

// Whether a number is one of a version.
pub fn is_version(v: u32) -> bool
    ensures { result ≡ is_version v }
{
    Version::new(v).is_ok()
}

// The checks of the points, of the lengths a, b and c of the working lists, and of the version.
fn check_points(s: &[f32], a: usize, b: usize, c: usize, most: u32) -> Result<(), Refusal>
    ensures { number_in result ≡ check_points s.now a b c most }
{
    if !is_points(s.len()) {
        return Err(Refusal::Points);
    }
    if !has_room(s.len(), a, b, c) {
        return Err(Refusal::Lent);
    }
    if !coordinates(s) {
        return Err(Refusal::Coordinate);
    }
    if !is_version(most) {
        return Err(Refusal::Version);
    }
    Ok(())
}

// The first check that fails refuses; a, b and c are the lengths of the working lists.
pub(crate) fn check(
    w: usize,
    h: usize,
    bytes: usize,
    s: &[f32],
    a: usize,
    b: usize,
    c: usize,
    most: u32,
) -> Result<(), Refusal>
    ensures { number_in result ≡ check_ring w h bytes s.now a b c most }
{
    check_picture(w, h, bytes)?;
    check_points(s, a, b, c, most)
}
