// The checks of a picture, and of a list of points, that every door that takes one makes first.
#![tactic(auto)]

ghost use Rattle.std.specs.Prelude.{◌≡◌};
ghost use Rattle.refusal.specs.Numbers.{number_in};
ghost use Rattle.picture_checks.specs.Picture.{is_side, check_picture, Sides};
ghost use Rattle.picture_checks.specs.Points.{is_points};

use refusal::Refusal;

// Whether a picture may have a side of so many pixels.
fn is_side(n: usize) -> bool
    ensures { result ≡ is_side n }
{
    (1..=4096).contains(&n)
}

// The first check of a picture's sides and bytes that fails refuses it.
pub fn check_picture(w: usize, h: usize, bytes: usize) -> Result<(), Refusal>
    ensures answer { number_in result ≡ check_picture w h bytes 0 }
    ensures passed { number_in result ≡ 0 → Sides w h bytes }
{
    if !is_side(w) || !is_side(h) {
        return Err(Refusal::Side);
    }
    if bytes != w * h {
        return Err(Refusal::Bytes);
    }
    Ok(())
}

// Whether so many numbers are points: two each, and at most 16,384 of them.
pub fn is_points(n: usize) -> bool
    ensures { result ≡ is_points n }
{
    n % 2 == 0 && n <= 32768
}
