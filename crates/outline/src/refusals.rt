// The checks of the outline door, in the order of its table.
ghost use Rattle.std.specs.Prelude.{◌≡◌, ◌≤◌};
ghost use Rattle.laws.specs.Move.{box_at};
ghost use Rattle.refusal.specs.Numbers.{number_in};
ghost use Rattle.outline.specs.Door.{is_part, grids_fit, check_parts, check_outline};

use picture_checks::check_picture;
use refusal::Refusal;

// Whether a..e is a part of a side of n pixels that is not empty.
fn is_part(a: usize, e: usize, n: usize) -> bool
    ensures { result ≡ is_part a e n }
{
    if e <= a {
        return false;
    }
    e <= n
}

// Whether the lent grids have their cells.
fn grids_fit(w: usize, h: usize, levels: usize, labels: usize) -> bool
    requires { (w ≤ 4096) × (h ≤ 4096) }
    ensures { result ≡ grids_fit w h levels labels }
{
    if levels < (w + 15) / 16 * ((h + 15) / 16) {
        return false;
    }
    (w + 7) / 8 * ((h + 7) / 8) <= labels
}

// The checks of the box and of what is lent, where those of the picture passed.
fn check_parts(
    w: usize,
    h: usize,
    x0: usize,
    y0: usize,
    x1: usize,
    y1: usize,
    levels: usize,
    labels: usize,
    room: usize,
) -> Result<(), Refusal>
    requires { (w ≤ 4096) × (h ≤ 4096) }
    ensures { number_in result ≡ check_parts w h (box_at x0 y0 x1 y1) levels labels room }
{
    if !is_part(x0, x1, w) {
        return Err(Refusal::Box);
    }
    if !is_part(y0, y1, h) {
        return Err(Refusal::Box);
    }
    if !grids_fit(w, h, levels, labels) {
        return Err(Refusal::Lent);
    }
    if room < 4 * (x1 - x0 + (y1 - y0)) {
        return Err(Refusal::Lent);
    }
    Ok(())
}

// The first check that fails refuses the call.
pub fn check(
    w: usize,
    h: usize,
    bytes: usize,
    x0: usize,
    y0: usize,
    x1: usize,
    y1: usize,
    levels: usize,
    labels: usize,
    room: usize,
) -> Result<(), Refusal>
    ensures { number_in result ≡ check_outline w h bytes (box_at x0 y0 x1 y1) levels labels room }
{
    check_picture(w, h, bytes)?;
    check_parts(w, h, x0, y0, x1, y1, levels, labels, room)
}
