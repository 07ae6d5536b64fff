// The finder's checks, in order: 1, 2, 3, 8.
ghost use Rattle.std.specs.Prelude.{◌≡◌};
ghost use Rattle.refusal.specs.Numbers.{number_in};
ghost use Rattle.finder.specs.Find.{has_rooms, check_find};

use refusal::Refusal;
use ring::refusals::is_version;

// How many numbers the lent lists of numbers have.
#[derive(Drop)]
pub struct Rooms {
    pub points: usize,
    pub straight: usize,
    pub cand: usize,
    pub buf: usize,
}

// Whether four lists have room for n numbers each.
fn has_rooms(n: usize, a: usize, b: usize, c: usize, d: usize) -> bool
    ensures { result ≡ has_rooms n a b c d }
{
    n <= a && n <= b && n <= c && n <= d
}

// The first check that fails; levels, labels and stack are the lengths of these lists.
pub(crate) fn check(
    w: usize,
    h: usize,
    bytes: usize,
    levels: usize,
    labels: usize,
    stack: usize,
    l: Rooms,
    most: u32,
) -> Result<(), Refusal>
    ensures { number_in result ≡ check_find w h bytes levels labels stack l.points l.straight
        l.cand l.buf most }
{
    picture::check(w, h, bytes, levels, labels, stack)?;
    if !has_rooms(4 * (w + h), l.points, l.straight, l.cand, l.buf) {
        return Err(Refusal::Lent);
    }
    if !is_version(most) {
        return Err(Refusal::Version);
    }
    Ok(())
}
