// The checks of a list of points in whole numbers, in order: 6, 3, 21.
ghost use Rattle.std.specs.Prelude.{◌≡◌, ◌<◌, ◌≤◌, length};
ghost use Rattle.refusal.specs.Numbers.{number_in};
ghost use Rattle.doubled.specs.Checks.{coordinates_of, check_hull, check_quad};

use picture_checks::is_points;
use refusal::Refusal;

// 1 for a number past 8,192, else 0.
fn beyond(n: u32) -> u32
    ensures { (result ≡ 0 → n ≤ 8192) × (0 < result → 8192 < n) × (result ≤ 1) }
{
    if 8192 < n {
        return 1;
    }
    0
}

// Whether every number of a list is 0 to 8,192. All are looked at, which is faster than to stop at
// the first that is not.
fn coordinates(p: &[u32]) -> bool
    requires { length p.now ≤ 32768 }
    ensures { result ≡ coordinates_of p.now }
{
    let mut past = 0u32;
    for n in p {
        past += beyond(*n);
    }
    if past == 0 {
        return true;
    }
    false
}

// The first check that fails; room is the length of the lent list.
pub fn check_hull(p: &[u32], room: usize) -> Result<(), Refusal>
    ensures { number_in result ≡ check_hull p.now room }
{
    if !is_points(p.len()) {
        return Err(Refusal::Points);
    }
    if room < p.len() {
        return Err(Refusal::Lent);
    }
    if !coordinates(p) {
        return Err(Refusal::Doubled);
    }
    Ok(())
}

// The same where no list is lent.
pub fn check_quad(p: &[u32]) -> Result<(), Refusal>
    ensures { number_in result ≡ check_quad p.now }
{
    if !is_points(p.len()) {
        return Err(Refusal::Points);
    }
    if !coordinates(p) {
        return Err(Refusal::Doubled);
    }
    Ok(())
}
