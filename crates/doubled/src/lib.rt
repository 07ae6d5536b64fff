// Points in doubled coordinates as whole numbers, x and y alternating: each 0 to 8,192, so that hull
// and quad are exact for pictures of up to 4,096 a side. The checks of every door that takes such a
// list, and the way there from the f32 numbers that the outline door lists.
//
// Door: `doubled`. Refusals, in order: 6, an odd list, or over 16,384 points; 3, the lent list has
// fewer numbers than the list of points; 21, a number that is no half of a whole number from 0 to
// 8,192. A refusal changes nothing.
#![tactic(auto)]

ghost use Rattle.std.specs.Prelude.{◌≡◌, ◌≤◌, length};
ghost use Rattle.laws.specs.Lent.{laid};
ghost use Rattle.refusal.specs.Numbers.{number_in};
ghost use Rattle.doubled.specs.Checks.{coordinates_of};
ghost use Rattle.doubled.specs.Doubled.{twice_of, twices, check_doubled, doubled_after};

use picture_checks::is_points;
use refusal::Refusal;

pub mod claims;
pub mod coordinates;
pub mod refusals;

// Twice x as a whole number from 0 to 8,192, or 8,193 where it is none.
fn twice(x: f32) -> u32
    ensures { result ≡ twice_of x }
{
    let d = x * 2.0;
    let k = ieee::to_u32(d);
    if 8192 < k {
        return 8193;
    }
    if k as u16 as f32 == d {
        return k;
    }
    8193
}

// Whether twice each number of a list is a whole number from 0 to 8,192.
fn halves(p: &[f32]) -> bool
    ensures { result ≡ coordinates_of (twices p.now) }
{
    for x in p {
        if 8192 < twice(*x) {
            return false;
        }
    }
    true
}

// The first check that fails; room is the length of the lent list.
fn check(p: &[f32], room: usize) -> Result<(), Refusal>
    ensures { number_in result ≡ check_doubled p.now room }
{
    if !is_points(p.len()) {
        return Err(Refusal::Points);
    }
    if room < p.len() {
        return Err(Refusal::Lent);
    }
    if !halves(p) {
        return Err(Refusal::Doubled);
    }
    Ok(())
}

// Stores twice each number of p in out. The places past them stay as they are.
fn fill(p: &[f32], out: &mut [u32])
    requires { length p.now ≤ length out.old }
    ensures { out.new ≡ laid (twices p.now) out.old }
{
    for (k, x) in p.iter().enumerate() {
        out[k] = twice(*x);
    }
}

// Stores twice each number of the points p in out, as whole numbers from 0 to 8,192. A refusal
// changes nothing.
pub fn doubled(p: &[f32], out: &mut [u32]) -> Result<(), Refusal>
    ensures answer { number_in result ≡ check_doubled p.now (length out.old) }
    ensures out { out.new ≡ doubled_after (number_in result) p.now out.old }
{
    check(p, out.len())?;
    fill(p, out);
    Ok(())
}
