// The checks of a header that has been read.
ghost use Rattle.std.specs.Prelude.{◌≡◌};
ghost use Rattle.picture_checks.specs.Picture.{is_side};
ghost use Rattle.refusal.specs.Numbers.{number_in};
ghost use Rattle.pgm.specs.Steps.{is_whole};
ghost use Rattle.pgm.specs.Head.{check_head};

use crate::steps::{Reading, Stage};
use refusal::Refusal;

// The header is whole.
fn whole(stage: Stage) -> bool
    ensures { result ≡ is_whole stage }
{
    match stage {
        Stage::Whole => true,
        _ => false,
    }
}

fn is_side(n: usize) -> bool
    ensures { result ≡ is_side n }
{
    if n < 1 {
        return false;
    }
    n <= 4096
}

// Header for one that is not whole, Maximum for another maximum value than 255, Side for a side
// outside 1..4,096.
pub fn check_head(h: Reading) -> Result<(), Refusal>
    ensures { number_in result ≡ check_head h 0 }
{
    let stage = h.stage;
    if !whole(stage) {
        return Err(Refusal::Header);
    }
    if h.maximum != 255 {
        return Err(Refusal::Maximum);
    }
    if !is_side(h.width) {
        return Err(Refusal::Side);
    }
    if !is_side(h.height) {
        return Err(Refusal::Side);
    }
    Ok(())
}
