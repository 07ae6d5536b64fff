// What the bytes of a header are, and where they lead.
ghost use Rattle.std.specs.Prelude.{◌≡◌, ◌<◌};
ghost use Rattle.pgm.specs.Form.{is_white, is_digit, is_line_end};
ghost use Rattle.pgm.specs.Steps.{after_white, after_digit, next_stage, pushed};

use crate::steps::Stage;

fn is_white(b: u8) -> bool
    ensures { result ≡ is_white b }
{
    if b == b' ' {
        return true;
    }
    if b < 9 {
        return false;
    }
    b <= 13
}

fn is_digit(b: u8) -> bool
    ensures { result ≡ is_digit b }
{
    if b < b'0' {
        return false;
    }
    b <= b'9'
}

pub(crate) fn is_line_end(b: u8) -> bool
    ensures { result ≡ is_line_end b }
{
    if b == 13 {
        return true;
    }
    b == 10
}

// The stage after a byte of white space.
fn after_white(stage: Stage) -> Stage
    ensures { result ≡ after_white stage }
{
    match stage {
        Stage::Letters => Stage::BeforeWidth,
        Stage::BeforeWidth => Stage::BeforeWidth,
        Stage::Width => Stage::BeforeHeight,
        Stage::BeforeHeight => Stage::BeforeHeight,
        Stage::Height => Stage::BeforeMaximum,
        Stage::BeforeMaximum => Stage::BeforeMaximum,
        Stage::Maximum => Stage::Whole,
        Stage::Whole => Stage::Whole,
        Stage::Wrong => Stage::Wrong,
    }
}

// The stage after a digit.
fn after_digit(stage: Stage) -> Stage
    ensures { result ≡ after_digit stage }
{
    match stage {
        Stage::Letters => Stage::Wrong,
        Stage::BeforeWidth => Stage::Width,
        Stage::Width => Stage::Width,
        Stage::BeforeHeight => Stage::Height,
        Stage::Height => Stage::Height,
        Stage::BeforeMaximum => Stage::Maximum,
        Stage::Maximum => Stage::Maximum,
        Stage::Whole => Stage::Whole,
        Stage::Wrong => Stage::Wrong,
    }
}

// The stage after a byte outside comments.
pub(crate) fn next_stage(stage: Stage, b: u8) -> Stage
    ensures { result ≡ next_stage stage b }
{
    if is_white(b) {
        return after_white(stage);
    }
    if is_digit(b) {
        return after_digit(stage);
    }
    Stage::Wrong
}

// The number n with the digit b after it; 9,999 for all numbers above it.
pub(crate) fn push(n: usize, b: u8) -> usize
    ensures { result ≡ pushed n b }
{
    if 999 < n {
        return 9999;
    }
    if b < b'0' {
        return 10 * n;
    }
    (10 * n + wide(b - b'0')).min(9999)
}

fn wide(b: u8) -> usize
    ensures { (result ≡ b) × (result < 256) }
{
    b as usize
}
