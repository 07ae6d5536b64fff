// The header of a PGM file after the letters P5, byte by byte.
ghost use Rattle.std.specs.Prelude.{◌≡◌, ◌<◌, drop};
ghost use Rattle.pgm.specs.Steps.{begun, is_ended, in_comment, moved_to, one_more, cut_short, stepped, steps_over};

use crate::bytes::{is_line_end, next_stage, push};

// How far the header has been read.
// Kept: a stage is a state of the reading and no step to run: one loop and one table serve all.
#[derive(Clone, Copy)]
pub enum Stage {
    // After the letters: white space has to come.
    Letters,
    // In the white space before the width.
    BeforeWidth,
    // In the digits of the width.
    Width,
    // In the white space before the height.
    BeforeHeight,
    // In the digits of the height.
    Height,
    // In the white space before the maximum value.
    BeforeMaximum,
    // In the digits of the maximum value: one white-space byte ends the header.
    Maximum,
    // The header is whole.
    Whole,
    // The header does not follow the form, or is longer than 4,096 bytes.
    Wrong,
}

// What is known of a header of which some bytes have been read.
#[derive(Clone, Copy)]
pub struct Reading {
    pub stage: Stage,
    // Whether a comment has begun and not ended.
    pub comment: bool,
    // The width, height and maximum value so far; 9,999 for all numbers above it.
    pub width: usize,
    pub height: usize,
    pub maximum: usize,
    // How many bytes have been read, at most 4,096; the place of the pixels once it is whole.
    pub at: usize,
}

// A header of which the letters P5 have been read.
pub fn begin() -> Reading
    ensures { result ≡ begun }
{
    Reading {
        stage: Stage::Letters,
        comment: false,
        width: 0,
        height: 0,
        maximum: 0,
        at: 2,
    }
}

// No byte is needed any more.
pub fn ended(h: Reading) -> bool
    ensures { result ≡ is_ended h.stage }
{
    let stage = h.stage;
    match stage {
        Stage::Whole => true,
        Stage::Wrong => true,
        _ => false,
    }
}

// One byte more, that belongs to a comment.
fn counted(h: Reading, comment: bool) -> Reading
    requires { h.at < 4096 }
    ensures { result ≡ in_comment h comment }
{
    let at = h.at + 1;
    let same = h.stage;
    Reading {
        stage: same,
        comment,
        at,
        ..h
    }
}

// One byte more, outside comments, that leads to a stage.
fn moved(h: Reading, next: Stage, b: u8) -> Reading
    requires { h.at < 4096 }
    ensures { result ≡ moved_to h next b }
{
    let mut r = Reading {
        stage: next,
        comment: false,
        width: h.width,
        height: h.height,
        maximum: h.maximum,
        at: h.at + 1,
    };
    match next {
        Stage::Width => {
            r.width = push(h.width, b);
        }
        Stage::Height => {
            r.height = push(h.height, b);
        }
        Stage::Maximum => {
            r.maximum = push(h.maximum, b);
        }
        _ => {}
    }
    r
}

// One byte more of a header of fewer than 4,096 bytes.
fn more(h: Reading, b: u8) -> Reading
    requires { h.at < 4096 }
    ensures { result ≡ one_more h b }
{
    if h.comment {
        return counted(h, !is_line_end(b));
    }
    if b == b'#' {
        return counted(h, true);
    }
    let stage = h.stage;
    moved(h, next_stage(stage, b), b)
}

// A header that goes no further: too long, or cut short by the end of the input.
fn cut_short(h: Reading) -> Reading
    ensures { result ≡ cut_short h }
{
    Reading {
        stage: Stage::Wrong,
        ..h
    }
}

// The next byte of a header. One that has ended stays as it is.
pub fn step(h: Reading, b: u8) -> Reading
    ensures { result ≡ stepped h b }
{
    if ended(h) {
        return h;
    }
    if 4096 <= h.at {
        return cut_short(h);
    }
    more(h, b)
}

// The header of a file that begins with the letters P5.
pub fn run(s: &[u8]) -> Reading
    ensures { result ≡ steps_over begun (drop 2 s.now) }
{
    let mut h = begin();
    for i in 2..s.len() {
        if ended(h) {
            return h;
        }
        h = step(h, s[i]);
    }
    h
}
