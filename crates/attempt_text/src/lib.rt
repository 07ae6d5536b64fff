// An attempt as bytes in, its trace as text out: everything of the program `attempt` but reading
// and writing. The bytes, little-endian: u32 width, height, greatest version, number of pixel
// bytes, number of list numbers; the pixel bytes; the list's f32 numbers, x and y alternating.
//
// The text is `refused N`, or these lines: `hull N`; `quad none` or `quad` and eight f32;
// `scores K`; K lines `score version agreement corner mirrored`; `fix none` or `fix version
// agreement` and eleven f64; `fallback` likewise. Floats are the hex of their bits, a NaN `nan`.
//
// At most 1,048,576 pixel bytes; a cut or longer record is `refused 13`.
#![tactic(auto)]

ghost use Rattle.std.specs.Prelude.{◌≡◌, ◌≤◌, length, replicate};
ghost use Rattle.laws.specs.Lent.{Stored};
ghost use Rattle.word_bytes.specs.Words.{word_at};
ghost use Rattle.ring.specs.Door.{answer_of};
ghost use Rattle.attempt_text.specs.Attempt.{check_attempt};
ghost use Rattle.attempt_text.specs.Traced.{answer_text, text_of, filled};

use word_bytes::word_at;

mod lines;
mod pieces;
mod record;

// A text: its bytes, with zeros after them, and how many there are.
#[derive(Drop)]
pub struct Printed {
    pub bytes: [u8; 4096],
    pub len: usize,
}

// The text of an attempt. Bytes after the record do not matter.
pub fn text(input: &[u8]) -> Printed
    ensures bytes { result.bytes ≡ filled (text_of input.now) }
    ensures len { result.len ≡ length (text_of input.now) }
    ensures most { result.len ≤ 4096 }
{
    let mut bytes = room();
    if let Err(r) = record::check(input) {
        let end = lines::refused(r, &mut bytes);
        return Printed {
            bytes: bytes,
            len: end,
        };
    }
    let end = accepted(input, &mut bytes);
    Printed {
        bytes: bytes,
        len: end,
    }
}

// Room for a text.
fn room() -> [u8; 4096]
    ensures { result ≡ replicate 4096 0 }
{
    [0; 4096]
}

// The text of an accepted record.
fn accepted(input: &[u8], out: &mut [u8]) -> usize
    requires input_value { check_attempt input.now ≡ 0 }
    requires in_bounds { 3360 ≤ length out.old }
    ensures out { Stored 0 (text_of input.now) out.old out.new result }
    ensures most { result ≤ 3360 }
{
    let n = record::pixel_count(input);
    let m = record::number_count(input);
    let end = 20 + n;
    let mut points = word_bytes::list_room();
    record::read(input, end, &mut points[..m]);
    answered(input, &input[20..end], &points[..m], out)
}

// The text of the door's answer to the picture and the points of a record.
fn answered(input: &[u8], gray: &[u8], points: &[f32], out: &mut [u8]) -> usize
    requires { 3360 ≤ length out.old }
    ensures out { Stored 0
        (answer_text (answer_of gray.now (word_at input.now 0)
        (word_at input.now 4) points.now (word_at input.now 8)
        32770 32770 32770))
        out.old out.new result }
    ensures most { result ≤ 3360 }
{
    let mut x = word_bytes::list_room();
    let mut y = word_bytes::list_room();
    let mut z = word_bytes::list_room();
    let w = word_numbers::many(word_at(input, 0));
    let h = word_numbers::many(word_at(input, 4));
    let most = word_at(input, 8);
    let r = ring::door::attempt(gray, w, h, points, most, &mut x, &mut y, &mut z);
    lines::answered(r, out)
}
