// What the reader and the writer of PGM files answer.
ghost use Rattle.std.specs.Prelude.{◌≡◌};
ghost use Rattle.laws.specs.Said.{left_of, result_of};
ghost use Rattle.refusal.specs.Numbers.{said};
ghost use Rattle.c_pictures.specs.Files.{width_after, height_after, at_after};

use pgm::Image;
use refusal::Refusal;

// The sides of a file's picture, and the place of its pixels.
pub fn put_picture(
    answer: Result<Image, Refusal>,
    width: &mut usize,
    height: &mut usize,
    at: &mut usize,
) -> u32
    ensures answer { result ≡ result_of (said answer) }
    ensures width { width.new ≡ width_after (said answer) width.old }
    ensures height { height.new ≡ height_after (said answer) height.old }
    ensures at { at.new ≡ at_after (said answer) at.old }
{
    match answer {
        Ok(found) => {
            *width = found.width;
            *height = found.height;
            *at = found.at;
            0
        }
        Err(r) => r.number(),
    }
}

// How many bytes a written file has.
pub fn put_bytes(answer: Result<usize, Refusal>, len: &mut usize) -> u32
    ensures answer { result ≡ result_of (said answer) }
    ensures len { len.new ≡ left_of (said answer) len.old }
{
    c_answers::put(answer, len)
}
