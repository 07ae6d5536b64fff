// Pictures as binary PGM files (Netpbm's P5, maximum value 255): a reader and a writer. `steps`
// reads a header byte by byte, for who may not read past the pixels.
#![tactic(auto)]

ghost use Rattle.std.specs.Prelude.{◌≡◌, length};
ghost use Rattle.refusal.specs.Numbers.{said, answered};
ghost use Rattle.pgm.specs.Form.{has_letters};
ghost use Rattle.pgm.specs.Head.{Passed, pixels_answer};
ghost use Rattle.pgm.specs.Doors.{file_answer, file_text, check_write, file_after};

use crate::head::check_head;
use crate::steps::Reading;
use refusal::Refusal;

mod bytes;
pub mod claims;
pub mod head;
mod put;
pub mod steps;

// The picture that bytes hold.
#[derive(Clone, Copy)]
pub struct Image {
    pub width: usize,
    pub height: usize,
    // The place of the first pixel; width × height bytes from there are the pixels.
    pub at: usize,
}

// The bytes begin with the letters P5.
pub fn has_letters(s: &[u8]) -> bool
    ensures { result ≡ has_letters s.now }
{
    if s.len() < 2 {
        return false;
    }
    if s[0] != b'P' {
        return false;
    }
    s[1] == b'5'
}

// The picture of a file of n bytes whose header has passed; Bytes for too few pixel bytes.
pub fn with_pixels(h: Reading, n: usize) -> Result<Image, Refusal>
    requires { Passed h }
    ensures { said result ≡ pixels_answer h n }
{
    if n < h.at + h.width * h.height {
        return Err(Refusal::Bytes);
    }
    Ok(Image {
        width: h.width,
        height: h.height,
        at: h.at,
    })
}

// The reader: the picture of a file. Refusals in order: 14, 15, 1, 2. Bytes after the pixels do not
// matter.
pub fn read(s: &[u8]) -> Result<Image, Refusal>
    ensures { said result ≡ file_answer s.now }
{
    if !has_letters(s) {
        return Err(Refusal::Header);
    }
    let h = steps::run(s);
    check_head(h)?;
    with_pixels(h, s.len())
}

// The writer: the file of a picture into the first places of out, the rest untouched; tells how many
// bytes the file has. Refusals in order: 1, 2, 3; then nothing is touched.
pub fn write(pixels: &[u8], w: usize, h: usize, out: &mut [u8]) -> Result<usize, Refusal>
    ensures answer { said result ≡ answered (check_write w h pixels.now (length out.old))
        (length (file_text w h pixels.now)) }
    ensures out { out.new ≡ file_after
        (check_write w h pixels.now (length out.old))
        (file_text w h pixels.now) out.old }
{
    put::check(pixels, w, h, out.len())?;
    Ok(put::put_file(out, pixels, w, h))
}
