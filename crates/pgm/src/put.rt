// The file of a picture, written into a lent list.
ghost use Rattle.std.specs.Prelude.{◌≡◌, ◌<◌, ◌≤◌, length};
ghost use Rattle.laws.specs.Lent.{Stored};
ghost use Rattle.refusal.specs.Numbers.{number_in};
ghost use Rattle.text.specs.Text.{decimal};
ghost use Rattle.pgm.specs.Doors.{header_text, file_text, check_write};

use refusal::Refusal;
use text::{put_byte, put_number, put_word};

// How many digits a number below 10,000 has.
fn digits(n: usize) -> usize
    requires { n < 10000 }
    ensures answer { result ≡ length (decimal n) }
    ensures most { result ≤ 4 }
{
    if n < 10 {
        return 1;
    }
    if n < 100 {
        return 2;
    }
    if n < 1000 {
        return 3;
    }
    4
}

// How many bytes the header of a picture has.
fn header_len(w: usize, h: usize) -> usize
    requires { (w ≤ 4096) × (h ≤ 4096) }
    ensures answer { result ≡ length (header_text w h) }
    ensures most { result ≤ 17 }
{
    9 + digits(w) + digits(h)
}

// The first check that fails: 1, 2 and 3, in that order.
pub(crate) fn check(pixels: &[u8], w: usize, h: usize, room: usize) -> Result<(), Refusal>
    ensures { number_in result ≡ check_write w h pixels.now room }
{
    let bytes = pixels.len();
    picture_checks::check_picture(w, h, bytes)?;
    if room < header_len(w, h) + bytes {
        return Err(Refusal::Lent);
    }
    Ok(())
}

// The header of a picture.
fn put_header(out: &mut [u8], w: usize, h: usize) -> usize
    requires { length (header_text w h) ≤ length out.old }
    ensures { Stored 0 (header_text w h) out.old out.new result }
{
    let a = put_word(out, 0, b"P5\n");
    let b = put_number(out, a, w);
    let c = put_byte(out, b, b'\n');
    let d = put_number(out, c, h);
    put_word(out, d, b"\n255\n")
}

// The file of a picture.
pub(crate) fn put_file(out: &mut [u8], pixels: &[u8], w: usize, h: usize) -> usize
    requires { length (file_text w h pixels.now) ≤ length out.old }
    ensures { Stored 0 (file_text w h pixels.now) out.old out.new result }
{
    let at = put_header(out, w, h);
    put_word(out, at, pixels)
}
