// The record: four-byte length of the rest, two-byte kind 1, two-byte width and height, pixels.
ghost use Rattle.std.specs.Prelude.{◌≡◌, ◌+◌, ◌*◌, ◌<◌, ◌≤◌, length};
ghost use Rattle.refusal.specs.Numbers.{number_in, said};
ghost use Rattle.pgm.specs.Doors.{found};
ghost use Rattle.tray.specs.Record.{pair_at, four_at, width_of, height_of, is_tray_side, check_record, asked};

use pgm::Image;
use refusal::Refusal;

fn byte(b: u8) -> usize
    ensures { (result ≡ b) × (result < 256) }
{
    b as usize
}

// The number of two bytes, the lower first.
fn pair_at(s: &[u8], i: usize) -> usize
    requires { i + 2 ≤ length s.now }
    ensures { (result ≡ pair_at s.now i) × (result < 65536) }
{
    byte(s[i]) + 256 * byte(s[i + 1])
}

// The number of four bytes, the lowest first.
fn four_at(s: &[u8], i: usize) -> usize
    requires { i + 4 ≤ length s.now }
    ensures { result ≡ four_at s.now i }
{
    pair_at(s, i) + 65536 * pair_at(s, i + 2)
}

fn is_side(n: usize) -> bool
    ensures { result ≡ is_tray_side n }
{
    if n < 1 {
        return false;
    }
    n <= 160
}

// How many bytes of pixels a head asks for; 0 where it is refused.
pub fn pixels(head: &[u8]) -> usize
    ensures answer { result ≡ asked head.now }
    ensures most { result ≤ 25600 }
{
    if head.len() < 10 {
        return 0;
    }
    if pair_at(head, 4) != 1 {
        return 0;
    }
    let w = pair_at(head, 6);
    let h = pair_at(head, 8);
    if !is_side(w) {
        return 0;
    }
    if !is_side(h) {
        return 0;
    }
    if four_at(head, 0) != 6 + w * h {
        return 0;
    }
    w * h
}

// The check of a record: Record where it is no picture of the tray list.
fn check(s: &[u8]) -> Result<(), Refusal>
    ensures { number_in result ≡ check_record s.now }
{
    let n = pixels(s);
    if n == 0 {
        return Err(Refusal::Record);
    }
    if s.len() < 10 + n {
        return Err(Refusal::Record);
    }
    Ok(())
}

// The picture of a record.
pub(crate) fn find(s: &[u8]) -> Result<Image, Refusal>
    ensures { said result ≡ found (check_record s.now) (width_of s.now)
        (height_of s.now) 10 }
{
    check(s)?;
    Ok(Image {
        width: pair_at(s, 6),
        height: pair_at(s, 8),
        at: 10,
    })
}
