// A PGM file whose sides are at most a number: for the tray list 160.
ghost use Rattle.std.specs.Prelude.{true, ◌≡◌, ◌*◌, ◌≤◌};
ghost use Rattle.refusal.specs.Numbers.{number_in, said};
ghost use Rattle.pgm.specs.Form.{has_letters};
ghost use Rattle.pgm.specs.Head.{check_head};
ghost use Rattle.tray.specs.Input.{sides_up_to, file_to, asked_to, SidesUpTo};

use pgm::Image;
use pgm::steps::Reading;
use refusal::Refusal;

// The first check of a header that fails: 14, 15, 1 or 13.
fn check(h: Reading, most: usize) -> Result<(), Refusal>
    ensures answer { number_in result ≡ check_head h (sides_up_to most h.width h.height 0) }
    ensures passed { number_in result ≡ 0 → SidesUpTo most h }
{
    pgm::head::check_head(h)?;
    if most < h.width {
        return Err(Refusal::Record);
    }
    if most < h.height {
        return Err(Refusal::Record);
    }
    Ok(())
}

// How many bytes of pixels a header asks for; 0 where it is refused.
pub fn pixels(h: Reading, most: usize) -> usize
    requires { most ≤ 4096 }
    ensures answer { result ≡ asked_to most h }
    ensures most { result ≤ most * most }
{
    match check(h, most) {
        Ok(()) => h.width * h.height,
        Err(_) => 0,
    }
}

// The picture of a file that begins with the letters.
pub fn find(s: &[u8], most: usize) -> Result<Image, Refusal>
    requires s_value { has_letters s.now ≡ true }
    requires most_bound { most ≤ 4096 }
    ensures { said result ≡ file_to most s.now }
{
    let h = pgm::steps::run(s);
    check(h, most)?;
    pgm::with_pixels(h, s.len())
}
