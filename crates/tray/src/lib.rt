// What the tray list takes: a PGM file where it begins with the letters P5, else a record.
#![tactic(auto)]

ghost use Rattle.std.specs.Prelude.{◌≡◌};
ghost use Rattle.refusal.specs.Numbers.{number_in, said};
ghost use Rattle.tray.specs.Input.{check_input, input_answer};

use pgm::Image;
use refusal::Refusal;

pub mod claims;
pub mod file;
pub mod record;

// The sides of an input's picture and the place of its pixels. Bytes after the pixels do not matter.
pub fn find(s: &[u8]) -> Result<Image, Refusal>
    ensures { said result ≡ input_answer s.now }
{
    if pgm::has_letters(s) {
        return file::find(s, 160);
    }
    record::find(s)
}

// The check of an input.
pub fn check(s: &[u8]) -> Result<(), Refusal>
    ensures { number_in result ≡ check_input s.now }
{
    find(s)?;
    Ok(())
}
