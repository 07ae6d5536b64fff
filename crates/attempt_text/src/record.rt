// The record: five words, the picture's bytes, the words of the list of points.
ghost use Rattle.std.specs.Prelude.{◌≡◌, ◌<◌, ◌≤◌, length};
ghost use Rattle.refusal.specs.Numbers.{number_in};
ghost use Rattle.attempt_text.specs.Attempt.{pixel_count, number_count, check_attempt, floats_at};

use refusal::Refusal;
use word_bytes::word_at;
use word_numbers::floats;

// How many bytes of the picture a record says.
pub(crate) fn pixel_count(s: &[u8]) -> usize
    ensures { (result ≡ pixel_count s.now) × (result < 4294967296) }
{
    word_numbers::many(word_at(s, 12))
}

// How many numbers of the list are read.
pub(crate) fn number_count(s: &[u8]) -> usize
    ensures { (result ≡ number_count s.now) × (result ≤ 32770) }
{
    word_numbers::many(word_at(s, 16)).min(32770)
}

// Whether no part of the record is missing or too long.
pub(crate) fn check(s: &[u8]) -> Result<(), Refusal>
    ensures { number_in result ≡ check_attempt s.now }
{
    if s.len() < 20 {
        return Err(Refusal::Record);
    }
    let n = pixel_count(s);
    if 1048576 < n {
        return Err(Refusal::Record);
    }
    if s.len() < 20 + n {
        return Err(Refusal::Record);
    }
    let m = number_count(s);
    if s.len() < 20 + n + 4 * m {
        return Err(Refusal::Record);
    }
    Ok(())
}

// The numbers whose words begin at a place, as many as the list has.
pub(crate) fn read(s: &[u8], from: usize, list: &mut [f32])
    requires { (from ≤ 1048596) × (length list.old ≤ 32770) }
    ensures { list.new ≡ floats_at s.now from (length list.old) }
{
    for k in 0..list.len() {
        list[k] = floats::f32_of(word_at(s, from + 4 * k));
    }
}
