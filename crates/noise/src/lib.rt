// How often noise makes an outline: of all rows of up to 60 pixels, how many have no outline point,
// and how many have an outline between two places. Both entries refuse by the first check that
// fails: 17, a shortest run outside 2..8; 22, more than 60 pixels, or a place that is not below
// their number.
#![tactic(auto)]

ghost use Rattle.std.specs.Prelude.{◌≡◌};
ghost use Rattle.refusal.specs.Numbers.{said};
ghost use Rattle.noise.specs.Door.{without_answer, with_answer};

use refusal::Refusal;

pub mod claims;
mod parts;

// How many rows of `length` pixels, at most 2^60, have no outline point, where `run` is the shortest
// run that counts.
pub fn rows_without(run: u32, length: u32) -> Result<u64, Refusal>
    ensures { said result ≡ without_answer run length }
{
    if run < 2 {
        return Err(Refusal::Run);
    }
    if 8 < run {
        return Err(Refusal::Run);
    }
    if 60 < length {
        return Err(Refusal::Row);
    }
    Ok(parts::clear_rows(run as usize, length as usize + 1))
}

// How many rows of `length` pixels have an outline whose first pixel is `first` and whose last is
// `last`, both counted from 0: none where `last` lies before `first` or too close to it.
pub fn rows_with(run: u32, length: u32, first: u32, last: u32) -> Result<u64, Refusal>
    ensures { said result ≡ with_answer run length first last }
{
    if run < 2 {
        return Err(Refusal::Run);
    }
    if 8 < run {
        return Err(Refusal::Run);
    }
    if 60 < length {
        return Err(Refusal::Row);
    }
    if length <= first {
        return Err(Refusal::Row);
    }
    if length <= last {
        return Err(Refusal::Row);
    }
    Ok(parts::between(run as usize, length as usize, first as usize, last as usize))
}
