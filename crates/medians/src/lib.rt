// Medians, as math.rs has them: `median`, `mad_sigma`.
// They are doors: public entries that check what they are given, with no `requires`.
#![tactic(auto)]

pub mod lists;
pub mod select;

ghost use Rattle.std.specs.Prelude.{◌≡◌};
ghost use Rattle.refusal.specs.Numbers.{said};
ghost use Rattle.medians.specs.Median.{median_answer, mad_sigma_answer, Left};

use refusal::Refusal;

// The median of a list, whose values it leaves in some order.
pub fn median(values: &mut [f32]) -> Result<f32, Refusal>
    ensures { (said result ≡ median_answer values.old)
        × Left (said result) values.old values.new }
{
    if 4096 < values.len() {
        return Err(Refusal::Size);
    }
    if !lists::all_fit(values) {
        return Err(Refusal::Value);
    }
    Ok(select::middle(values))
}

// The median distance from the median, times 1.4826.
pub fn mad_sigma(values: &[f32]) -> Result<f32, Refusal>
    ensures { said result ≡ mad_sigma_answer values.now }
{
    let n = values.len();
    if 4096 < n {
        return Err(Refusal::Size);
    }
    if !lists::all_fit(values) {
        return Err(Refusal::Value);
    }
    if n <= 64 {
        let mut few = [0f32; 64];
        return Ok(lists::spread(&mut few[..n], values));
    }
    let mut work = [0f32; 4096];
    Ok(lists::spread(&mut work[..n], values))
}
