// What a C function makes of a door's answer: the number that it returns, and the out-parameter.
#![tactic(auto)]

ghost use Rattle.std.specs.Prelude.{◌≡◌};
ghost use Rattle.laws.specs.Said.{result_of, left_of};
ghost use Rattle.refusal.specs.Numbers.{number_in, said, said_some};

use refusal::Refusal;

// What a C function returns where there is nothing to answer.
pub const NONE: u32 = 255;

// Puts a value into its out-parameter, or leaves that as it was; 0, or the number of the refusal.
pub fn put<T: Copy>(answer: Result<T, Refusal>, out: &mut T) -> u32
    ensures number { result ≡ result_of (said answer) }
    ensures out { out.new ≡ left_of (said answer) out.old }
{
    match answer {
        Ok(value) => {
            *out = value;
            0
        }
        Err(r) => r.number(),
    }
}

// The same of a value that may be missing: 255 where it is.
pub fn put_some<T: Copy>(answer: Result<Option<T>, Refusal>, out: &mut T) -> u32
    ensures number { result ≡ result_of (said_some answer) }
    ensures out { out.new ≡ left_of (said_some answer) out.old }
{
    match answer {
        Ok(Some(value)) => {
            *out = value;
            0
        }
        Ok(None) => NONE,
        Err(r) => r.number(),
    }
}

// 0, or the number of the refusal.
pub fn number<T: Copy>(answer: Result<T, Refusal>) -> u32
    ensures { result ≡ number_in answer }
{
    match answer {
        Ok(_) => 0,
        Err(r) => r.number(),
    }
}
