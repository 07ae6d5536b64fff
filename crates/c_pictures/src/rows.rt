// What the entries that count rows answer.
ghost use Rattle.std.specs.Prelude.{◌≡◌};
ghost use Rattle.laws.specs.Said.{left_of, result_of};
ghost use Rattle.refusal.specs.Numbers.{said};

use refusal::Refusal;

// How many rows.
pub fn put_count(answer: Result<u64, Refusal>, count: &mut u64) -> u32
    ensures answer { result ≡ result_of (said answer) }
    ensures count { count.new ≡ left_of (said answer) count.old }
{
    c_answers::put(answer, count)
}
