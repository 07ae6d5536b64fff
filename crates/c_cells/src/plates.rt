// The answers of the doors of proof rings, crate `proof_ring`.
ghost use Rattle.std.specs.Prelude.{◌≡◌};
ghost use Rattle.laws.specs.Said.{result_of};
ghost use Rattle.refusal.specs.Numbers.{said};

use refusal::Refusal;

// Of a ring drawn or read back: 0, or the refusal's number.
pub fn number_of(answer: Result<(), Refusal>) -> u32
    ensures { result ≡ result_of (said answer) }
{
    c_answers::number(answer)
}
