// The answers of the doors of equations and medians, crates `math` and `medians`.
ghost use Rattle.std.specs.Prelude.{◌≡◌};
ghost use Rattle.laws.specs.Said.{result_of, left_of};
ghost use Rattle.refusal.specs.Numbers.{said, said_some};

use refusal::Refusal;

// A median or a spread.
pub fn put_number(answer: Result<f32, Refusal>, to: &mut f32) -> u32
    ensures answer { result ≡ result_of (said answer) }
    ensures to { to.new ≡ left_of (said answer) to.old }
{
    c_answers::put(answer, to)
}

// A solution, where there is one.
pub fn put_solution(answer: Result<Option<[f64; 8]>, Refusal>, x: &mut [f64; 8]) -> u32
    ensures answer { result ≡ result_of (said_some answer) }
    ensures x { x.new ≡ left_of (said_some answer) x.old }
{
    c_answers::put_some(answer, x)
}
