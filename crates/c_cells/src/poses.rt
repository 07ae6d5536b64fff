// The answers of the doors of ring marks, crate `marks`.
ghost use Rattle.std.specs.Prelude.{◌≡◌};
ghost use Rattle.laws.specs.Said.{result_of};
ghost use Rattle.refusal.specs.Numbers.{said};
ghost use Rattle.c_cells.specs.Poses.{split_after_call, round_after};
ghost use Rattle.c_cells.specs.Poses.{score_after, corner_after, reversed_after, agreements_after};

use marks::correlate::Correlated;
use marks::split::Settled;
use refusal::Refusal;

// Of marks told apart: 0, or the refusal's number.
pub fn number_of(answer: Result<(), Refusal>) -> u32
    ensures { result ≡ result_of (said answer) }
{
    c_answers::number(answer)
}

// The split of one window, and the round at which it has settled.
pub fn put_split(answer: Result<Settled, Refusal>, split: &mut f32, round: &mut u32) -> u32
    ensures answer { result ≡ result_of (said answer) }
    ensures split { split.new ≡ split_after_call (said answer) split.old }
    ensures round { round.new ≡ round_after (said answer) round.old }
{
    match answer {
        Ok(s) => {
            *split = s.split;
            *round = s.round;
            0
        }
        Err(r) => r.number(),
    }
}

// The best pose, and its counts.
pub fn put_best(
    answer: Result<Correlated, Refusal>,
    score: &mut f32,
    corner: &mut usize,
    reversed: &mut bool,
    counts: &mut [u16; 8],
) -> u32
    ensures answer { result ≡ result_of (said answer) }
    ensures score { score.new ≡ score_after (said answer) score.old }
    ensures corner { corner.new ≡ corner_after (said answer) corner.old }
    ensures reversed { reversed.new ≡ reversed_after (said answer) reversed.old }
    ensures counts { counts.new ≡ agreements_after (said answer) counts.old }
{
    match answer {
        Ok(found) => {
            let best = found.best;
            let from = found.counts;
            *score = best.score;
            *corner = best.corner;
            *reversed = best.reversed;
            *counts = from;
            0
        }
        Err(r) => r.number(),
    }
}
