// Ring marks for C: the doors `classify` and `correlate`, refusals 8, then 11; one window's split,
// refusals 9, then 10.
ghost use Rattle.std.specs.Prelude.{◌≡◌};
ghost use Rattle.laws.specs.Said.{result_of};
ghost use Rattle.marks.specs.Doors.{classify_answer, marks_after, split_answer, correlate_answer};
ghost use Rattle.c_cells.specs.Poses.{split_after_call, round_after};
ghost use Rattle.c_cells.specs.Poses.{score_after, corner_after, reversed_after, agreements_after};

// Light or dark at each position, from its luma.
#[unsafe(no_mangle)]
pub extern "C" fn lcr_classify(version: u32, lumas: &[f32], marks: &mut [bool]) -> u32
    ensures answer { result ≡ result_of (classify_answer version lumas.now marks.old) }
    ensures marks { marks.new
        ≡ marks_after (classify_answer version lumas.now marks.old)
        lumas.now marks.old }
{
    c_cells::poses::number_of(marks::classify::classify(version, lumas, marks))
}

// The split of one window, and the round at which it has settled.
#[unsafe(no_mangle)]
pub extern "C" fn lcr_split(values: &[f32], split: &mut f32, round: &mut u32) -> u32
    ensures answer { result ≡ result_of (split_answer values.now) }
    ensures split { split.new ≡ split_after_call (split_answer values.now) split.old }
    ensures round { round.new ≡ round_after (split_answer values.now) round.old }
{
    c_cells::poses::put_split(marks::split::split_window(values), split, round)
}

// The best pose of a ring's marks, and the agreement counts of the eight poses.
#[unsafe(no_mangle)]
pub extern "C" fn lcr_correlate(
    version: u32,
    marks: &[bool],
    score: &mut f32,
    corner: &mut usize,
    reversed: &mut bool,
    counts: &mut [u16; 8],
) -> u32
    ensures answer { result ≡ result_of (correlate_answer version marks.now) }
    ensures score { score.new
        ≡ score_after (correlate_answer version marks.now) score.old }
    ensures corner { corner.new
        ≡ corner_after (correlate_answer version marks.now) corner.old }
    ensures reversed { reversed.new
        ≡ reversed_after (correlate_answer version marks.now) reversed.old }
    ensures counts { counts.new
        ≡ agreements_after (correlate_answer version marks.now)
        counts.old }
{
    let answer = marks::correlate::correlate(version, marks);
    c_cells::poses::put_best(answer, score, corner, reversed, counts)
}
