// How far marks agree with a version's sequence at the eight poses, and the pose that agrees best.
ghost use Rattle.std.specs.Prelude.{◌≡◌, cond, ◌<◌, ◌≤◌, ltb, length, get_or};
ghost use Rattle.std.specs.Bool.{beq};
ghost use Rattle.laws.specs.Fold.{bit};
ghost use Rattle.lcr_core.specs.Version.{positions_of};
ghost use Rattle.lcr_core.specs.Mark.{AllMarks};
ghost use Rattle.marks.specs.Pose.{agreement, counts_of};
ghost use Rattle.marks.specs.Correlate.{step_from, best_pose, score};
ghost use Rattle.marks.specs.Doors.{pose_and_counts, correlate_answer};
ghost use Rattle.refusal.specs.Numbers.{said};

use lcr_core::border;
use lcr_core::version::Version;
use refusal::Refusal;

// The pose that agrees best.
#[derive(Clone, Copy)]
pub struct Pose {
    // agreement count / positions, 0 to 1
    pub score: f32,
    // 0 to 3
    pub corner: usize,
    pub reversed: bool,
}

// The answer of `correlate`, with the eight agreement counts.
#[derive(Clone, Copy)]
pub struct Correlated {
    pub best: Pose,
    // corners 0 to 3 forward, then reversed, each 0 to the positions
    pub counts: [u16; 8],
}

// 1 where two marks are equal.
fn one_if_same(a: bool, b: bool) -> u16
    ensures at_most { result ≤ 1 }
    ensures answer { result ≡ bit (beq a b) }
{
    (a == b) as u16
}

// The place after this one, of n in a ring; backward where reversed.
fn next_place(at: usize, n: usize, reversed: bool) -> usize
    requires at_lt_n { at < n }
    requires n_bound { n < 4096 }
    ensures within { result < n }
    ensures answer { result ≡ step_from at n reversed }
{
    if reversed {
        if at == 0 {
            return n - 1;
        }
        return at - 1;
    }
    if at + 1 == n {
        return 0;
    }
    at + 1
}

// The agreement count of a pose; `seq` has the version's marks.
fn agreement_at(marks: &[bool], seq: &[bool], version: Version, r: usize, reversed: bool) -> u16
    requires version_in_bounds { positions_of version ≤ length seq.now }
    requires all_marks { AllMarks version seq.now }
    requires marks_len { length marks.now ≡ positions_of version }
    requires r_bound { r < 4 }
    ensures { result ≡ agreement version marks.now r reversed }
{
    let n = version.positions();
    let q = border::quarter(version);
    let mut at = r * q;
    let mut count: u16 = 0;
    for i in 0..n {
        count += one_if_same(seq[i], marks[at]);
        at = next_place(at, n, reversed);
    }
    count
}

// The eight agreement counts, from the version's marks in `seq`.
fn counts_by(marks: &[bool], seq: &[bool], version: Version) -> [u16; 8]
    requires version_in_bounds { positions_of version ≤ length seq.now }
    requires all_marks { AllMarks version seq.now }
    requires marks_len { length marks.now ≡ positions_of version }
    ensures { result ≡ counts_of version marks.now }
{
    [
        agreement_at(marks, seq, version, 0, false),
        agreement_at(marks, seq, version, 1, false),
        agreement_at(marks, seq, version, 2, false),
        agreement_at(marks, seq, version, 3, false),
        agreement_at(marks, seq, version, 0, true),
        agreement_at(marks, seq, version, 1, true),
        agreement_at(marks, seq, version, 2, true),
        agreement_at(marks, seq, version, 3, true),
    ]
}

// The eight agreement counts.
fn counts_of(marks: &[bool], version: Version) -> [u16; 8]
    requires { length marks.now ≡ positions_of version }
    ensures { result ≡ counts_of version marks.now }
{
    let mut places = [false; 1112];
    let seq = &mut places[..version.positions()];
    border::sequence(version, seq);
    counts_by(marks, seq, version)
}

// The later of two places of counts where its count is greater, else the earlier.
fn greater_of(counts: [u16; 8], b: usize, k: usize) -> usize
    requires b_bound { b < 8 }
    requires k_bound { k < 8 }
    ensures within { result < 8 }
    ensures answer { result ≡ cond (ltb (get_or counts b 0) (get_or counts k 0)) k b }
{
    if counts[b] < counts[k] {
        return k;
    }
    b
}

// The first place of the greatest count.
fn best_of(counts: [u16; 8]) -> usize
    ensures within { result < 8 }
    ensures answer { result ≡ best_pose counts }
{
    let mut b: usize = 0;
    for k in 1..8 {
        b = greater_of(counts, b, k);
    }
    b
}

// Count / positions.
fn score_of(version: Version, count: u16) -> f32
    ensures { result ≡ score version count }
{
    let n = version.positions() as u16;
    (count as f32) / (n as f32)
}

// The counts of as many marks as positions, and the best pose.
fn best_pose(marks: &[bool], version: Version) -> Correlated
    requires { length marks.now ≡ positions_of version }
    ensures { result ≡ pose_and_counts version marks.now }
{
    let counts = counts_of(marks, version);
    let b = best_of(counts);
    let best = Pose {
        score: score_of(version, counts[b]),
        corner: b % 4,
        reversed: 4 <= b,
    };
    Correlated { best, counts }
}

// The agreement of marks with the sequence of a version. Refusals: 8, then 11.
pub fn correlate(version: u32, marks: &[bool]) -> Result<Correlated, Refusal>
    ensures { said result ≡ correlate_answer version marks.now }
{
    let v = Version::new(version)?;
    if marks.len() != v.positions() {
        return Err(Refusal::Marks);
    }
    Ok(best_pose(marks, v))
}
