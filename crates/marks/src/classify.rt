// Light or dark at each position, by a split of the window round it.
ghost use Rattle.std.specs.Prelude.{◌≡◌, ◌<◌, ◌≤◌, ◌+◌, ◌-◌, length, take};
ghost use Rattle.laws.specs.Fold.{bit};
ghost use Rattle.ieee.specs.Ops.{finite};
ghost use Rattle.marks.specs.Classify.{place_around, luma_around, kept, window};
ghost use Rattle.marks.specs.Classify.{light_in, lights, Ring, Gathered, Around};
ghost use Rattle.marks.specs.Doors.{classify_checks, classify_answer, marks_after};
ghost use Rattle.refusal.specs.Numbers.{said};

use crate::split;
use lcr_core::version::Version;
use refusal::Refusal;

// The position at place j round a ring of n, where place 16 is position 0.
fn place_around(j: usize, n: usize) -> usize
    requires ring { Ring n }
    requires j_bound { j ≤ n + 32 }
    ensures within { result < n }
    ensures answer { result ≡ place_around n j }
{
    if j < 16 {
        return n + j - 16;
    }
    if j < n + 16 {
        return j - 16;
    }
    j - 16 - n
}

// A luma put last in the first `len` of a list where it is finite; answers how many there are then.
fn keep(around: &mut [f32], len: usize, x: f32) -> usize
    requires { len < length around.old }
    ensures at_most { result ≤ len + 1 }
    ensures around { take result around.new ≡ kept (take len around.old) x }
{
    if ieee::is_finite(x) {
        around[len] = x;
        return len + 1;
    }
    len
}

// The finite lumas at places `from` to `to`, behind those at the places before `from`.
fn gather(lumas: &[f32], from: usize, to: usize, len: usize, around: &mut [f32]) -> usize
    requires from_le_to { (from ≤ to) × (to ≤ length lumas.now + 32) × (to ≤ length around.old) }
    requires ring { Ring (length lumas.now) }
    requires gathered { Gathered lumas.now from len around.old }
    ensures { Gathered lumas.now to result around.new }
{
    let n = lumas.len();
    let mut r = len;
    for j in from..to {
        r = keep(around, r, lumas[place_around(j, n)]);
    }
    r
}

// k, and one more where the luma at place j is finite.
fn passed(lumas: &[f32], j: usize, k: usize) -> usize
    requires ring { Ring (length lumas.now) }
    requires j_in_bounds { (j ≤ length lumas.now + 32) × (k < 4096) }
    ensures { result ≡ k + bit (finite (luma_around lumas.now j)) }
{
    if ieee::is_finite(lumas[place_around(j, lumas.len())]) {
        return k + 1;
    }
    k
}

// Whether a position is light, whose luma is x and whose window's finite lumas are w.
fn is_light(x: f32, w: &[f32]) -> bool
    requires { length w.now ≤ 33 }
    ensures { result ≡ light_in w.now x }
{
    if ieee::is_finite(x) {
        if w.len() < 4 {
            return false;
        }
        return split::split_of(w) < x;
    }
    false
}

// Light or dark at every position. `around` has the finite lumas of all windows, `first` of them
// in the first window; a window's are a part of it that moves on with the position.
fn light_all(lumas: &[f32], around: &[f32], first: usize, marks: &mut [bool])
    requires ring { Ring (length lumas.now) }
    requires marks_len { length marks.old ≡ length lumas.now }
    requires around { Around lumas.now around.now }
    requires first_value { first ≡ length (window lumas.now 0) }
    ensures { marks.new ≡ lights lumas.now }
{
    let mut lo: usize = 0;
    let mut hi = first;
    for p in 0..lumas.len() {
        marks[p] = is_light(lumas[p], &around[lo..hi]);
        lo = passed(lumas, p, lo);
        hi = passed(lumas, p + 33, hi);
    }
}

// Light or dark at every position of a version's ring.
fn classify_all(lumas: &[f32], marks: &mut [bool])
    requires ring { Ring (length lumas.now) }
    requires marks_len { length marks.old ≡ length lumas.now }
    ensures { marks.new ≡ lights lumas.now }
{
    let mut around = [0.0f32; 1144];
    let first = gather(lumas, 0, 33, 0, &mut around);
    gather(lumas, 33, lumas.len() + 32, first, &mut around);
    light_all(lumas, &around, first, marks);
}

// The checks in order: 8, then 11 for the lumas, then 11 for the marks.
fn check(version: u32, lumas: usize, marks: usize) -> Result<(), Refusal>
    ensures { said result ≡ classify_checks version lumas marks }
{
    let v = Version::new(version)?;
    let n = v.positions();
    if lumas != n {
        return Err(Refusal::Marks);
    }
    if marks != n {
        return Err(Refusal::Marks);
    }
    Ok(())
}

// Light or dark at each position of a version, into the lent marks; a refusal leaves them.
pub fn classify(version: u32, lumas: &[f32], marks: &mut [bool]) -> Result<(), Refusal>
    ensures answer { said result ≡ classify_answer version lumas.now marks.old }
    ensures marks { marks.new ≡ marks_after (said result) lumas.now marks.old }
{
    check(version, lumas.len(), marks.len())?;
    classify_all(lumas, marks);
    Ok(())
}
