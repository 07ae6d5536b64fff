// The split of one window of lumas into dark and light: two means, up to four rounds.
ghost use Rattle.std.specs.Prelude.{◌≡◌, ◌<◌, ◌≤◌, ◌-◌, length};
ghost use Rattle.std.specs.Float.Ieee.{lt};
ghost use Rattle.marks.specs.Split.{total_to, put_side, sides_to, between, split_round};
ghost use Rattle.marks.specs.Split.{SameSides, split_after, split, same_bits, settled_split};
ghost use Rattle.marks.specs.Doors.{all_finite, split_answer};
ghost use Rattle.refusal.specs.Numbers.{said};

use refusal::Refusal;

// Sums and counts of a window's numbers on the two sides of a threshold.
#[derive(Drop)]
pub struct Sides {
    // the sum of those not above it, from 0
    pub lo: f32,
    // how many these are, 0 to 33
    pub ln: f32,
    // the sum of those above it, from 0
    pub hi: f32,
    // how many these are, 0 to 33
    pub hn: f32,
}

// A split, and the number of the round at which it has settled, 2 to 4.
#[derive(Clone, Copy)]
pub struct Settled {
    pub split: f32,
    pub round: u32,
}

// One number put on its side.
fn put_side(t: f32, x: f32, s: Sides) -> Sides
    ensures { result ≡ put_side t x s }
{
    if x > t {
        return Sides {
            lo: s.lo,
            ln: s.ln,
            hi: s.hi + x,
            hn: s.hn + 1.0,
        };
    }
    Sides {
        lo: s.lo + x,
        ln: s.ln + 1.0,
        hi: s.hi,
        hn: s.hn,
    }
}

// The sides of a window.
fn sides_of(w: &[f32], t: f32) -> Sides
    ensures { result ≡ sides_to t w.now (length w.now) }
{
    let mut s = Sides {
        lo: 0.0,
        ln: 0.0,
        hi: 0.0,
        hn: 0.0,
    };
    for x in w {
        s = put_side(t, *x, s);
    }
    s
}

// The threshold between two sides, or t where one is empty.
fn between_sides(t: f32, s: Sides) -> f32
    ensures { result ≡ between t s }
{
    if s.ln == 0.0 {
        return t;
    }
    if s.hn == 0.0 {
        return t;
    }
    (s.lo / s.ln + s.hi / s.hn) / 2.0
}

// One round. Where a side is empty t stays, in this round and in those after it.
fn split_round(w: &[f32], t: f32) -> f32
    ensures { result ≡ split_round w.now t }
{
    between_sides(t, sides_of(w, t))
}

// The sum of a window's numbers, from the first on.
fn total(w: &[f32]) -> f32
    requires { 0 < length w.now }
    ensures { result ≡ total_to w.now (length w.now - 1) }
{
    let mut sum = w[0];
    for i in 1..w.len() {
        sum = sum + w[i];
    }
    sum
}

// 1 where a number is on another side of b than of a, else 0.
fn differs(x: f32, a: f32, b: f32) -> u32
    ensures most { result ≤ 1 }
    ensures passed { result ≡ 0 → lt a x ≡ lt b x }
{
    if x > a {
        if x > b {
            return 0;
        }
        return 1;
    }
    if x > b {
        return 1;
    }
    0
}

// How many numbers of a window are on another side of b than of a.
fn moved(w: &[f32], a: f32, b: f32) -> u32
    requires { length w.now ≤ 33 }
    ensures { result ≡ 0 → SameSides w.now a b (length w.now) }
{
    let mut n: u32 = 0;
    for x in w {
        n += differs(*x, a, b);
    }
    n
}

// The mean of a window.
fn mean_of(w: &[f32]) -> f32
    requires w_nonzero { 0 < length w.now }
    requires w_len_bound { length w.now ≤ 33 }
    ensures { result ≡ split_after w.now 0 }
{
    total(w) / (w.len() as u16 as f32)
}

// The split of a window: four rounds from its mean. A round after which no number changes sides ends
// them, since those after it would leave the threshold as it is.
pub(crate) fn split_of(w: &[f32]) -> f32
    requires w_nonzero { 0 < length w.now }
    requires w_len_bound { length w.now ≤ 33 }
    ensures { result ≡ split w.now }
{
    let m = mean_of(w);
    let a = split_round(w, m);
    if moved(w, m, a) == 0 {
        return a;
    }
    let b = split_round(w, a);
    if moved(w, a, b) == 0 {
        return b;
    }
    let c = split_round(w, b);
    if moved(w, b, c) == 0 {
        return c;
    }
    split_round(w, c)
}

// Whether two splits have the same bits, any NaN as any NaN.
fn same_bits(a: f32, b: f32) -> bool
    ensures { result ≡ same_bits a b }
{
    if a != a {
        return b != b;
    }
    if b != b {
        return false;
    }
    f32::to_bits(a) == f32::to_bits(b)
}

// The split of a window at the round at which it has settled, with that round.
fn settled_split(w: &[f32]) -> Settled
    requires w_nonzero { 0 < length w.now }
    requires w_len_bound { length w.now ≤ 33 }
    ensures { result ≡ settled_split w.now }
{
    let m = mean_of(w);
    let a = split_round(w, m);
    let b = split_round(w, a);
    if same_bits(b, a) {
        return Settled { split: b, round: 2 };
    }
    let c = split_round(w, b);
    if same_bits(c, b) {
        return Settled { split: c, round: 3 };
    }
    Settled {
        split: split_round(w, c),
        round: 4,
    }
}

// Whether no number of a list is a NaN or infinite.
fn all_finite(w: &[f32]) -> bool
    ensures { result ≡ all_finite w.now }
{
    w.iter().all(|x| ieee::is_finite(*x))
}

// The split of one window, 4 to 33 finite numbers, and the round at which it has settled.
pub fn split_window(values: &[f32]) -> Result<Settled, Refusal>
    ensures { said result ≡ split_answer values.now }
{
    let n = values.len();
    if n < 4 {
        return Err(Refusal::Size);
    }
    if 33 < n {
        return Err(Refusal::Size);
    }
    if !all_finite(values) {
        return Err(Refusal::Value);
    }
    Ok(settled_split(values))
}
