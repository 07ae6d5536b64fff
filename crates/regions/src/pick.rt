// The groups that are kept: at least 16 cells, the first four by count, equal counts by lower
// label. Each is the first behind the one before it, found in one pass over the counters.
ghost use Rattle.std.specs.Prelude.{◌≡◌, ◌<◌, length};
ghost use Rattle.regions.specs.Kept.{ahead_by};
ghost use Rattle.regions.specs.Inner.{behind, beats, Turn, FoundBehind, Picked};

// Whether a group `a` of `x` cells comes before a group `b` of `y` cells.
#[tactic(auto, unfolding(crate::specs::Kept::ahead_by))]
fn ahead(x: u32, a: usize, y: u32, b: usize) -> bool
    ensures { result ≡ ahead_by x a y b }
{
    y < x || x == y && a < b
}

// Whether `b` is behind `p`, which all are where `p` is no group.
#[tactic(auto, unfolding(crate::specs::Inner::behind, crate::specs::Kept::ahead))]
fn is_behind(sizes: &[u32], p: usize, b: usize) -> bool
    requires { b < length sizes.now }
    ensures { result ≡ behind sizes.now p b }
{
    if p < sizes.len() {
        return ahead(sizes[p], p, sizes[b], b);
    }
    true
}

// Whether `b` is ahead of `a`, as each is where `a` is no group.
#[tactic(auto, unfolding(crate::specs::Inner::beats, crate::specs::Kept::ahead))]
fn does_beat(sizes: &[u32], a: usize, b: usize) -> bool
    requires { b < length sizes.now }
    ensures { result ≡ beats sizes.now a b }
{
    if a < sizes.len() {
        return ahead(sizes[b], b, sizes[a], a);
    }
    true
}

// The better of `a` and `b`, behind `p`.
fn better(sizes: &[u32], p: usize, a: usize, b: usize) -> usize
    requires { b < length sizes.now }
    ensures { Turn sizes.now p a b result }
{
    if sizes[b] < 16 {
        return a;
    }
    if !is_behind(sizes, p, b) {
        return a;
    }
    if !does_beat(sizes, a, b) {
        return a;
    }
    b
}

// The first group that is kept behind `p`, and the number of groups where there is none.
// Kept: that number stands for none; a place in an Option would ask a new `requires` of is_behind.
fn first_behind(sizes: &[u32], p: usize) -> usize
    ensures { FoundBehind sizes.now p result }
{
    let mut a = sizes.len();
    for b in 0..sizes.len() {
        a = better(sizes, p, a, b);
    }
    a
}

// The groups that are kept, in order: how many, and which.
// Kept: how many, beside four places: lists lie in fixed memory (a rule of the project).
#[derive(Drop)]
pub struct Picks {
    pub kept: usize,
    pub at: [usize; 4],
}

pub(crate) fn pick(sizes: &[u32]) -> Picks
    ensures { Picked sizes.now result.kept result.at }
{
    let mut at = [0usize; 4];
    let mut p = sizes.len();
    for i in 0..4 {
        let a = first_behind(sizes, p);
        if a == sizes.len() {
            return Picks { kept: i, at };
        }
        at[i] = a;
        p = a;
    }
    Picks { kept: 4, at }
}
