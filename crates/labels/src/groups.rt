// Groups of ink cells, each within three columns and three rows of the next, and their labels.
//
// In `labels` 0 is a cell without ink and MARK an ink cell that has no label yet. The first places
// of `stack`, as many as its depth says, hold cells of which the cells near are still to be visited.
ghost use Rattle.std.specs.Prelude.{◌≡◌, ◌+◌, ◌*◌, ◌-◌, ◌<◌, ◌≤◌, length, take};
ghost use Rattle.laws.specs.Lent.{UntouchedPast, laid};
ghost use Rattle.laws.specs.Lists.{range};
ghost use Rattle.labels.specs.Labelling.{MARK, State, after_visit, after_visits, window, emptied, after_group, labelling};
ghost use Rattle.labels.specs.Inner.{Shows, Safe, CellGrid};

pub const MARK: u32 = 4294967295;

// A visit of the cell `j`: where it is a mark it gets the label `v` and is pushed. The depth of the
// stack then.
fn visit(labels: &mut [u32], stack: &mut [u32], depth: usize, j: usize, v: u32) -> usize
    requires safe { Safe labels.old stack.old depth }
    requires j_in_bounds { (j < length labels.old) × (length labels.old ≤ 262144) }
    ensures { (σ : State) → Shows labels.old stack.old depth v σ
        → Shows labels.new stack.new result v (after_visit j σ) }
{
    if labels[j] != MARK {
        return depth;
    }
    labels[j] = v;
    stack[depth] = j as u32;
    depth + 1
}

// The visits of the cells from `a` up to `b` of the list.
fn visit_row(
    labels: &mut [u32],
    stack: &mut [u32],
    depth: usize,
    a: usize,
    b: usize,
    v: u32,
) -> usize
    requires safe { Safe labels.old stack.old depth }
    requires a_le_b { (a ≤ b) × (b ≤ length labels.old) × (length labels.old ≤ 262144) × (v < MARK) }
    ensures { (σ : State) → Shows labels.old stack.old depth v σ
        → Shows labels.new stack.new result v (after_visits (range a (b - a)) σ) }
{
    let mut k = depth;
    for j in a..b {
        k = visit(labels, stack, k, j, v);
    }
    k
}

// The visits of the cells of row `g` from column `x0` up to `x1`, in rows of `w` cells.
fn visit_line(
    labels: &mut [u32],
    stack: &mut [u32],
    depth: usize,
    g: usize,
    w: usize,
    x0: usize,
    x1: usize,
    v: u32,
) -> usize
    requires safe { Safe labels.old stack.old depth }
    requires x0_le_x1 { (x0 ≤ x1)
        × (g * w + x1 ≤ length labels.old)
        × (length labels.old ≤ 262144)
        × (v < MARK) }
    ensures { (σ : State) → Shows labels.old stack.old depth v σ
        → Shows labels.new stack.new result v
        (after_visits (range (g * w + x0) (g * w + x1 - (g * w + x0))) σ) }
{
    visit_row(labels, stack, depth, g * w + x0, g * w + x1, v)
}

// The visits of all cells near the cell `i`, in a grid of `h` rows of `w` cells.
fn visit_near(
    labels: &mut [u32],
    stack: &mut [u32],
    depth: usize,
    i: usize,
    w: usize,
    h: usize,
    v: u32,
) -> usize
    requires safe { Safe labels.old stack.old depth }
    requires cell_grid { CellGrid labels.old w h }
    requires i_in_bounds { (i < length labels.old) × (v < MARK) }
    ensures { (σ : State) → Shows labels.old stack.old depth v σ
        → Shows labels.new stack.new result v (after_visits (window w h i) σ) }
{
    let x = i % w;
    let y = i / w;
    let x0 = x.saturating_sub(3);
    let x1 = (x + 4).min(w);
    let y0 = y.saturating_sub(3);
    let y1 = (y + 4).min(h);
    let mut k = depth;
    for g in y0..y1 {
        k = visit_line(labels, stack, k, g, w, x0, x1, v);
    }
    k
}

// The fill of the group of the cell `s` with the label `v`: a visit of it, and of the cells near
// each cell that is taken from the stack, until that is empty.
fn flood(labels: &mut [u32], stack: &mut [u32], s: usize, w: usize, h: usize, v: u32)
    requires cell_grid { CellGrid labels.old w h }
    requires s_in_bounds { (s < length labels.old) × (length labels.old ≤ length stack.old) × (v < MARK) }
    ensures { (σ : State) → Shows labels.old stack.old 0 v σ
        → Shows labels.new stack.new 0 v
        (emptied (window w h) (h * w) (after_visit s σ)) }
{
    let mut k = visit(labels, stack, 0, s, v);
    while k > 0 {
        k -= 1;
        let i = stack[k] as usize;
        k = visit_near(labels, stack, k, i, w, h, v);
    }
}

// The cell `s`, after `v` labels: where it is a mark, its group gets the next one. How many labels
// there are then.
fn label_at(labels: &mut [u32], stack: &mut [u32], s: usize, w: usize, h: usize, v: u32) -> u32
    requires cell_grid { CellGrid labels.old w h }
    requires s_in_bounds { (s < length labels.old) × (length labels.old ≤ length stack.old) × (v ≤ 262144) }
    ensures few { result ≤ v + 1 }
    ensures state { (σ : State) → Shows labels.old stack.old 0 v σ
        → Shows labels.new stack.new 0 result
        (after_group (window w h) (h * w) s σ) }
{
    if labels[s] != MARK {
        return v;
    }
    flood(labels, stack, s, w, h, v + 1);
    v + 1
}

// The labels of a grid of `h` rows of `w` cells in which MARK is an ink cell and 0 any other, and
// how many there are.
fn label_cells(labels: &mut [u32], stack: &mut [u32], w: usize, h: usize) -> u32
    requires { CellGrid labels.old w h × (length labels.old ≤ length stack.old) }
    ensures { Shows labels.new stack.new 0 result (labelling w h labels.old) }
{
    let mut next: u32 = 0;
    for s in 0..labels.len() {
        next = label_at(labels, stack, s, w, h, next);
    }
    next
}

// The same for a grid in the first places of a list, with as many places on the stack.
pub fn label_all(labels: &mut [u32], stack: &mut [u32], w: usize, h: usize) -> u32
    requires { (h * w ≤ length labels.old) × (h * w ≤ length stack.old) × (h * w ≤ 262144) × (0 < w) }
    ensures answer { result ≡ (labelling w h (take (h * w) labels.old)).given }
    ensures labels { labels.new
        ≡ laid (labelling w h (take (h * w) labels.old)).held labels.old }
    ensures stack_past { UntouchedPast (h * w) stack.old stack.new }
{
    let n = h * w;
    label_cells(&mut labels[..n], &mut stack[..n], w, h)
}
