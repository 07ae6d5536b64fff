// Cells of the ring as places: a coordinate counted from the ring's outer edge, -3, so that the
// outer square's places run from 0 to q, a quarter of the positions. The signed steps stand here.
ghost use Rattle.std.specs.Prelude.{◌≡◌, not, ◌&&◌, leb, ltb, ◌<◌, ◌≤◌, ◌+◌, ◌*◌};
ghost use Rattle.std.specs.Int.Signed.{non_neg};
ghost use Rattle.lcr_core.specs.Border.{InRange, depth_of, coordinate, along_of, on_edge, outer_x, outer_y, inward};

// Whether a coordinate is below 0.
pub(crate) fn is_negative(c: i32) -> bool
    ensures { result ≡ not (non_neg c) }
{
    c < 0
}

// How far outside the symbol a coordinate lies.
pub(crate) fn depth(c: i32, side: usize) -> usize
    requires in_range { InRange c }
    requires side_nonzero { 0 < side }
    ensures { result ≡ depth_of side c }
{
    if c < 0 {
        return (-c) as usize;
    }
    let n = c as usize;
    if n < side {
        return 0;
    }
    n - side + 1
}

// A coordinate's place, counted from -3.
pub(crate) fn along(c: i32, side: usize) -> usize
    requires in_range { InRange c }
    requires c_bound { depth_of side c ≤ 3 }
    ensures { result ≡ along_of c }
{
    (c + 3) as usize
}

// A place's coordinate.
pub(crate) fn from_low(k: usize) -> i32
    requires { k < 4096 }
    ensures { result ≡ coordinate k }
{
    (k as i32) - 3
}

// Whether a cell so deep in x and y lies on the top or bottom edge.
pub(crate) fn is_level(dx: usize, dy: usize) -> bool
    ensures { result ≡ (ltb 0 dy && leb dx dy) }
{
    0 < dy && dx <= dy
}

// The position at a place of an edge.
pub(crate) fn on_edge(q: usize, edge: usize, u: usize) -> usize
    requires q_bound { q < 4096 }
    requires u_le_q { u ≤ q }
    ensures { result ≡ on_edge q edge u }
{
    if edge == 0 {
        return u;
    }
    if edge == 1 {
        return q + u;
    }
    if edge == 2 {
        return 3 * q - u;
    }
    4 * q - u
}

// The outer cell of a position, across and down, in places.
pub(crate) fn outer_x(q: usize, p: usize) -> usize
    requires { q < 4096 }
    ensures within { result ≤ q }
    ensures answer { result ≡ outer_x q p }
{
    if p <= q {
        return p;
    }
    if p <= 2 * q {
        return q;
    }
    if p <= 3 * q {
        return 3 * q - p;
    }
    0
}

pub(crate) fn outer_y(q: usize, p: usize) -> usize
    requires q_bound { q < 4096 }
    requires p_bound { p < 4 * q }
    ensures within { result ≤ q }
    ensures answer { result ≡ outer_y q p }
{
    if p <= q {
        return 0;
    }
    if p <= 2 * q {
        return p - q;
    }
    if p <= 3 * q {
        return q;
    }
    4 * q - p
}

// One step inward from either end.
pub(crate) fn stepped(q: usize, k: usize) -> usize
    requires lt_q { 1 < q }
    requires k_le_q { k ≤ q }
    ensures within { result ≤ q }
    ensures answer { result ≡ inward q k }
{
    if k == 0 {
        return 1;
    }
    if k == q {
        return q - 1;
    }
    k
}
