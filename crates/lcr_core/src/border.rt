// The ring round a symbol, from border.rs: its marks, and its cells and their positions.
ghost use Rattle.std.specs.Prelude.{◌≡◌, ◌<◌, ◌≤◌, ◌+◌, ◌/◌, length};
ghost use Rattle.lcr_core.specs.Version.{side_of, positions_of, quarter_of, IsVersion};
ghost use Rattle.lcr_core.specs.Mark.{mark, row_start, bit_at, RowMarks, AllMarks};
ghost use Rattle.lcr_core.specs.Border.{InRange, shell_of, edge_of, offset_of, position_at, outer_cell, inner_cell, is_two_deep};

use crate::border_seq::RING;
use crate::places::{
    along, depth, from_low, is_level, is_negative, on_edge, outer_x, outer_y, stepped,
};
use crate::version::Version;

// A cell: signed coordinates in cells, 0 at the symbol's top left.
#[derive(Clone, Copy)]
pub struct Cell {
    pub x: i32,
    pub y: i32,
}

// An edge of the ring (0 top, 1 right, 2 bottom, 3 left), and the coordinate along it.
// Kept: the C interface hands the edge out as this number.
#[derive(Clone, Copy)]
pub struct EdgeOffset {
    pub edge: usize,
    pub offset: i32,
}

// Where the row of a version starts in the table.
fn row_start(v: usize) -> usize
    requires { IsVersion v }
    ensures { result ≡ row_start v }
{
    (v - 1) * (v + 11)
}

// Whether the ring is light at a position, reduced modulo the positions.
pub(crate) fn sequence_light(version: Version, position: usize) -> bool
    ensures { result ≡ mark version position }
{
    let n = version.positions();
    let p = position % n;
    let start = row_start(version.get() as usize);
    let ring = &RING;
    let byte = ring[start + p / 8];
    ((byte >> (p % 8)) & 1) == 1
}

// Bit k of a byte, by shift and mask.
fn bit_of(byte: u8, k: usize) -> bool
    requires { k < 8 }
    ensures { result ≡ bit_at byte k }
{
    ((byte >> k) & 1) == 1
}

// The marks of a row that starts at `start`, n of them, first in `out`.
fn fill_marks(ring: &[u8], start: usize, n: usize, out: &mut [bool])
    requires { (start < 4864)
        × (n < 4096)
        × (start + (n + 7) / 8 ≤ length ring.now)
        × (n ≤ length out.old) }
    ensures { RowMarks ring.now start n out.new }
{
    for p in 0..n {
        out[p] = bit_of(ring[start + p / 8], p % 8);
    }
}

// All marks of a version, first in `out`. The table is brought in once: each use of a constant
// array copies it.
pub fn sequence(version: Version, out: &mut [bool])
    requires { positions_of version ≤ length out.old }
    ensures { AllMarks version out.new }
{
    let n = version.positions();
    let start = row_start(version.get() as usize);
    let ring = RING;
    fill_marks(&ring, start, n, out);
}

// How far outside the symbol a cell lies.
pub(crate) fn shell(x: i32, y: i32, version: Version) -> usize
    requires in_range { InRange x }
    requires in_range_2 { InRange y }
    ensures { result ≡ shell_of (side_of version) x y }
{
    let side = version.side() as usize;
    let dx = depth(x, side);
    let dy = depth(y, side);
    dx.max(dy)
}

// Which edge a cell sits on, and its coordinate along it.
pub(crate) fn edge_and_offset(x: i32, y: i32, version: Version) -> EdgeOffset
    requires in_range { InRange x }
    requires in_range_2 { InRange y }
    ensures edge { result.edge ≡ edge_of (side_of version) x y }
    ensures offset { result.offset ≡ offset_of (side_of version) x y }
{
    let side = version.side() as usize;
    let dx = depth(x, side);
    let dy = depth(y, side);
    if is_level(dx, dy) {
        if is_negative(y) {
            return EdgeOffset { edge: 0, offset: x };
        }
        return EdgeOffset { edge: 2, offset: x };
    }
    if is_negative(x) {
        return EdgeOffset { edge: 3, offset: y };
    }
    EdgeOffset { edge: 1, offset: y }
}

// A quarter of the positions of a version.
pub fn quarter(version: Version) -> usize
    ensures answer { result ≡ quarter_of version }
    ensures version { IsVersion version }
{
    4 * (version.get() as usize) + 22
}

// The position of a cell, clockwise from the top left corner of the outer square; none where the
// cell is not of the ring.
pub fn position(x: i32, y: i32, version: Version) -> Option<usize>
    requires in_range { InRange x }
    requires in_range_2 { InRange y }
    ensures { result ≡ position_at version x y }
{
    let d = shell(x, y, version);
    if d < 2 {
        return None;
    }
    if 3 < d {
        return None;
    }
    let q = quarter(version);
    let n = version.positions();
    let e = edge_and_offset(x, y, version);
    let u = along(e.offset, version.side() as usize).min(q);
    Some(on_edge(q, e.edge, u) % n)
}

// The outer cell of a position, reduced modulo the positions.
pub fn outer_cell(p: usize, version: Version) -> Cell
    ensures answer { result ≡ outer_cell version p }
    ensures version { IsVersion version }
{
    let q = quarter(version);
    let k = p % version.positions();
    Cell {
        x: from_low(outer_x(q, k)),
        y: from_low(outer_y(q, k)),
    }
}

// The cell one step inward from the outer cell.
pub fn inner_cell(p: usize, version: Version) -> Cell
    ensures answer { result ≡ inner_cell version p }
    ensures version { IsVersion version }
{
    let q = quarter(version);
    let k = p % version.positions();
    Cell {
        x: from_low(stepped(q, outer_x(q, k))),
        y: from_low(stepped(q, outer_y(q, k))),
    }
}

// Whether a position keeps both its cells.
pub fn is_two_deep(p: usize) -> bool
    ensures { result ≡ is_two_deep p }
{
    p % 3 == 0
}
