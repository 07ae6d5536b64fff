// The answers of the doors of border cells, crate `lcr_core`.
ghost use Rattle.std.specs.Prelude.{◌≡◌};
ghost use Rattle.laws.specs.Said.{left_of, result_of};
ghost use Rattle.refusal.specs.Numbers.{said, said_as, said_some};
ghost use Rattle.lcr_core.specs.Doors.{edge_pair};
ghost use Rattle.c_cells.specs.Cells.{side_after, positions_after, edge_after, offset_after, x_after, y_after};

use lcr_core::border::{Cell, EdgeOffset};
use lcr_core::version::Version;
use refusal::Refusal;

// A version's side and positions.
pub fn put_version(answer: Result<Version, Refusal>, side: &mut u16, positions: &mut usize) -> u32
    ensures answer { result ≡ result_of (said answer) }
    ensures side { side.new ≡ side_after (said answer) side.old }
    ensures positions { positions.new ≡ positions_after (said answer) positions.old }
{
    match answer {
        Ok(v) => {
            *side = v.side();
            *positions = v.positions();
            0
        }
        Err(r) => r.number(),
    }
}

// How far outside the symbol a cell lies.
pub fn put_depth(answer: Result<usize, Refusal>, depth: &mut usize) -> u32
    ensures answer { result ≡ result_of (said answer) }
    ensures depth { depth.new ≡ left_of (said answer) depth.old }
{
    c_answers::put(answer, depth)
}

// The edge that a cell sits on, and its coordinate along it.
pub fn put_edge(answer: Result<EdgeOffset, Refusal>, edge: &mut usize, offset: &mut i32) -> u32
    ensures answer { result ≡ result_of (said_as edge_pair answer) }
    ensures edge { edge.new ≡ edge_after (said_as edge_pair answer) edge.old }
    ensures offset { offset.new ≡ offset_after (said_as edge_pair answer) offset.old }
{
    match answer {
        Ok(e) => {
            *edge = e.edge;
            *offset = e.offset;
            0
        }
        Err(r) => r.number(),
    }
}

// The position of a cell of the ring.
pub fn put_place(answer: Result<Option<usize>, Refusal>, position: &mut usize) -> u32
    ensures answer { result ≡ result_of (said_some answer) }
    ensures position { position.new ≡ left_of (said_some answer) position.old }
{
    c_answers::put_some(answer, position)
}

// The cell of a position.
pub fn put_cell(answer: Result<Cell, Refusal>, x: &mut i32, y: &mut i32) -> u32
    ensures answer { result ≡ result_of (said answer) }
    ensures x { x.new ≡ x_after (said answer) x.old }
    ensures y { y.new ≡ y_after (said answer) y.old }
{
    match answer {
        Ok(c) => {
            *x = c.x;
            *y = c.y;
            0
        }
        Err(r) => r.number(),
    }
}

// Whether the ring is light at a position.
pub fn put_mark(answer: Result<bool, Refusal>, light: &mut bool) -> u32
    ensures answer { result ≡ result_of (said answer) }
    ensures light { light.new ≡ left_of (said answer) light.old }
{
    c_answers::put(answer, light)
}
