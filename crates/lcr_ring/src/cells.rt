// Versions and border cells for C: the doors of crate `lcr_core`. Refusals: 8, then 12.
ghost use Rattle.std.specs.Prelude.{◌≡◌};
ghost use Rattle.laws.specs.Said.{left_of, result_of};
ghost use Rattle.lcr_core.specs.Doors.{shell_answer, edge_answer, place_answer, outer_answer, inner_answer, mark_answer};
ghost use Rattle.lcr_core.specs.Version.{version_answer};
ghost use Rattle.c_cells.specs.Cells.{side_after, positions_after, edge_after, offset_after, x_after, y_after};

use lcr_core::version::Version;

// Cells on a side of a version's symbol, and positions round its ring.
#[unsafe(no_mangle)]
pub extern "C" fn lcr_version(version: u32, side: &mut u16, positions: &mut usize) -> u32
    ensures answer { result ≡ result_of (version_answer version) }
    ensures side { side.new ≡ side_after (version_answer version) side.old }
    ensures positions { positions.new
        ≡ positions_after (version_answer version) positions.old }
{
    c_cells::cells::put_version(Version::new(version), side, positions)
}

// How far outside the symbol a cell lies.
#[unsafe(no_mangle)]
pub extern "C" fn lcr_shell(version: u32, x: i32, y: i32, depth: &mut usize) -> u32
    ensures answer { result ≡ result_of (shell_answer version x y) }
    ensures depth { depth.new
        ≡ left_of (shell_answer version x y) depth.old }
{
    c_cells::cells::put_depth(lcr_core::doors::shell(version, x, y), depth)
}

// The edge that a cell sits on, and its coordinate along it.
#[unsafe(no_mangle)]
pub extern "C" fn lcr_edge_and_offset(
    version: u32,
    x: i32,
    y: i32,
    edge: &mut usize,
    offset: &mut i32,
) -> u32
    ensures answer { result ≡ result_of (edge_answer version x y) }
    ensures edge { edge.new ≡ edge_after (edge_answer version x y) edge.old }
    ensures offset { offset.new
        ≡ offset_after (edge_answer version x y) offset.old }
{
    c_cells::cells::put_edge(
        lcr_core::doors::edge_and_offset(version, x, y),
        edge,
        offset,
    )
}

// The position of a cell of the ring.
#[unsafe(no_mangle)]
pub extern "C" fn lcr_position(version: u32, x: i32, y: i32, position: &mut usize) -> u32
    ensures answer { result ≡ result_of (place_answer version x y) }
    ensures position { position.new
        ≡ left_of (place_answer version x y) position.old }
{
    c_cells::cells::put_place(lcr_core::doors::position(version, x, y), position)
}

// The outer cell of a position.
#[unsafe(no_mangle)]
pub extern "C" fn lcr_outer_cell(version: u32, p: usize, x: &mut i32, y: &mut i32) -> u32
    ensures answer { result ≡ result_of (outer_answer version p) }
    ensures x { x.new ≡ x_after (outer_answer version p) x.old }
    ensures y { y.new ≡ y_after (outer_answer version p) y.old }
{
    c_cells::cells::put_cell(lcr_core::doors::outer_cell(version, p), x, y)
}

// The inner cell of a position.
#[unsafe(no_mangle)]
pub extern "C" fn lcr_inner_cell(version: u32, p: usize, x: &mut i32, y: &mut i32) -> u32
    ensures answer { result ≡ result_of (inner_answer version p) }
    ensures x { x.new ≡ x_after (inner_answer version p) x.old }
    ensures y { y.new ≡ y_after (inner_answer version p) y.old }
{
    c_cells::cells::put_cell(lcr_core::doors::inner_cell(version, p), x, y)
}

// Whether the ring is light at a position.
#[unsafe(no_mangle)]
pub extern "C" fn lcr_sequence_light(version: u32, p: usize, light: &mut bool) -> u32
    ensures answer { result ≡ result_of (mark_answer version p) }
    ensures light { light.new ≡ left_of (mark_answer version p) light.old }
{
    c_cells::cells::put_mark(lcr_core::doors::sequence_light(version, p), light)
}
