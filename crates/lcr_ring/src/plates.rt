// Proof rings for C: the doors of crate `proof_ring`. Refusals, in order: 8, 1, 2, 16; of the
// reading then 11.
ghost use Rattle.std.specs.Prelude.{◌≡◌};
ghost use Rattle.laws.specs.Said.{result_of};
ghost use Rattle.proof_ring.specs.Doors.{draw_answer, pixels_after, read_answer, marks_after};

// The ring of a version drawn into a picture.
#[unsafe(no_mangle)]
pub extern "C" fn lcr_draw_ring(
    version: u32,
    pitch: u32,
    corner: u32,
    reversed: bool,
    gray: &mut [u8],
    width: usize,
    height: usize,
) -> u32
    ensures answer { result ≡ result_of (draw_answer version pitch corner gray.old
        width height) }
    ensures gray { gray.new
        ≡ pixels_after (draw_answer version pitch corner gray.old width height)
        version pitch corner reversed gray.old width height }
{
    c_cells::plates::number_of(proof_ring::draw_ring(
        version, pitch, corner, reversed, gray, width, height,
    ))
}

// The marks of a version's ring, read from the centres of its outer cells.
#[unsafe(no_mangle)]
pub extern "C" fn lcr_read_ring(
    version: u32,
    pitch: u32,
    gray: &[u8],
    width: usize,
    height: usize,
    marks: &mut [bool],
) -> u32
    ensures answer { result ≡ result_of (read_answer version pitch gray.now width height
        marks.old) }
    ensures marks { marks.new
        ≡ marks_after (read_answer version pitch gray.now width height
        marks.old) version pitch gray.now width marks.old }
{
    c_cells::plates::number_of(proof_ring::read_ring(version, pitch, gray, width, height, marks))
}
