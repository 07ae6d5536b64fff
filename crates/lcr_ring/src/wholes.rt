// Hull and quad in whole numbers for C: the doors of crates `doubled`, `whole_hull` and `whole_quad`.
// Points are x and y by turns, in doubled coordinates from 0 to 8,192. Refusals, in order: 6, 3, 21.
ghost use Rattle.std.specs.Prelude.{◌≡◌, length};
ghost use Rattle.laws.specs.Said.{result_of, left_by, left_of};
ghost use Rattle.doubled.specs.Doubled.{check_doubled, doubled_after};
ghost use Rattle.whole_hull.specs.Door.{hull_answer, hull_after};
ghost use Rattle.whole_quad.specs.Door.{quad_answer, quad_numbers};

// Twice each number of the points that the outline door lists, as whole numbers.
#[unsafe(no_mangle)]
pub extern "C" fn lcr_doubled(points: &[f32], out: &mut [u32]) -> u32
    ensures answer { result ≡ check_doubled points.now (length out.old) }
    ensures out { out.new ≡ doubled_after result points.now out.old }
{
    c_answers::number(doubled::doubled(points, out))
}

// The vertices of the hull of points, and how many there are.
#[unsafe(no_mangle)]
pub extern "C" fn lcr_whole_hull(points: &[u32], out: &mut [u32], vertices: &mut usize) -> u32
    ensures answer { result ≡ result_of (hull_answer points.now (length out.old)) }
    ensures vertices { vertices.new
        ≡ left_of (hull_answer points.now (length out.old))
        vertices.old }
    ensures out { out.new
        ≡ hull_after (hull_answer points.now (length out.old))
        points.now out.old }
{
    let a = whole_hull::convex_hull(points, out);
    c_pictures::wholes::put_vertices(a, vertices)
}

// The quad of the vertices of a hull.
#[unsafe(no_mangle)]
pub extern "C" fn lcr_whole_quad(vertices: &[u32], quad: &mut [u32; 8]) -> u32
    ensures answer { result ≡ result_of (quad_answer vertices.now) }
    ensures quad { quad.new
        ≡ left_by quad_numbers (quad_answer vertices.now) quad.old }
{
    c_pictures::wholes::put_corners(whole_quad::quad(vertices), quad)
}
