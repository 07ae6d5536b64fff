// Outlines, hulls and quads for C: the outline door, with the refusals 1, 2, 5 and 3 in this order,
// the hull's door with refusal 3, and `quad`. Points are x and y by turns.
ghost use Rattle.std.specs.Prelude.{◌≡◌, length};
ghost use Rattle.laws.specs.Move.{box_at};
ghost use Rattle.laws.specs.Said.{result_of, left_of};
ghost use Rattle.hull.specs.Door.{hulled, vertices_after};
ghost use Rattle.hull.specs.Quad.{quad_floats, quad_said};
ghost use Rattle.outline.specs.Door.{outline_answer, outline_after};

// The boundary points of a region's box, and how many there are.
#[unsafe(no_mangle)]
pub extern "C" fn lcr_outline(
    gray: &[u8],
    levels: &[u8],
    labels: &[u32],
    want: u32,
    width: usize,
    height: usize,
    x0: usize,
    y0: usize,
    x1: usize,
    y1: usize,
    out: &mut [f32],
    points: &mut usize,
) -> u32
    ensures answer { result ≡ result_of (outline_answer gray.now levels.now
        labels.now want width height
        (box_at x0 y0 x1 y1) (length out.old)) }
    ensures points { points.new ≡ left_of (outline_answer gray.now levels.now
        labels.now want width height
        (box_at x0 y0 x1 y1) (length out.old))
        points.old }
    ensures out { out.new ≡ outline_after gray.now levels.now
        labels.now want width height (box_at x0 y0 x1 y1)
        out.old }
{
    let a = outline::outline(
        gray, levels, labels, want, width, height, x0, y0, x1, y1, out,
    );
    c_pictures::shapes::put_many(a, points)
}

// The vertices of the hull of points, and how many there are. 3 where out has fewer numbers.
#[unsafe(no_mangle)]
pub extern "C" fn lcr_convex_hull(points: &[f32], out: &mut [f32], vertices: &mut usize) -> u32
    ensures answer { result ≡ result_of (hulled points.now (length out.old)) }
    ensures vertices { vertices.new
        ≡ left_of (hulled points.now (length out.old))
        vertices.old }
    ensures out { out.new
        ≡ vertices_after (hulled points.now (length out.old))
        points.now out.old }
{
    c_answers::put(hull::convex_hull(points, out), vertices)
}

// The quad of the vertices of a hull.
#[unsafe(no_mangle)]
pub extern "C" fn lcr_quad(vertices: &[f32], quad: &mut [f32; 8]) -> u32
    ensures answer { result ≡ result_of (quad_said (quad_floats vertices.now)) }
    ensures quad { quad.new
        ≡ left_of (quad_said (quad_floats vertices.now)) quad.old }
{
    match hull::quad(vertices) {
        Some(q) => {
            *quad = c_pictures::shapes::numbers(q);
            0
        }
        None => c_answers::NONE,
    }
}
