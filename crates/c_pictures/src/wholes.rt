// What the doors of hull and quad in whole numbers answer.
ghost use Rattle.std.specs.Prelude.{◌≡◌};
ghost use Rattle.laws.specs.Said.{result_of, left_by, left_of};
ghost use Rattle.refusal.specs.Numbers.{said, said_some};
ghost use Rattle.whole_quad.specs.Door.{quad_numbers};

use refusal::Refusal;
use whole_quad::corners::Quad;

// How many vertices there are.
pub fn put_vertices(answer: Result<usize, Refusal>, vertices: &mut usize) -> u32
    ensures answer { result ≡ result_of (said answer) }
    ensures vertices { vertices.new ≡ left_of (said answer) vertices.old }
{
    c_answers::put(answer, vertices)
}

// The eight numbers of a quad.
fn numbers(q: Quad) -> [u32; 8]
    ensures { result ≡ quad_numbers q }
{
    let a = q.a;
    let b = q.b;
    let c = q.c;
    let d = q.d;
    [a.x, a.y, b.x, b.y, c.x, c.y, d.x, d.y]
}

// The corners.
pub fn put_corners(answer: Result<Option<Quad>, Refusal>, quad: &mut [u32; 8]) -> u32
    ensures answer { result ≡ result_of (said_some answer) }
    ensures quad { quad.new ≡ left_by quad_numbers (said_some answer) quad.old }
{
    match answer {
        Ok(found) => c_answers::put_some(Ok(found.map(numbers)), quad),
        Err(r) => r.number(),
    }
}
