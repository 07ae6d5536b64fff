// The outline door's answer, and a quad's corners as eight numbers.
ghost use Rattle.std.specs.Prelude.{◌≡◌, Some};
ghost use Rattle.laws.specs.Said.{left_of, result_of};
ghost use Rattle.refusal.specs.Numbers.{said};
ghost use Rattle.hull.specs.Quad.{values_of};

use hull::points::Quad;
use refusal::Refusal;

// How many points there are.
pub fn put_many(answer: Result<usize, Refusal>, points: &mut usize) -> u32
    ensures answer { result ≡ result_of (said answer) }
    ensures points { points.new ≡ left_of (said answer) points.old }
{
    c_answers::put(answer, points)
}

// The eight numbers of a quad.
// Kept: beside that of `wholes`; quads of f32 and of u32 are types of two crates.
pub fn numbers(q: Quad) -> [f32; 8]
    ensures { result ≡ values_of (Some q) }
{
    let a = q.a;
    let b = q.b;
    let c = q.c;
    let d = q.d;
    [a.x, a.y, b.x, b.y, c.x, c.y, d.x, d.y]
}
