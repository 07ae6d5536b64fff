// Quads and lenses from the words of a call.
ghost use Rattle.std.specs.Prelude.{◌≤◌};

use hull::points::{Point, Quad};
use lens::straight::Lens;
use word_numbers::floats;

// The point whose coordinates are the words at k and after it.
fn point(args: &[u32], k: usize) -> Point
    requires { k ≤ 100 }
{
    Point {
        x: floats::at32(args, k),
        y: floats::at32(args, k + 1),
    }
}

// The quad of the eight words from k on.
pub(crate) fn quad(args: &[u32], k: usize) -> Quad
    requires { k ≤ 90 }
{
    let a = point(args, k);
    let b = point(args, k + 2);
    let c = point(args, k + 4);
    let d = point(args, k + 6);
    Quad {
        a: a,
        b: b,
        c: c,
        d: d,
    }
}

// The lens of the three words from k on.
pub(crate) fn lens(args: &[u32], k: usize) -> Lens
    requires { k ≤ 90 }
{
    Lens {
        x: floats::at32(args, k),
        y: floats::at32(args, k + 1),
        k: floats::at32(args, k + 2),
    }
}
