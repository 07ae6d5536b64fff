// The quad of the vertices of a hull in whole numbers, x and y alternating, doubled coordinates
// from 0 to 8,192: the Rust's rule, worked out exactly.
//
// Door: `quad`. Refusals, in order: 6, an odd list, or over 16,384 points; 21, a coordinate outside
// 0..8,192.
#![tactic(auto)]

ghost use Rattle.std.specs.Prelude.{◌≡◌};
ghost use Rattle.refusal.specs.Numbers.{said_some};
ghost use Rattle.whole_quad.specs.Door.{quad_answer};

use crate::corners::Quad;
use doubled::refusals::check_quad;
use refusal::Refusal;

pub mod corners;
mod points;
mod sides;

// The quad of the vertices p of a hull: the farthest pair, and the farthest point on either side of
// it.
pub fn quad(p: &[u32]) -> Result<Option<Quad>, Refusal>
    ensures { said_some result ≡ quad_answer p.now }
{
    check_quad(p)?;
    Ok(sides::quad_of(p))
}
