// The ring door: `attempt` of the Rust's ring.rs with its trace.
//
// Door: `door::attempt`. Refusals in order: 1, a side outside 1..4,096; 2, bytes not width ×
// height; 6, an odd list, or over 16,384 points; 3, a working list with fewer numbers than the list
// of points; 7, a coordinate not finite or beyond ±32,768; 8, a greatest version outside 1..64. It
// has no `requires`.
#![tactic(auto)]

pub mod attempt;
pub mod door;
pub mod quads;
pub mod refusals;
