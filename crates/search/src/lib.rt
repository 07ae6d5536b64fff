// The search over versions for one candidate quad: `ring_transform`, `ring_lumas` and the loop of
// `correlate_quad` of the Rust's ring.rs. The loop is a step on a state by value, with a run above.
#![tactic(auto)]

pub mod claims;
pub mod geometry;
pub mod lumas;
pub mod samples;
pub mod versions;
