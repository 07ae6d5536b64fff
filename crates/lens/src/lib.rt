// The lens that a ring's bowed edges tell of: `bow_fit`, `estimate_lens` and `undistort` of the
// Rust's ring.rs.
#![tactic(auto)]

pub mod bow;
pub mod estimate;
pub mod measure;
pub mod outer;
pub mod straight;
mod weigh;
