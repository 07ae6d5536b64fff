// Lines, crossings and corners from boundary points: what the Rust's ring.rs fits between the hull
// and the search over versions.
#![tactic(auto)]

pub mod consensus;
pub mod corners;
pub mod edges;
pub mod line;
pub mod middle;
