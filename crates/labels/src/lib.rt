// Region cells and their labels, with their definitions: the second half of `InkMap::new` of ring.rs.
#![tactic(auto)]

pub mod cells;
pub mod claims;
pub mod groups;
