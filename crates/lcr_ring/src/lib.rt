// The finder as a static library for C and Rust: one function for each door, and for the entries
// beside them. include/lcr_ring.h says of each what it takes and gives.
//
// A slice is a pointer and how many elements it has; a fixed array is a pointer. A result is 0
// where the call is accepted and answered, 255 where it is accepted and there is nothing to answer,
// else the number of the refusal. On 0 every out-parameter is written, else none is. A
// list that only the C function has is checked first: 3 where it is too short, and nothing is
// called then.
#![tactic(auto)]

pub mod boxes;
pub mod cells;
pub mod equations;
pub mod files;
pub mod finds;
pub mod listings;
pub mod maps;
pub mod outlines;
pub mod pictures;
pub mod plates;
pub mod poses;
pub mod rings;
pub mod rows;
pub mod wholes;
