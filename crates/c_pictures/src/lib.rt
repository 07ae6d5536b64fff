// Regions, outlines, quads, PGM files and counts of rows put into the out-parameters of C functions.
//
// A result is 0 where there is an answer, 255 where there is none, else the number of the refusal. On 0 every out-parameter is written, else none is.
#![tactic(auto)]

pub mod files;
pub mod kept;
pub mod rows;
pub mod shapes;
pub mod wholes;
