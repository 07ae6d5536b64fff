// Ring marks, from ring.rs: light or dark at each position, and how far marks agree with the
// sequence of a version at the eight poses.
//
// Doors: `classify::classify` and `correlate::correlate`. Refusals: 8, a version outside 1..64;
// 11, marks or lumas not as many as the version's positions. `split::split_window` splits one window:
// 9, not 4 to 33 values; 10, a NaN or an infinity among them. No door has a `requires`.
#![tactic(auto)]

pub mod claims;
pub mod classify;
pub mod correlate;
pub mod split;
