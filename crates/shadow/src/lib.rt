// How far a shadow reaches: theorems only.
#![tactic(auto)]

pub mod claims;
