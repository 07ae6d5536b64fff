// Demand 3 as one claim, what the doors make of it, and rule 49's lines as one table.
// `specs/` has the statements; `claims` makes the gate count them.
#![tactic(auto)]

pub mod claims;
