// Runs and boundary points: definitions, and what the moves of a picture do to boundary points,
// hull and quad.
#![tactic(auto)]
