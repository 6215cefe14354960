// Slices that a caller lends: a guard that clears them, and a first-in first-out list over them.
#![tactic(auto)]

pub mod scratch;
pub mod waiting;
