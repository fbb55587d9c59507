//! What holds of the two ends of every session in every run of a grand world. Each function has an empty body: its clauses are what is
//! proved.
//!
//! It holds no code that runs. What a run is, and that a world in memory is one, is in the crate of the world.
#![tactic(auto)]

pub mod laws;
