//! What stores mean: the ground terms for variables under which all their primitives hold.
#![tactic(auto)]

pub mod laws;
