//! Derivations of goals at ground values, and the check that steps spell one.
#![tactic(auto)]

mod checking;
mod following;
mod holding;
pub mod laws;
mod steps;
mod values;

pub use checking::check;
pub use steps::{Derivation, Step, Steps};
