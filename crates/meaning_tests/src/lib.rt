//! Tests of the check of derivations: steps that spell one, and steps with one changed, left out or
//! added.
#![tactic(auto)]

#[cfg(test)]
mod derivations;
#[cfg(test)]
mod spelled;
