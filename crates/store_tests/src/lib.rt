//! Tests of stores of constraints: worked lists of primitives over the plain store and the solved
//! one, and random ones beside a search for solutions.
#![tactic(auto)]

#[cfg(test)]
mod asked;
#[cfg(test)]
mod kept;
#[cfg(test)]
mod random;
#[cfg(test)]
mod sketches;
#[cfg(test)]
mod solutions;
