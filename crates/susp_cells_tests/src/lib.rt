//! Tests of what no clause says of the shared table: that suspensions are settled and found, also
//! by two threads, and that long chains of them are dropped.
#![tactic(auto)]

#[cfg(test)]
mod calls;
#[cfg(test)]
mod chains;
#[cfg(test)]
mod programs;
#[cfg(test)]
mod races;
pub mod racing;
#[cfg(test)]
mod settling;
