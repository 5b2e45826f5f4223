//! Tests of workers: what one settles is what one thread finds.
#![tactic(auto)]

#[cfg(test)]
mod chains;
#[cfg(test)]
mod programs;
pub mod running;
#[cfg(test)]
mod workers;
