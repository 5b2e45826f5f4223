//! Tests of what no clause says of the engine: that its calls answer, also on suspensions that are
//! deep.
#![tactic(auto)]

#[cfg(test)]
mod endless;
#[cfg(test)]
mod programs;
#[cfg(test)]
mod searches;
#[cfg(test)]
mod stores;
#[cfg(test)]
mod streams;
#[cfg(test)]
mod suspensions;
#[cfg(test)]
mod terms;
