//! Tests of what no clause says of texts: that worked texts have the data and the programs that
//! they must.
#![tactic(auto)]

#[cfg(test)]
mod libraries;
#[cfg(test)]
mod printing;
#[cfg(test)]
mod programs;
#[cfg(test)]
mod searches;
#[cfg(test)]
mod spelling;
