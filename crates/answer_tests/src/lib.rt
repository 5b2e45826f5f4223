//! Tests of which ground terms the answer of a line covers.
#![tactic(auto)]

#[cfg(test)]
mod lines;
