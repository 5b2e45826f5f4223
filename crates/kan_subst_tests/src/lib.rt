//! Tests of bindings and of unification over them, for both bodies of the trait.
#![tactic(auto)]

#[cfg(test)]
mod cases;
#[cfg(test)]
mod occurring;
#[cfg(test)]
mod unifying;
#[cfg(test)]
mod versions;
