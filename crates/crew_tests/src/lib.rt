//! Tests of budgets and deques between threads.
#![tactic(auto)]

#[cfg(test)]
mod asking;
#[cfg(test)]
mod budgets;
#[cfg(test)]
mod deques;
#[cfg(test)]
mod tasks;
