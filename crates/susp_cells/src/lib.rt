//! Suspensions that threads share: one table, in which each is settled once.
#![tactic(auto)]

mod cells;
mod forced;
mod gates;
pub mod laws;
mod seen;
mod settling;
mod shared_nodes;
mod suspensions;
mod tables;
mod tops;

pub use forced::{Forced, Known, Settled};
pub use gates::{Gate, OpenGate};
pub use shared_nodes::SharedNodes;
pub use suspensions::Susp;
pub use tables::Table;
