//! The program as a call: from the words and bytes that it is given to the bytes that it writes.
#![tactic(auto)]

mod answer;
mod complaints;
mod refusal;
mod settings;
mod text;
mod top;
mod writing;

pub use complaints::complaint;
pub use top::{kanren_alone, kanren_over};
