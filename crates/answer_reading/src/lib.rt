//! Lines of answers read back, and the ground terms that an answer covers.
#![tactic(auto)]

mod constraints;
mod forming;
mod instances;
mod marks;
mod meeting;
mod ordering;
mod reading;
mod values;

pub use instances::is_instance;
pub use reading::{AnswerFault, read_answer};
