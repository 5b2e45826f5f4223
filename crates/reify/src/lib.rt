//! Answers of stores: the query's term with its variables named, what is left of the constraints,
//! and their text.
#![tactic(auto)]

mod absences;
mod answering;
mod answers;
mod choosing;
mod comparing;
mod constraints;
mod fitting;
mod forms;
mod keeping;
mod naming;
mod ordering;
mod printing;
mod shaping;
mod typing;
mod walking;
mod writing;

pub use absences::texts_differ;
pub use answering::answer_of;
pub use answers::{Absence, Answer};
pub use constraints::{print_answer, print_difference};
pub use ordering::texts_rise;
pub use shaping::{NamePair, NamePairs, Shape, Shapes};
