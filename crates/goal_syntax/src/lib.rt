//! The grammar of texts: which program and which runs the data of a text are, or which fault they
//! have.
#![tactic(auto)]

mod build_form;
mod build_goal;
mod build_node;
mod build_run;
mod build_term;
mod compiler;
mod drafting;
mod fault;
mod join_goal;
mod judge_binder;
mod judge_form;
mod judge_goal;
mod judge_term;
mod judge_text;
mod refusal;

pub use compiler::{Compiled, Queries, compile};
pub use refusal::SyntaxError;
