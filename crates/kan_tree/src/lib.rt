//! A persistent tree from variables to values, which is changed in place where nobody else holds
//! it.
#![tactic(auto)]

mod again;
mod front;
mod heights;
mod nodes;
mod order;
mod slots;
mod var_tree;

pub use again::Again;
pub use var_tree::VarTree;
