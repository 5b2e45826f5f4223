//! Bindings: in a persistent tree, and in one list, the plain body of the trait.
#![tactic(auto)]

mod history;
mod list_bindings;
mod tree_bindings;

pub use list_bindings::ListBindings;
pub use tree_bindings::TreeBindings;
