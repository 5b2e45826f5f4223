//! The forms of texts: data flattened into a table of parts, and terms, goals and top forms parsed
//! from it one step at a time.
#![tactic(auto)]

mod binder;
mod context;
mod definitions;
mod flat_data;
mod flatten;
mod form;
mod goal;
mod head;
mod limits;
mod prefixes;
mod relations;
mod scope;
mod shape;
mod term;
mod word;

pub use binder::{add_name, binder_names, bound_names, enter, may_bind, quoted_symbol};
pub use context::Context;
pub use definitions::{count_defined, define};
pub use flat_data::{FlatData, FlatPart, Part};
pub use flatten::turn_both;
pub use form::{Form, defined_by, parse_form};
pub use goal::{Goal, parse_goal};
pub use head::{head_name, head_params};
pub use limits::limit;
pub use prefixes::{Prefixes, number_prefixes};
pub use relations::{Defined, Relations};
pub use scope::{slot_of, unnamed};
pub use shape::{first, head_word, is_end, is_proper, pair_parts, rest};
pub use term::{Step, Task, parse_task};
pub use word::{Word, word_of_symbol};
