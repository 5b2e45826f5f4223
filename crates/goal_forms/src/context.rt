//! What forms are read in.

use crate::flat_data::FlatData;
use crate::relations::Relations;
use kan_grammar::Dialect;
use kan_terms::Names;
use std::alloc::Global;

/// What the forms of a text are read in: their data, the table of names, and the relations that are
/// defined.
#[derive(Drop)]
pub struct Context<'a> {
    /// What memory is taken from.
    pub alloc: Global,
    /// The data.
    pub flat: &'a FlatData,
    /// The table of names.
    pub names: &'a Names,
    /// The relations that are defined.
    pub relations: &'a Relations,
    /// The dialect in which goals are built.
    pub dialect: Dialect,
}
