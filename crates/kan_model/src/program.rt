//! Programs, which are complete drafts.

ghost use Rattle.std.specs.Prelude.{IsTrue, []};
ghost use Rattle.kan_model.specs.Programs.Tables.{are_closed};
ghost use Rattle.kan_model.specs.Programs.Nodes.{tables_from};

use crate::draft::Draft;

/// A program: tables of templates, goals, arguments and relations that are complete. All that a
/// goal names is there, each call has as many arguments as its relation takes, and bodies use only
/// the slots that they have.
#[derive(Drop)]
pub struct Program {
    pub(crate) draft: Draft,
    ghost closed: { IsTrue (are_closed (tables_from draft.terms.items draft.arguments.items
        draft.goals.items draft.relations.items) []) },
}

/// Why a draft is no program. The draft comes back as it was.
#[derive(Drop)]
pub enum CloseRefused {
    /// Something is open: a query's goal isn't there, a call names no relation or has another
    /// number of arguments, a body or a query's goal uses a slot that isn't in scope, or a template
    /// is higher than 2,048 pairs.
    Open(Draft),
    /// Memory is wanting.
    Memory(Draft),
}
