//! Drafts that keep room for more.

ghost use Rattle.std.specs.Prelude.{List, ◌≡◌, ◌&&◌, ◌<◌, length, true, IfOk, OnOk};
ghost use Rattle.kan_model.specs.Programs.Calls.{call_there};
ghost use Rattle.goal_syntax.specs.Building.CallsThere.{are_there};
ghost use Rattle.kan_model.specs.Programs.Tables.{RelationEntry, is_term_grown, is_goal_grown};
ghost use Rattle.kan_model.specs.Programs.Tables.{template_of, goal_of, with_argument};
ghost use Rattle.kan_model.specs.Programs.Nodes.{term_entry, goal_entry};
ghost use Rattle.kan_model.specs.Programs.Drafts.{tables, templates, goals};
ghost use Rattle.std.specs.List.{list_all};
ghost use Rattle.kan_model.specs.Programs.Scope.{is_low};
ghost use Rattle.goal_syntax.specs.Building.GrownTables.{HasTemplate, HasGoal, Grows};
ghost use Rattle.goal_syntax.specs.Building.Entries.{Adds, HasRoomFor};
ghost use Rattle.goal_syntax.specs.Building.Widths.{Widens};
ghost use Rattle.kan_model.specs.Programs.Scope.{width};
ghost use Rattle.goal_syntax.specs.Building.Named.{Lacks, goal_unnamed, term_unnamed};
ghost use Rattle.kan_terms.specs.Table.{Table};

use kan_model::{Draft, GoalNode, TermNode};
use kan_terms::Memory;

/// Adds a template, and gives its place.
pub(crate) fn add_term(draft: &mut Draft, node: TermNode) -> Result<u32, Memory>
    requires there { is_term_grown (length (tables draft.old).terms) (term_entry node) ≡ true }
    requires room { HasRoomFor 1 (tables draft.old) }
    ensures made { IfOk result
        (λ at. HasTemplate (tables draft.new) at
        (template_of (templates draft.old) (term_entry node))) }
    ensures grows { OnOk result (Grows (tables draft.old) (tables draft.new)) }
    ensures room { OnOk result (Adds 1 (tables draft.old) (tables draft.new)) }
    ensures same { OnOk result ((tables draft.new).goals ≡ (tables draft.old).goals) }
    ensures low { OnOk result
        (is_low (template_of (templates draft.old) (term_entry node))
        ≡ true → list_all is_low (templates draft.old)
        ≡ true → list_all is_low (templates draft.new) ≡ true) }
    ensures named { OnOk result ((names : Table) →
        Lacks names (term_unnamed names (term_entry node)) (tables draft.old) (tables draft.new)) }
{
    let at = draft.term(node)?;
    Ok(at)
}

/// Puts a template, by its place, behind the arguments that are there.
pub(crate) fn add_argument(draft: &mut Draft, term: u32) -> Result<u32, Memory>
    requires there { term < length (tables draft.old).terms }
    requires room { HasRoomFor 1 (tables draft.old) }
    ensures put { OnOk result (tables draft.new ≡ with_argument (tables draft.old) term) }
    ensures place { IfOk result (λ at. at ≡ length (tables draft.old).arguments) }
    ensures grows { OnOk result (Grows (tables draft.old) (tables draft.new)) }
    ensures room { OnOk result (Adds 1 (tables draft.old) (tables draft.new)) }
    ensures named { OnOk result ((names : Table) →
        Lacks names 0 (tables draft.old) (tables draft.new)) }
{
    let at = draft.argument(term)?;
    Ok(at)
}

/// Adds a goal, and gives its place.
pub(crate) fn add_goal(draft: &mut Draft, node: GoalNode) -> Result<u32, Memory>
    requires there { is_goal_grown (tables draft.old) (length (tables draft.old).goals)
        (goal_entry node) ≡ true }
    requires room { HasRoomFor 1 (tables draft.old) }
    ensures made { IfOk result
        (λ at. HasGoal (tables draft.new) at
        (goal_of (templates draft.old) (tables draft.old).arguments (goals draft.old)
        (goal_entry node))) }
    ensures grows { OnOk result (Grows (tables draft.old) (tables draft.new)) }
    ensures room { OnOk result (Adds 1 (tables draft.old) (tables draft.new)) }
    ensures terms { OnOk result ((tables draft.new).terms ≡ (tables draft.old).terms) }
    ensures called { OnOk result
        ((rows : List RelationEntry) → are_there rows (tables draft.new).goals
        ≡ (are_there rows (tables draft.old).goals && call_there rows (goal_entry node))) }
    ensures narrow { OnOk result (Widens
        (width (goal_of (templates draft.old) (tables draft.old).arguments (goals draft.old)
        (goal_entry node))) (tables draft.old) (tables draft.new)) }
    ensures named { OnOk result ((names : Table) →
        Lacks names (goal_unnamed names (goal_entry node)) (tables draft.old) (tables draft.new)) }
{
    let at = draft.goal(node)?;
    Ok(at)
}
