//! Closing drafts, and reading programs.

ghost use Rattle.std.specs.Prelude.{◌≡◌, ◌<◌, ◌≤◌, ◌↔◌, ◌^◌, ◌+◌, ◌-◌, ◌&&◌, take, drop, nat_lt};
ghost use Rattle.std.specs.Prelude.{nat_le, min, length, map, true, false, IsTrue, IsSome};
ghost use Rattle.std.specs.Prelude.{slice_get, option_map};
ghost use Rattle.std.specs.Option.{option_copied};
ghost use Rattle.std.specs.List.{list_all};
ghost use Rattle.kan_model.specs.Programs.Tables.{are_closed, goal_at, template_of, program_of};
ghost use Rattle.kan_model.specs.Programs.Measures.{noted_width, goal_slots};
ghost use Rattle.kan_model.specs.Programs.Scope.{is_low, calls_there, body_in_scope, in_scope};
ghost use Rattle.kan_model.specs.Programs.Nodes.{term_entry, goal_entry, relation_entry};
ghost use Rattle.kan_model.specs.Programs.Nodes.{goal_place};
ghost use Rattle.kan_model.specs.Programs.Calls.{call_there};
ghost use Rattle.kan_model.specs.Programs.Drafts as drafts;
ghost use Rattle.kan_model.specs.Programs.Closed as programs;

use crate::draft::Draft;
use crate::nodes::{GoalNode, GoalRow, Query, Relation, TermNode};
use crate::program::{CloseRefused, Program};

// Whether a call names a relation that takes so many arguments.
fn is_call_there(relations: &[Relation], node: GoalNode) -> bool
    ensures { result ≡ call_there (map relation_entry relations.now) (goal_entry node) }
{
    match node {
        GoalNode::Call(relation, _, count) => match relations.get(relation as usize) {
            Some(found) => found.params == count,
            None => false,
        },
        _ => true,
    }
}

impl Draft {
    // Whether all templates are low enough.
    fn are_low(&self) -> bool
        ensures { result ≡ list_all (λ row. nat_le row.height 2048) self.now.terms.items }
    {
        self.terms.iter().all(|row| row.height <= 2048)
    }

    // Whether each call names a relation, and has as many arguments as it takes.
    fn are_calls_there(&self) -> bool
        ensures { result
            ≡ list_all
            (λ row. call_there (map relation_entry self.now.relations.items) (goal_entry row.node))
            self.now.goals.items }
    {
        self.goals
            .iter()
            .all(|row| is_call_there(&self.relations, row.node))
    }

    // The row of a goal.
    fn goal_row(&self, goal: u32) -> Option<&GoalRow>
        ensures { option_copied result ≡ slice_get self.now.goals.items goal }
    {
        self.goals.get(goal as usize)
    }

    // Whether a goal is there and uses only so many slots.
    fn uses_only(&self, goal: u32, slots: u32) -> bool
        ensures { result
            ≡ (nat_lt goal (length (drafts.tables self.now).goals)
            && in_scope slots (goal_at (drafts.goals self.now) goal)) }
    {
        match self.goal_row(goal) {
            Some(row) => row.slots <= u64::from(slots),
            None => false,
        }
    }

    // Whether each body uses only the slots of its arguments.
    fn are_bodies_in_scope(&self) -> bool
        ensures { result
            ≡ list_all (λ r. nat_lt r.body (length (drafts.tables self.now).goals)
            && in_scope r.params (goal_at (drafts.goals self.now) r.body))
            self.now.relations.items }
    {
        self.relations
            .iter()
            .all(|relation| self.uses_only(relation.body, relation.params))
    }

    // Whether the goals of all queries are there and use only slot 0.
    fn are_queries_closed(&self, queries: &[Query]) -> bool
        ensures { result
            ≡ list_all (λ query. nat_lt query.goal (length (drafts.tables self.now).goals)
            && in_scope 1 (goal_at (drafts.goals self.now) query.goal)) queries.now }
    {
        queries.iter().all(|query| self.uses_only(query.goal, 1))
    }

    // Whether the draft is complete for the goals of queries.
    fn is_closed(&self, queries: &[Query]) -> bool
        ensures { result ≡ are_closed (drafts.tables self.now) (map goal_place queries.now) }
    {
        let low = self.are_low();
        let calls = self.are_calls_there();
        let bodies = self.are_bodies_in_scope();
        let asked = self.are_queries_closed(queries);
        low & calls & bodies & asked
    }

    /// Makes a program of the draft, where it is complete for the goals of the queries.
    pub fn close(self, queries: &[Query]) -> Result<Program, CloseRefused>
        ensures { programs.Closes self (map goal_place queries.now) result }
    {
        if self.is_closed(queries) {
            Ok(Program { draft: self })
        } else {
            Err(CloseRefused::Open(self))
        }
    }
}

impl Program {
    /// The template at a place, and None exactly past the end. It takes no memory.
    pub fn term(&self, at: u32) -> Option<&TermNode>
        ensures { option_map term_entry (option_copied result)
            ≡ slice_get (programs.tables self.now).terms at }
    {
        match self.draft.terms.get(at as usize) {
            Some(row) => Some(&row.node),
            None => None,
        }
    }

    // The template at a place, and the empty list past the end.
    pub(crate) fn template_node(&self, at: u32) -> TermNode
        ensures { programs.template self.now at
            ≡ template_of (programs.templates self.now) (term_entry result) }
    {
        match self.term(at) {
            Some(node) => *node,
            None => TermNode::Nil,
        }
    }

    /// The goal at a place, and None exactly past the end. It takes no memory.
    pub fn goal(&self, at: u32) -> Option<&GoalNode>
        ensures { option_map goal_entry (option_copied result)
            ≡ slice_get (programs.tables self.now).goals at }
    {
        match self.draft.goals.get(at as usize) {
            Some(row) => Some(&row.node),
            None => None,
        }
    }

    /// The goal at a place, and the goal that fails past the end. It takes no memory.
    pub fn goal_node(&self, at: u32) -> GoalNode
        ensures is { programs.goal self.now at
            ≡ programs.entry_goal self.now (goal_entry result) }
        ensures placed { programs.ArgumentsPlaced self.now (goal_entry result) }
    {
        match self.goal(at) {
            Some(node) => *node,
            None => GoalNode::Fail,
        }
    }

    /// The argument at a place, a template by its place, and None exactly past the end. It takes no
    /// memory.
    pub fn argument(&self, at: u32) -> Option<u32>
        ensures { result ≡ slice_get (programs.tables self.now).arguments at }
    {
        self.draft.arguments.get(at as usize).copied()
    }

    /// So many arguments from a place on, templates by their places. It takes no memory.
    pub fn arguments(&self, at: u32, count: u32) -> &[u32]
        requires { at + count ≤ length (programs.tables self.now).arguments }
        ensures { result.now ≡ take count (drop at (programs.tables self.now).arguments) }
    {
        let from = at as usize;
        &self.draft.arguments[from..from + count as usize]
    }

    /// The relation at a place, and None exactly past the end. It takes no memory.
    pub fn relation(&self, at: u32) -> Option<&Relation>
        ensures { option_map relation_entry (option_copied result)
            ≡ slice_get (programs.tables self.now).relations at }
    {
        self.draft.relations.get(at as usize)
    }

    /// How many variables the goal at a place can take before its calls are forced, or the greatest
    /// u32 where they are more; None exactly past the end. It takes no memory.
    pub fn width(&self, at: u32) -> Option<u32>
        ensures { result ≡ option_map noted_width (slice_get (programs.goals self.now) at) }
    {
        match self.draft.goal_row(at) {
            Some(row) => Some(row.width),
            None => None,
        }
    }
}
