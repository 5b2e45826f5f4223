//! Programs as they are made, entry after entry.

ghost use Rattle.std.specs.Prelude.{◌≡◌, IsTrue};
ghost use Rattle.kan_model.specs.Programs.Tables.{is_grown, templates_of, goals_of};
ghost use Rattle.kan_model.specs.Programs.Nodes.{term_entries, tables_from};
ghost use Rattle.kan_model.specs.Programs.Rows.{HeightsNoted, SlotsNoted, WidthsNoted};
ghost use Rattle.kan_model.specs.Programs.Rows.{GoalSlotsNoted};

use crate::nodes::{GoalNode, GoalRow, Relation, TermNode, TermRow};
use kan_terms::Memory;
use std::alloc::Global;

/// The tables of a program that grows. Each entry names entries that are there already, but a call
/// may name a relation that comes later.
#[derive(Drop)]
pub struct Draft {
    pub(crate) terms: Vec<TermRow>,
    pub(crate) arguments: Vec<u32>,
    pub(crate) goals: Vec<GoalRow>,
    pub(crate) relations: Vec<Relation>,
    ghost grown: { IsTrue (is_grown
        (tables_from terms.items arguments.items goals.items relations.items)) },
    ghost heights: { HeightsNoted terms.items (templates_of (term_entries terms.items)) },
    ghost slots: { SlotsNoted terms.items (templates_of (term_entries terms.items)) },
    ghost widths: { WidthsNoted goals.items
        (goals_of (tables_from terms.items arguments.items goals.items relations.items)) },
    ghost goal_slots: { GoalSlotsNoted goals.items
        (goals_of (tables_from terms.items arguments.items goals.items relations.items)) },
}

impl Draft {
    ghost use Rattle.std.specs.Prelude.{◌<◌, ◌≤◌, ◌-◌, ◌+◌, ◌^◌, min, max, [], ◌∷◌, ◌++◌, length};
    ghost use Rattle.std.specs.Prelude.{true, IfOk, OnOk, OnErr};
    ghost use Rattle.kan_model.specs.Programs.Measures.{slots, most_slots, goal_slots};
    ghost use Rattle.kan_model.specs.Programs.Measures.{noted_height, noted_width};
    ghost use Rattle.kan_model.specs.Programs.Tables.{template_at, template_of, goal_at, goal_of};
    ghost use Rattle.kan_model.specs.Programs.Tables.{is_term_grown, is_goal_grown, arguments_at};
    ghost use Rattle.kan_model.specs.Programs.Tables.{with_term, with_argument, with_goal};
    ghost use Rattle.kan_model.specs.Programs.Tables.{with_relation};
    ghost use Rattle.kan_model.specs.Programs.Nodes.{term_entry, goal_entry, relation_entry};
    ghost use Rattle.kan_model.specs.Programs.Drafts.{tables, templates, goals};

    /// The draft without entries.
    pub fn new(alloc: Global) -> Draft
        ensures { tables result ≡ record {
          terms = [];
          arguments = [];
          goals = [];
          relations = [];
        } }
    {
        Draft {
            terms: Vec::new(alloc),
            arguments: Vec::new(alloc),
            goals: Vec::new(alloc),
            relations: Vec::new(alloc),
        }
    }

    // How high a template is, as it is noted.
    fn noted_height(&self, node: TermNode) -> u32
        requires { is_term_grown (length self.now.terms.items) (term_entry node) ≡ true }
        ensures { result ≡ noted_height (template_of (templates self.now) (term_entry node)) }
    {
        match node {
            TermNode::Pair(first, rest) => {
                let first = self.terms[first as usize].height;
                let rest = self.terms[rest as usize].height;
                first.max(rest).min(2048) + 1
            }
            _ => 0,
        }
    }

    // How many slots must be in scope for one template of the table.
    fn one_slots(&self, term: u32) -> u64
        requires { term < length self.now.terms.items }
        ensures { result ≡ slots (template_at (templates self.now) term) }
    {
        self.terms[term as usize].slots
    }

    // How many slots must be in scope for two templates of the table.
    fn two_slots(&self, left: u32, right: u32) -> u64
        requires left { left < length self.now.terms.items }
        requires right { right < length self.now.terms.items }
        ensures { result
            ≡ max (slots (template_at (templates self.now) left))
            (slots (template_at (templates self.now) right)) }
    {
        self.one_slots(left).max(self.one_slots(right))
    }

    // How many slots must be in scope for a template.
    fn term_slots(&self, node: TermNode) -> u64
        requires { is_term_grown (length self.now.terms.items) (term_entry node) ≡ true }
        ensures { result ≡ slots (template_of (templates self.now) (term_entry node)) }
    {
        match node {
            TermNode::Slot(slot) => u64::from(slot) + 1,
            TermNode::Pair(first, rest) => self.two_slots(first, rest),
            _ => 0,
        }
    }

    // How many slots must be in scope for arguments.
    fn argument_slots(&self, at: u32, count: u32) -> u64
        requires { at + count ≤ length self.now.arguments.items }
        ensures { result
            ≡ most_slots (arguments_at (templates self.now) self.now.arguments.items at count) }
    {
        let from = at as usize;
        let to = from + count as usize;
        let mut most = 0;
        for term in &self.arguments[from..to] {
            most = self.one_slots(*term).max(most);
        }
        most
    }

    // The width of a goal of the table, as it is noted.
    fn one_width(&self, goal: u32) -> u32
        requires { goal < length self.now.goals.items }
        ensures { result ≡ noted_width (goal_at (goals self.now) goal) }
    {
        self.goals[goal as usize].width
    }

    // The sum of two widths, as far as it is noted.
    fn added_width(left: u32, right: u32) -> u32
        ensures { result ≡ min (left + right) (2 ^ 32 - 1) }
    {
        left.checked_add(right).unwrap_or(u32::MAX)
    }

    // The width of a goal, as it is noted.
    fn noted_width(&self, node: GoalNode) -> u32
        requires { is_goal_grown (tables self.now) (length self.now.goals.items) (goal_entry node)
            ≡ true }
        ensures { result
            ≡ noted_width
            (goal_of (templates self.now) self.now.arguments.items (goals self.now)
            (goal_entry node)) }
    {
        match node {
            GoalNode::Both(left, right) | GoalNode::Either(left, right) => {
                Draft::added_width(self.one_width(left), self.one_width(right))
            }
            GoalNode::Fresh(count, goal) => Draft::added_width(count, self.one_width(goal)),
            GoalNode::Later(goal) => self.one_width(goal),
            GoalNode::Call(_, _, count) => count,
            _ => 0,
        }
    }

    // How many slots must be in scope for a goal of the table.
    fn one_goal_slots(&self, goal: u32) -> u64
        requires { goal < length self.now.goals.items }
        ensures { result ≡ goal_slots (goal_at (goals self.now) goal) }
    {
        self.goals[goal as usize].slots
    }

    // How many slots must be in scope for a goal.
    fn goal_slots(&self, node: GoalNode) -> u64
        requires { is_goal_grown (tables self.now) (length self.now.goals.items) (goal_entry node)
            ≡ true }
        ensures { result
            ≡ goal_slots
            (goal_of (templates self.now) self.now.arguments.items (goals self.now)
            (goal_entry node)) }
    {
        match node {
            GoalNode::Succeed | GoalNode::Fail => 0,
            GoalNode::Same(left, right) => self.two_slots(left, right),
            GoalNode::Differ(left, right) => self.two_slots(left, right),
            GoalNode::Symbol(term) => self.one_slots(term),
            GoalNode::Number(term) => self.one_slots(term),
            GoalNode::Text(term) => self.one_slots(term),
            GoalNode::Absent(_, term) => self.one_slots(term),
            GoalNode::Both(left, right) => {
                self.one_goal_slots(left).max(self.one_goal_slots(right))
            }
            GoalNode::Either(left, right) => {
                self.one_goal_slots(left).max(self.one_goal_slots(right))
            }
            GoalNode::Fresh(count, goal) => {
                self.one_goal_slots(goal).saturating_sub(u64::from(count))
            }
            GoalNode::Later(goal) => self.one_goal_slots(goal),
            GoalNode::Call(_, at, count) => self.argument_slots(at, count),
        }
    }

    /// Adds a template, and gives its place.
    pub fn term(&mut self, node: TermNode) -> Result<u32, Memory>
        requires there { is_term_grown (length (tables self.old).terms) (term_entry node) ≡ true }
        requires room { length (tables self.old).terms < 2 ^ 32 - 1 }
        ensures added { OnOk result
            (tables self.new ≡ with_term (tables self.old) (term_entry node)) }
        ensures place { IfOk result (λ at. at ≡ length (tables self.old).terms) }
        ensures unchanged { OnErr result (tables self.new ≡ tables self.old) }
    {
        let height = self.noted_height(node);
        let slots = self.term_slots(node);
        let at = self.terms.len() as u32;
        self.terms.push(TermRow {
            node,
            height,
            slots,
        })?;
        Ok(at)
    }

    /// Adds an argument, a template by its place, to the table of arguments, and gives the
    /// argument's place.
    pub fn argument(&mut self, term: u32) -> Result<u32, Memory>
        requires there { term < length (tables self.old).terms }
        requires room { length (tables self.old).arguments < 2 ^ 32 - 1 }
        ensures added { OnOk result (tables self.new ≡ with_argument (tables self.old) term) }
        ensures place { IfOk result (λ at. at ≡ length (tables self.old).arguments) }
        ensures unchanged { OnErr result (tables self.new ≡ tables self.old) }
    {
        let at = self.arguments.len() as u32;
        self.arguments.push(term)?;
        Ok(at)
    }

    /// Adds a goal, and gives its place.
    pub fn goal(&mut self, node: GoalNode) -> Result<u32, Memory>
        requires there { is_goal_grown (tables self.old) (length (tables self.old).goals)
            (goal_entry node) ≡ true }
        requires room { length (tables self.old).goals < 2 ^ 32 - 1 }
        ensures added { OnOk result
            (tables self.new ≡ with_goal (tables self.old) (goal_entry node)) }
        ensures place { IfOk result (λ at. at ≡ length (tables self.old).goals) }
        ensures unchanged { OnErr result (tables self.new ≡ tables self.old) }
    {
        let width = self.noted_width(node);
        let slots = self.goal_slots(node);
        let at = self.goals.len() as u32;
        self.goals.push(GoalRow { node, width, slots })?;
        Ok(at)
    }

    /// Adds a relation, and gives its place.
    pub fn relation(&mut self, relation: Relation) -> Result<u32, Memory>
        requires there { relation.body < length (tables self.old).goals }
        requires room { length (tables self.old).relations < 2 ^ 32 - 1 }
        ensures added { OnOk result
            (tables self.new ≡ with_relation (tables self.old) (relation_entry relation)) }
        ensures place { IfOk result (λ at. at ≡ length (tables self.old).relations) }
        ensures unchanged { OnErr result (tables self.new ≡ tables self.old) }
    {
        let at = self.relations.len() as u32;
        self.relations.push(relation)?;
        Ok(at)
    }
}
