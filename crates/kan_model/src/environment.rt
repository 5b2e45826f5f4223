//! Environments: what the slots in scope stand for.

ghost use Rattle.std.specs.Prelude.{◌≡◌, IsTrue, IfOk, map};
ghost use Rattle.std.specs.List.{list_all};
ghost use Rattle.kan_terms.specs.Terms.{tree};
ghost use Rattle.kan_model.specs.Terms.Flat.{is_flat};
ghost use Rattle.kan_model.specs.Programs.Values.{values_of};

use crate::letters::{Letter, build, first_letter};
use crate::nodes::TermNode;
use crate::program::Program;
use crate::values::Values;
use kan_terms::{Memory, Term};
use std::alloc::Global;

// How high a template's pairs stand at most that are made without a stack.
const SHALLOW: u32 = 32;

/// A list of terms without pairs, one for each slot.
#[derive(Drop)]
pub struct Env {
    values: Values,
    ghost flat: { IsTrue (list_all is_flat (map tree (values_of values))) },
}

impl Env {
    ghost use Rattle.std.specs.Prelude.{◌+◌, ◌≤◌, ◌^◌, [], ◌∷◌, ◌++◌, true, slice_get};
    ghost use Rattle.std.specs.Prelude.{OnOk, IfSome};
    ghost use Rattle.std.specs.Option.{option_copied};
    ghost use Rattle.kan_terms.specs.Tree.{Tree};
    ghost use Rattle.kan_model.specs.Streams.Running.{instance, variables};
    ghost use Rattle.kan_model.specs.Terms.Letters.{letter_of, spelling};
    ghost use Rattle.kan_model.specs.Terms.Flat.{letters_waiting};
    ghost use Rattle.kan_model.specs.Programs.Closed as programs;
    ghost use Rattle.kan_model.specs.Programs.Environments.{terms_of};

    /// The environment of one slot, which stands for a variable.
    pub fn start(alloc: Global, var: u64) -> Result<Env, Memory>
        ensures { IfOk result (λ made. terms_of made ≡ Tree.leaf var ∷ []) }
    {
        let mut values = Vec::new(alloc);
        values.push(Term::Var(var))?;
        let values = Values::shared(alloc, values)?;
        Ok(Env { values })
    }

    /// The environment of these terms, of which none is a pair. It takes no memory.
    pub fn of(_program: &Program, values: Vec<Term>) -> Env
        requires { list_all is_flat (map tree values.items) ≡ true }
        ensures { terms_of result ≡ map tree values.items }
    {
        let values = Values::Own(values);
        Env { values }
    }

    /// An equal environment. One that isn't new shares its terms.
    pub fn again(&self, alloc: Global) -> Result<Env, Memory>
        ensures { IfOk result (λ copy. terms_of copy ≡ terms_of self.now) }
    {
        let values = self.values.again(alloc)?;
        Ok(Env { values })
    }

    /// The environment with slots more, which stand for the variables from a number on. Its terms
    /// are copied only where another environment shares them.
    pub fn extend(self, alloc: Global, first: u64, count: u32) -> Result<Env, Memory>
        requires { first + count ≤ 2 ^ 63 }
        ensures { IfOk result (λ made. terms_of made ≡ terms_of self ++ variables first count) }
    {
        let Env { values } = self;
        let mut values = values.owned(alloc)?;
        for offset in 0..count {
            values.push(Term::Var(first + u64::from(offset)))?;
        }
        let values = Values::shared(alloc, values)?;
        Ok(Env { values })
    }

    // What a slot stands for.
    fn slot_value(&self, slot: u32) -> Option<&Term>
        ensures { option_copied result ≡ slice_get (values_of self.now.values) slot }
    {
        self.values.lent().get(slot as usize)
    }

    // What a slot stands for, once more.
    fn slot_term(&self, slot: u32) -> Result<Term, Memory>
        ensures { IfOk result
            (λ made. tree made ≡ instance (terms_of self.now) (Tree.leaf slot)) }
    {
        match self.slot_value(slot) {
            Some(value) => {
                let copy = value.again()?;
                Ok(copy)
            }
            None => Ok(Term::Nil),
        }
    }

    // The term of a template that is no pair.
    fn leaf(&self, alloc: Global, program: &Program, term: u32) -> Result<Option<Term>, Memory>
        ensures { IfOk result (λ found. IfSome found (λ made. tree made
            ≡ instance (terms_of self.now) (programs.template program.now term))) }
    {
        match program.template_node(term) {
            TermNode::Slot(slot) => {
                let made = self.slot_term(slot)?;
                Ok(Some(made))
            }
            TermNode::Sym(name) => Ok(Some(Term::Sym(name))),
            TermNode::Str(text) => Ok(Some(Term::Str(text))),
            TermNode::Num(number) => Ok(Some(Term::number(alloc, number)?)),
            TermNode::Truth(truth) => Ok(Some(Term::Truth(truth))),
            TermNode::Nil => Ok(Some(Term::Nil)),
            TermNode::Pair(_, _) => Ok(None),
        }
    }

    // The first letter of what a slot stands for.
    fn slot_letter(&self, slot: u32) -> Letter
        ensures { result ≡ letter_of (instance (terms_of self.now) (Tree.leaf slot)) }
    {
        match self.slot_value(slot) {
            Some(value) => first_letter(value),
            None => Letter::Nil,
        }
    }

    // The first letter of a template's term.
    fn template_letter(&self, program: &Program, term: u32) -> Letter
        ensures { result
            ≡ letter_of (instance (terms_of self.now) (programs.template program.now term)) }
    {
        match program.template_node(term) {
            TermNode::Slot(slot) => self.slot_letter(slot),
            TermNode::Sym(name) => Letter::Sym(name),
            TermNode::Str(text) => Letter::Str(text),
            TermNode::Num(number) => Letter::Num(number),
            TermNode::Truth(truth) => Letter::Truth(truth),
            TermNode::Nil => Letter::Nil,
            TermNode::Pair(_, _) => Letter::Pair,
        }
    }

    // Puts the parts of a template that is a pair on a stack of waiting templates, the first part
    // on top.
    fn wait_for_parts(
        &self,
        program: &Program,
        term: u32,
        waiting: &mut Vec<u32>,
    ) -> Result<(), Memory>
        ensures { OnOk result
            (letter_of (instance (terms_of self.now) (programs.template program.now term))
            ∷ letters_waiting
            (map (λ at. instance (terms_of self.now) (programs.template program.now at))
            waiting.new.items)
            ≡ spelling (instance (terms_of self.now) (programs.template program.now term))
            ++ letters_waiting
            (map (λ at. instance (terms_of self.now) (programs.template program.now at))
            waiting.old.items)) }
    {
        match program.template_node(term) {
            TermNode::Pair(first, rest) => {
                waiting.push(rest)?;
                waiting.push(first)?;
                Ok(())
            }
            _ => Ok(()),
        }
    }

    // The letters of a template's term.
    fn spelled(&self, alloc: Global, program: &Program, term: u32) -> Result<Vec<Letter>, Memory>
        ensures { IfOk result (λ letters. letters.items
            ≡ spelling (instance (terms_of self.now) (programs.template program.now term))) }
    {
        let mut letters = Vec::new(alloc);
        let mut waiting = Vec::new(alloc);
        waiting.push(term)?;
        while let Some(next) = waiting.pop() {
            letters.push(self.template_letter(program, next))?;
            self.wait_for_parts(program, next, &mut waiting)?;
        }
        Ok(letters)
    }

    // The term of a template, by its letters.
    fn spelled_value(&self, alloc: Global, program: &Program, term: u32) -> Result<Term, Memory>
        ensures { IfOk result (λ made. tree made
            ≡ instance (terms_of self.now) (programs.template program.now term)) }
    {
        let letters = self.spelled(alloc, program, term)?;
        build(alloc, letters)
    }

    // The term of a template that is at most so many pairs high. The rest of a pair comes first, so
    // that a long list is given up at once.
    fn shallow_value(
        &self,
        alloc: Global,
        program: &Program,
        term: u32,
        height: u32,
    ) -> Result<Option<Term>, Memory>
        ensures { IfOk result (λ found. IfSome found (λ made. tree made
            ≡ instance (terms_of self.now) (programs.template program.now term))) }
    {
        let TermNode::Pair(first, rest) = program.template_node(term) else {
            return self.leaf(alloc, program, term);
        };
        if height == 0 {
            return Ok(None);
        }
        let Some(rest) = self.shallow_value(alloc, program, rest, height - 1)? else {
            return Ok(None);
        };
        let Some(first) = self.shallow_value(alloc, program, first, height - 1)? else {
            return Ok(None);
        };
        let made = Term::pair(alloc, first, rest)?;
        Ok(Some(made))
    }

    /// The term of a template, with the slots filled.
    pub fn value(&self, alloc: Global, program: &Program, term: u32) -> Result<Term, Memory>
        ensures { IfOk result (λ made. tree made
            ≡ instance (terms_of self.now) (programs.template program.now term)) }
    {
        // Few templates are high: these need no stack.
        if let Some(made) = self.shallow_value(alloc, program, term, SHALLOW)? {
            return Ok(made);
        }
        self.spelled_value(alloc, program, term)
    }
}
