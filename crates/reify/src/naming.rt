//! The names of variables.

ghost use Rattle.std.specs.Prelude.{◌≡◌, [], map, eqb, IfOk};
ghost use Rattle.kan_model.specs.Answers.Order.{each_once, place_of, stands_in};
ghost use Rattle.reify.specs.Naming.{name_in, number_of, shape_in, variables_of, with_letter};
ghost use Rattle.reify.specs.Naming.{with_variable};

use crate::shaping::{Shape, Shapes};
use kan_model::Letter;
use kan_terms::{ListOf, Memory};
use kan_tree::{Again, VarTree};
use std::alloc::Global;
use std::marker::Model;

/// The number of a name, as an entry of a tree.
#[derive(Drop)]
pub(crate) struct Name {
    number: u64,
}

impl Again for Name {
    ghost use Rattle.std.specs.Prelude.{ℕ};

    ghost Meaning = { ℕ };

    ghost meaning = { number_of };

    fn again(&self) -> Result<Name, Memory> {
        Ok(Name {
            number: self.number,
        })
    }
}

/// The variables that have names, in the order of their names.
#[derive(Drop)]
pub(crate) struct Naming {
    names: VarTree<Name>,
    variables: Vec<u64>,
}

impl Model for Naming {
    ghost use Rattle.std.specs.Prelude.{◌≡◌, ℕ, List};
    ghost use Rattle.kan_tree.specs.UnderKeys.{under_key};
    ghost use Rattle.reify.specs.Naming.{name_in, number_of};

    ghost Value = { List ℕ };

    ghost view = { λ naming. naming.variables.items };

    ghost invariant = { λ naming. (v : ℕ) → under_key number_of naming.names v
        ≡ name_in naming.variables.items v };
}

impl Naming {
    /// No variable has a name.
    fn new(alloc: Global) -> Naming
        ensures { result ≡ [] }
    {
        Naming {
            names: VarTree::empty(alloc),
            variables: Vec::new(alloc),
        }
    }

    /// The named variables in the order of their names.
    pub(crate) fn variables(&self) -> &[u64]
        ensures { result.now ≡ self.now }
    {
        &self.variables
    }

    /// The name of a variable.
    pub(crate) fn name(&self, var: u64) -> Option<u64>
        ensures { result ≡ name_in self.now var }
    {
        match self.names.get(var) {
            Some(name) => Some(name.number),
            None => None,
        }
    }

    /// Whether a variable has a name.
    pub(crate) fn stands(&self, var: u64) -> bool
        ensures { result ≡ stands_in self.now var }
    {
        self.name(var).is_some()
    }

    /// The name of a variable, or how many names there are.
    pub(crate) fn place(&self, var: u64) -> u64
        ensures { result ≡ place_of self.now var }
    {
        match self.name(var) {
            Some(name) => name,
            None => self.variables.len() as u64,
        }
    }

    // The same names, and the next one for a variable that has none.
    fn with(self, var: u64) -> Result<Naming, Memory>
        ensures { IfOk result (λ naming. naming ≡ with_variable self var) }
    {
        if self.name(var).is_some() {
            return Ok(self);
        }
        let Naming {
            mut names,
            mut variables,
        } = self;
        let number = variables.len() as u64;
        names.put(var, Name { number })?;
        variables.push(var)?;
        Ok(Naming { names, variables })
    }

    // The same names, and the next one for a letter's variable that has none.
    fn with_letter(self, letter: Letter) -> Result<Naming, Memory>
        ensures { IfOk result (λ naming. naming ≡ with_letter self letter) }
    {
        match letter {
            Letter::Var(var) => self.with(var),
            _ => Ok(self),
        }
    }

    /// The names of the variables among letters, in the order of their first occurrence.
    pub(crate) fn of(alloc: Global, letters: &[Letter]) -> Result<Naming, Memory>
        ensures { IfOk result (λ naming. naming ≡ each_once eqb (variables_of letters.now)) }
    {
        let mut naming = Naming::new(alloc);
        for letter in letters {
            naming = naming.with_letter(*letter)?;
        }
        Ok(naming)
    }

    // The shape of a letter whose variable is named.
    fn shape(&self, letter: Letter) -> Shape
        ensures { result ≡ shape_in self.now letter }
    {
        match letter {
            Letter::Pair => Shape::Pair,
            Letter::Var(var) => Shape::Name(self.place(var)),
            Letter::Sym(number) => Shape::Sym(number),
            Letter::Str(number) => Shape::Str(number),
            Letter::Num(number) => Shape::Num(number),
            Letter::Truth(truth) => Shape::Truth(truth),
            Letter::Nil => Shape::Nil,
        }
    }

    /// The shapes of letters whose variables are named.
    pub(crate) fn shapes(&self, alloc: Global, letters: &[Letter]) -> Result<Shapes, Memory>
        ensures { IfOk result (λ shapes. shapes ≡ map (shape_in self.now) letters.now) }
    {
        let mut shapes = ListOf::new(alloc);
        for letter in letters {
            let Ok(()) = shapes.push(self.shape(*letter)) else {
                return Err(Memory);
            };
        }
        Ok(shapes)
    }
}
