//! The relations that are defined.

ghost use Rattle.std.specs.Prelude.{◌≡◌, ◌<◌, ◌^◌, ◌==◌, ℕ, length, nat_eq, OnOk, if◌then◌else◌};
ghost use Rattle.std.specs.HashMap.{get};
ghost use Rattle.kan_grammar.specs.Texts.Resolved.{relation_number, or_else};
ghost use Rattle.goal_forms.specs.DefinedRelations.{defined_relations};

use kan_terms::Memory;
use std::alloc::Global;
use std::collections::HashMap;

/// A relation: its name, and how many arguments it takes.
#[derive(Clone, Copy, Debug, PartialEq, Eq)]
pub struct Defined {
    pub name: u32,
    pub params: u32,
}

/// The relations in their order, with the number of the first one of each name.
#[derive(Drop)]
pub struct Relations {
    rows: Vec<Defined>,
    numbers: HashMap<u32, u32>,
    ghost exact: { (symbol : ℕ) → get nat_eq numbers symbol
        ≡ relation_number (defined_relations rows.items) symbol },
    ghost few: { length rows.items < 2 ^ 32 },
}

// Notes the number of a name that has none.
fn note(numbers: &mut HashMap<u32, u32>, name: u32, number: u32) -> Result<(), Memory>
    ensures { OnOk result ((symbol : ℕ) → get nat_eq numbers.new symbol
        ≡ or_else (get nat_eq numbers.old symbol) (if symbol == name then Some number else None)) }
{
    if !numbers.contains_key(&name) {
        numbers.insert(name, number)?;
    }
    Ok(())
}

impl Relations {
    ghost use Rattle.std.specs.Prelude.{IfOk};
    ghost use Rattle.kan_grammar.specs.Texts.Resolved.{arity};
    ghost use Rattle.goal_forms.specs.RelationTables.{relations};

    /// These relations.
    pub fn of(alloc: Global, rows: Vec<Defined>) -> Result<Relations, Memory>
        requires { length rows.items < 2 ^ 32 }
        ensures { IfOk result (λ r. relations r ≡ defined_relations rows.items) }
    {
        let mut numbers = HashMap::new(alloc);
        for (place, row) in rows.iter().enumerate() {
            note(&mut numbers, row.name, place as u32)?;
        }
        Ok(Relations { rows, numbers })
    }

    /// The number of the first relation of a name.
    pub fn number(&self, symbol: u32) -> Option<u32>
        ensures { result ≡ relation_number (relations self.now) symbol }
    {
        self.numbers.get(&symbol).copied()
    }

    /// How many arguments the first relation of a name takes.
    pub fn params(&self, symbol: u32) -> Option<u32>
        ensures { result ≡ arity (relations self.now) symbol }
    {
        let Some(number) = self.number(symbol) else {
            return None;
        };
        match self.rows.get(number as usize) {
            Some(relation) => Some(relation.params),
            None => None,
        }
    }
}
