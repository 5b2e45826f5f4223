//! Ground terms, kept as their marks.

ghost use Rattle.std.specs.Prelude.{◌≡◌, ◌↔◌, IsTrue, IsOk, IfOk, IfErr};
ghost use Rattle.kan_terms.specs.Spelling.{SpellsTree, spelling};

use std::marker::Model;

/// One node of a ground term.
#[derive(Clone, Copy, Debug, PartialEq, Eq)]
pub enum Mark {
    /// A pair, whose first part and rest follow.
    Pair,
    /// A symbol, by its number in the table of names.
    Sym(u32),
    /// A string, by its number in the table of strings.
    Str(u32),
    /// A whole number.
    Num(i128),
    /// A truth value.
    Truth(bool),
    /// The empty list.
    Nil,
}

/// A ground term, kept as its marks, each pair before its parts.
#[derive(Drop)]
pub struct Ground {
    marks: Vec<Mark>,
}

impl Model for Ground {
    ghost use Rattle.std.specs.Prelude.{◌≡◌};
    ghost use Rattle.kan_terms.specs.Tree.{Gd};
    ghost use Rattle.kan_terms.specs.Spelling.{spelling};
    ghost use Rattle.kan_terms.specs.Reading.{ground_code, tree_of};

    ghost Value = { Gd };

    ghost coded = { ground_code };

    ghost view = { λ term. tree_of term.marks.items };

    ghost invariant = { λ term. spelling (tree_of term.marks.items) ≡ term.marks.items };
}

impl Ground {
    /// The ground term that marks spell, or the marks where they don't spell one whole term and
    /// nothing after it. It takes no memory.
    pub fn of_marks(marks: Vec<Mark>) -> Result<Ground, Vec<Mark>>
        ensures whole { IsOk result ↔ SpellsTree marks.items }
        ensures spelled { IfOk result (λ term. spelling term ≡ marks.items) }
        ensures refused { IfErr result (λ back. back ≡ marks) }
    {
        if spells_tree(&marks) {
            Ok(Ground { marks })
        } else {
            Err(marks)
        }
    }

    /// The marks of the term. It takes no memory.
    pub fn marks(&self) -> &[Mark]
        ensures { result.now ≡ spelling self.now }
    {
        &self.marks
    }
}

/// Whether marks spell one whole ground term and nothing after it.
fn spells_tree(marks: &[Mark]) -> bool
    ensures { IsTrue result ↔ SpellsTree marks.now }
{
    let mut wanted: usize = 1;
    for mark in marks {
        if wanted == 0 {
            return false;
        }
        match mark {
            Mark::Pair => wanted += 1,
            Mark::Sym(_) | Mark::Str(_) | Mark::Num(_) | Mark::Truth(_) | Mark::Nil => wanted -= 1,
        }
    }
    wanted == 0
}
