//! Answers.

ghost use Rattle.std.specs.Prelude.{IsTrue};
ghost use Rattle.std.specs.List.{list_all};
ghost use Rattle.reify.specs.OverNames.{is_over_names};
ghost use Rattle.reify.specs.Parts.{answer_from};
ghost use Rattle.reify.specs.Shapes.{all_whole, spells};

use crate::shaping::{NamePairs, Shape, Shapes};

/// A tag with the names in which it must not stand.
#[derive(Drop)]
pub struct Absence {
    /// The tag, by its number in the table of names.
    pub tag: u32,
    /// The names in which it must not stand.
    pub names: Vec<u64>,
}

/// The answer of a store: the query's term over names, and what is left of the constraints.
#[derive(Drop)]
pub struct Answer {
    pub(crate) term: Shapes,
    pub(crate) disequalities: Vec<NamePairs>,
    pub(crate) numbers: Vec<u64>,
    pub(crate) symbols: Vec<u64>,
    pub(crate) strings: Vec<u64>,
    pub(crate) absences: Vec<Absence>,
    ghost one: { IsTrue (spells 1 term) },
    ghost whole: { IsTrue (list_all all_whole disequalities.items) },
    ghost over: { IsTrue (is_over_names (answer_from term disequalities.items
        numbers.items symbols.items strings.items absences.items)) },
}

impl Answer {
    ghost use Rattle.std.specs.Prelude.{◌≡◌, true, map, IfSome};
    ghost use Rattle.std.specs.Option.{option_map};
    ghost use Rattle.std.specs.List.{slice_get};
    ghost use Rattle.reify.specs.Shapes.{all_whole, named_pair, spelling};
    ghost use Rattle.reify.specs.OverNames.{is_over_names};
    ghost use Rattle.reify.specs.Meaning.{meaning, absence, lent_absence};

    /// The answer of its parts.
    pub fn of(
        term: Shapes,
        disequalities: Vec<NamePairs>,
        numbers: Vec<u64>,
        symbols: Vec<u64>,
        strings: Vec<u64>,
        absences: Vec<Absence>,
    ) -> Answer
        requires one { spells 1 term ≡ true }
        requires whole { list_all all_whole disequalities.items ≡ true }
        requires over { is_over_names (answer_from term disequalities.items
            numbers.items symbols.items strings.items absences.items) ≡ true }
        ensures { meaning result
            ≡ answer_from term disequalities.items numbers.items symbols.items strings.items
            absences.items }
    {
        Answer {
            term,
            disequalities,
            numbers,
            symbols,
            strings,
            absences,
        }
    }

    /// All disequalities, in printed order. It takes no memory.
    pub fn disequalities(&self) -> &[NamePairs]
        ensures pairs { map (map named_pair) result.now ≡ (meaning self.now).disequalities }
        ensures whole { list_all all_whole result.now ≡ true }
    {
        &self.disequalities
    }

    /// All tags with the names in which they must not stand, in printed order. It takes no memory.
    pub fn absences(&self) -> &[Absence]
        ensures { map absence result.now ≡ (meaning self.now).absences }
    {
        &self.absences
    }

    /// The shapes of the term, each pair before its parts. It takes no memory.
    pub fn term(&self) -> &[Shape]
        ensures shapes { result.now ≡ spelling (meaning self.now).term }
        ensures over { is_over_names (meaning self.now) ≡ true }
    {
        self.term.items()
    }

    /// The disequality at an index, in printed order. It takes no memory.
    pub fn disequality(&self, at: usize) -> Option<&NamePairs>
        ensures pairs { option_map (λ pairs. map named_pair pairs.now) result
            ≡ slice_get (meaning self.now).disequalities at }
        ensures whole { IfSome result (λ pairs. all_whole pairs.now ≡ true) }
    {
        self.disequalities.get(at)
    }

    /// The names that stand for numbers. It takes no memory.
    pub fn numbers(&self) -> &[u64]
        ensures { result.now ≡ (meaning self.now).numbers }
    {
        &self.numbers
    }

    /// The names that stand for symbols. It takes no memory.
    pub fn symbols(&self) -> &[u64]
        ensures { result.now ≡ (meaning self.now).symbols }
    {
        &self.symbols
    }

    /// The names that stand for strings. It takes no memory.
    pub fn strings(&self) -> &[u64]
        ensures { result.now ≡ (meaning self.now).strings }
    {
        &self.strings
    }

    /// The tag at an index with the names in which it must not stand, in printed order. It takes no
    /// memory.
    pub fn absence(&self, at: usize) -> Option<(u32, &[u64])>
        ensures { option_map lent_absence result ≡ slice_get (meaning self.now).absences at }
    {
        match self.absences.get(at) {
            Some(kept) => Some((kept.tag, kept.names.as_slice())),
            None => None,
        }
    }
}
