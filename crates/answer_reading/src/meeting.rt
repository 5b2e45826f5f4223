//! Whether ground terms meet constraints.

ghost use Rattle.std.specs.Prelude.{◌≡◌, IfOk, map, true};
ghost use Rattle.std.specs.List.{list_all};
ghost use Rattle.reify.specs.Meaning.{absence, meaning};
ghost use Rattle.reify.specs.Shapes.{all_whole, named_pair, spells};
ghost use Rattle.answer_reading.specs.Marks.{absence_met, all_met, covers, difference_met};
ghost use Rattle.answer_reading.specs.Marks.{pair_met, lent_lists, tag_met, type_met};

use crate::marks::{begins, has_tag, same_marks};
use crate::values::{term_marks, value};
use kan_model::Kind;
use kan_terms::{Mark, Memory};
use reify::{Absence, Answer, NamePair, NamePairs};
use std::alloc::Global;

// Whether a pair's name has the marks of its term.
#[tactic(auto, using(crate::proofs::MeetLaws::pair_is_met))]
fn is_pair_met(alloc: Global, values: &[&[Mark]], pair: &NamePair) -> Result<bool, Memory>
    requires { spells 1 pair.now.term ≡ true }
    ensures { IfOk result (λ met. met ≡ pair_met (lent_lists values.now) (named_pair pair.now)) }
{
    let made = term_marks(alloc, values, pair.term.items())?;
    Ok(same_marks(value(values, pair.name), &made))
}

// Whether some pair isn't met.
fn is_difference_met(alloc: Global, values: &[&[Mark]], pairs: &[NamePair]) -> Result<bool, Memory>
    requires { all_whole pairs.now ≡ true }
    ensures { IfOk result (λ met. met
        ≡ difference_met (lent_lists values.now) (map named_pair pairs.now)) }
{
    for pair in pairs {
        let met = is_pair_met(alloc, values, pair)?;
        if !met {
            return Ok(true);
        }
    }
    Ok(false)
}

// Whether disequalities are met.
fn are_differences_met(
    alloc: Global,
    values: &[&[Mark]],
    disequalities: &[NamePairs],
) -> Result<bool, Memory>
    requires { list_all all_whole disequalities.now ≡ true }
    ensures { IfOk result (λ met. met
        ≡ list_all (difference_met (lent_lists values.now))
        (map (map named_pair) disequalities.now)) }
{
    for pairs in disequalities {
        let met = is_difference_met(alloc, values, pairs.items())?;
        if !met {
            return Ok(false);
        }
    }
    Ok(true)
}

// Whether names have a type.
fn have_type(values: &[&[Mark]], kind: Kind, names: &[u64]) -> bool
    ensures { result ≡ list_all (type_met (lent_lists values.now) kind) names.now }
{
    for name in names {
        if !begins(kind, value(values, *name)) {
            return false;
        }
    }
    true
}

// Whether a tag stands in none of some names.
fn is_tag_absent(values: &[&[Mark]], tag: u32, names: &[u64]) -> bool
    ensures { result ≡ list_all (tag_met (lent_lists values.now) tag) names.now }
{
    for name in names {
        if has_tag(tag, value(values, *name)) {
            return false;
        }
    }
    true
}

// Whether absences are met.
fn are_absences_met(values: &[&[Mark]], absences: &[Absence]) -> bool
    ensures { result ≡ list_all (absence_met (lent_lists values.now)) (map absence absences.now) }
{
    for kept in absences {
        if !is_tag_absent(values, kept.tag, &kept.names) {
            return false;
        }
    }
    true
}

// Whether all constraints are met.
fn are_met(alloc: Global, values: &[&[Mark]], answer: &Answer) -> Result<bool, Memory>
    ensures { IfOk result (λ met. met ≡ all_met (lent_lists values.now) (meaning answer.now)) }
{
    let differ = are_differences_met(alloc, values, answer.disequalities())?;
    Ok(
        differ
            & have_type(values, Kind::Number, answer.numbers())
            & have_type(values, Kind::Symbol, answer.symbols())
            & have_type(values, Kind::Text, answer.strings())
            & are_absences_met(values, answer.absences()),
    )
}

/// Whether the term of an answer has some marks and its constraints are met, where its names have
/// these values.
pub(crate) fn covers(
    alloc: Global,
    values: &[&[Mark]],
    answer: &Answer,
    marks: &[Mark],
) -> Result<bool, Memory>
    ensures { IfOk result (λ covered. covered
        ≡ covers (lent_lists values.now) (meaning answer.now) marks.now) }
{
    let made = term_marks(alloc, values, answer.term())?;
    if !same_marks(&made, marks) {
        return Ok(false);
    }
    are_met(alloc, values, answer)
}
