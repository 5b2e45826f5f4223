//! The text of an answer.

ghost use Rattle.std.specs.Prelude.{◌≡◌, ◌++◌, ◌&&◌, true, map, OnOk, IfOk, string_bytes};
ghost use Rattle.std.specs.List.{flat_map, list_all};
ghost use Rattle.kan_model.specs.Answers.Text.{name_text, with_spaces};
ghost use Rattle.kan_model.specs.Answers.AnswerText.{absence_text, answer_text, constraint_texts};
ghost use Rattle.kan_model.specs.Answers.AnswerText.{difference_text, names_texts, pair_text};
ghost use Rattle.kan_model.specs.Answers.AnswerText.{where_text};
ghost use Rattle.reify.specs.Shapes.{named_pair, spells, all_whole};
ghost use Rattle.reify.specs.Meaning.{absence, meaning};
ghost use Rattle.reify.specs.Constraints.{behind_space, gap, is_nothing};

use crate::answers::{Absence, Answer};
use crate::printing::{print_name, print_shapes, print_symbol};
use crate::shaping::{NamePair, NamePairs};
use kan_terms::{Memory, Names};
use std::alloc::Global;

// A space behind other texts, and nothing where there are none.
fn separate(others: usize, text: &mut String) -> Result<(), Memory>
    ensures { OnOk result (string_bytes text.new ≡ string_bytes text.old ++ gap others) }
{
    if others > 0 {
        text.push(' ')?;
    }
    Ok(())
}

// Names with a space between each two.
fn print_names(listed: &[u64], text: &mut String) -> Result<(), Memory>
    ensures { OnOk result (string_bytes text.new
        ≡ string_bytes text.old ++ with_spaces (map name_text listed.now)) }
{
    for (at, name) in listed.iter().enumerate() {
        separate(at, text)?;
        print_name(*name, text)?;
    }
    Ok(())
}

// A pair of a disequality.
fn print_pair(
    alloc: Global,
    pair: &NamePair,
    names: &Names,
    text: &mut String,
) -> Result<(), Memory>
    requires { spells 1 pair.now.term ≡ true }
    ensures { OnOk result (string_bytes text.new
        ≡ string_bytes text.old ++ pair_text names.now (named_pair pair.now)) }
{
    text.push('(')?;
    print_name(pair.name, text)?;
    text.push(' ')?;
    print_shapes(alloc, pair.term.items(), names, text)?;
    text.push(')')?;
    Ok(())
}

// Pairs with a space between each two.
fn print_pairs(
    alloc: Global,
    pairs: &[NamePair],
    names: &Names,
    text: &mut String,
) -> Result<(), Memory>
    requires { all_whole pairs.now ≡ true }
    ensures { OnOk result (string_bytes text.new
        ≡ string_bytes text.old
        ++ with_spaces (map (pair_text names.now) (map named_pair pairs.now))) }
{
    for (at, pair) in pairs.iter().enumerate() {
        separate(at, text)?;
        print_pair(alloc, pair, names, text)?;
    }
    Ok(())
}

/// Adds the text of a disequality.
pub fn print_difference(
    alloc: Global,
    pairs: &NamePairs,
    names: &Names,
    text: &mut String,
) -> Result<(), Memory>
    requires { all_whole pairs.now ≡ true }
    ensures { OnOk result (string_bytes text.new
        ≡ string_bytes text.old ++ difference_text names.now (map named_pair pairs.now)) }
{
    text.push_str("(=/= (")?;
    print_pairs(alloc, pairs.items(), names, text)?;
    text.push_str("))")?;
    Ok(())
}

// Disequalities, each behind a space.
fn print_differences(
    alloc: Global,
    disequalities: &[NamePairs],
    names: &Names,
    text: &mut String,
) -> Result<(), Memory>
    requires { list_all all_whole disequalities.now ≡ true }
    ensures { OnOk result (string_bytes text.new
        ≡ string_bytes text.old
        ++ flat_map behind_space (map (difference_text names.now) (map (map named_pair)
        disequalities.now))) }
{
    for pairs in disequalities {
        text.push(' ')?;
        print_difference(alloc, pairs, names, text)?;
    }
    Ok(())
}

// A word with the names of which it is said, behind a space, and nothing where there are none.
fn print_list(word: &str, listed: &[u64], text: &mut String) -> Result<(), Memory>
    ensures { OnOk result (string_bytes text.new
        ≡ string_bytes text.old ++ flat_map behind_space (names_texts word.now listed.now)) }
{
    if listed.is_empty() {
        return Ok(());
    }
    text.push_str(" (")?;
    text.push_str(word)?;
    text.push(' ')?;
    print_names(listed, text)?;
    text.push(')')?;
    Ok(())
}

// A tag with the names in which it must not stand.
fn print_absence(kept: &Absence, names: &Names, text: &mut String) -> Result<(), Memory>
    ensures { OnOk result (string_bytes text.new
        ≡ string_bytes text.old ++ absence_text names.now (absence kept.now)) }
{
    text.push_str("(absent ")?;
    print_symbol(kept.tag, names, text)?;
    text.push(' ')?;
    print_names(&kept.names, text)?;
    text.push(')')?;
    Ok(())
}

// Absences, each behind a space.
fn print_absences(absences: &[Absence], names: &Names, text: &mut String) -> Result<(), Memory>
    ensures { OnOk result (string_bytes text.new
        ≡ string_bytes text.old
        ++ flat_map behind_space (map (absence_text names.now) (map absence absences.now))) }
{
    for kept in absences {
        text.push(' ')?;
        print_absence(kept, names, text)?;
    }
    Ok(())
}

// All constraints, each behind a space.
fn print_constraints(
    alloc: Global,
    answer: &Answer,
    names: &Names,
    text: &mut String,
) -> Result<(), Memory>
    ensures { OnOk result (string_bytes text.new
        ≡ string_bytes text.old
        ++ flat_map behind_space (constraint_texts names.now (meaning answer.now))) }
{
    print_differences(alloc, &answer.disequalities, names, text)?;
    print_list("num", &answer.numbers, text)?;
    print_list("sym", &answer.symbols, text)?;
    print_list("str", &answer.strings, text)?;
    print_absences(&answer.absences, names, text)
}

// Whether a list has no item.
fn is_nothing<T>(items: &[T]) -> bool
    ensures { result ≡ is_nothing items.now }
{
    items.is_empty()
}

// Whether no constraint remains.
fn is_free(answer: &Answer) -> bool
    ensures { result
        ≡ (is_nothing answer.now.disequalities.items && is_nothing answer.now.numbers.items
        && is_nothing answer.now.symbols.items && is_nothing answer.now.strings.items
        && is_nothing answer.now.absences.items) }
{
    is_nothing(&answer.disequalities)
        & is_nothing(&answer.numbers)
        & is_nothing(&answer.symbols)
        & is_nothing(&answer.strings)
        & is_nothing(&answer.absences)
}

// The constraints, where some remain.
fn print_where(
    alloc: Global,
    answer: &Answer,
    names: &Names,
    text: &mut String,
) -> Result<(), Memory>
    ensures { OnOk result (string_bytes text.new
        ≡ string_bytes text.old ++ where_text (constraint_texts names.now (meaning answer.now))) }
{
    if is_free(answer) {
        return Ok(());
    }
    text.push_str(" where")?;
    print_constraints(alloc, answer, names, text)?;
    Ok(())
}

/// The text of an answer, without a line's end. A symbol without a name prints as nothing, and so
/// does a string without a text.
pub fn print_answer(alloc: Global, answer: &Answer, names: &Names) -> Result<Vec<u8>, Memory>
    ensures { IfOk result (λ bytes. bytes.items ≡ answer_text names.now (meaning answer.now)) }
{
    let mut text = String::new(alloc);
    print_shapes(alloc, answer.term.items(), names, &mut text)?;
    print_where(alloc, answer, names, &mut text)?;
    Ok(text.into_bytes())
}
