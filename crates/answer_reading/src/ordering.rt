//! Whether parts are those of an answer in form: the order of constraints, and all together.

ghost use Rattle.std.specs.Prelude.{◌≡◌, ◌++◌, map, true, IfOk};
ghost use Rattle.std.specs.List.{list_all};
ghost use Rattle.kan_model.specs.Answers.InForm.{absence_in_form, ascends, in_form, tag_before};
ghost use Rattle.reify.specs.OverNames.{absence};
ghost use Rattle.reify.specs.Shapes.{all_whole};
ghost use Rattle.answer_reading.specs.Forming.{are_absences_formed, are_differences_formed};
ghost use Rattle.answer_reading.specs.Forming.{are_whole, text_le};
ghost use Rattle.answer_reading.specs.Listing.{meaning};

use crate::constraints::{Kinds, Parts};
use crate::forming::{
    are_apart, are_different, are_kinds_formed, are_names_formed, are_solved, count_names,
};
use kan_terms::{Memory, Names};
use reify::{Absence, NamePairs, print_difference, texts_rise};
use std::alloc::Global;

// Whether a disequality's text doesn't stand behind that of another one.
fn is_text_before(
    alloc: Global,
    one: &NamePairs,
    other: &NamePairs,
    names: &Names,
) -> Result<bool, Memory>
    requires first { all_whole one.now ≡ true }
    requires second { all_whole other.now ≡ true }
    ensures { IfOk result (λ before. before ≡ text_le names.now one.now other.now) }
{
    let mut first = String::new(alloc);
    print_difference(alloc, one, names, &mut first)?;
    let mut second = String::new(alloc);
    print_difference(alloc, other, names, &mut second)?;
    Ok(texts_rise(first.as_bytes(), second.as_bytes()))
}

// Whether disequalities stand in the order of their texts.
fn do_texts_ascend(
    alloc: Global,
    disequalities: &[NamePairs],
    names: &Names,
) -> Result<bool, Memory>
    requires { list_all all_whole disequalities.now ≡ true }
    ensures { IfOk result (λ ascend. ascend ≡ ascends (text_le names.now) disequalities.now) }
{
    for at in 1..disequalities.len() {
        let before = is_text_before(alloc, &disequalities[at - 1], &disequalities[at], names)?;
        if !before {
            return Ok(false);
        }
    }
    Ok(true)
}

// Whether a tag's text comes before that of another one.
fn is_tag_before(one: &Absence, other: &Absence, names: &Names) -> bool
    ensures { result ≡ tag_before names.now (absence one.now) (absence other.now) }
{
    let first = names.name(one.tag).unwrap_or("").as_bytes();
    let second = names.name(other.tag).unwrap_or("").as_bytes();
    texts_rise(first, second) & !texts_rise(second, first)
}

// Whether absences stand in the order of their tags, each tag once.
fn do_tags_ascend(absences: &[Absence], names: &Names) -> bool
    ensures { result ≡ ascends (tag_before names.now) (map absence absences.now) }
{
    for at in 1..absences.len() {
        if !is_tag_before(&absences[at - 1], &absences[at], names) {
            return false;
        }
    }
    true
}

// Whether the names of an absence are in form, and none is a number or a string.
fn is_absence_formed(count: usize, kinds: &Kinds, kept: &Absence) -> bool
    ensures { result ≡ absence_in_form count
        (kinds.now.numbers.items ++ kinds.now.strings.items) (absence kept.now) }
{
    !kept.names.is_empty()
        & are_names_formed(count, &kept.names)
        & (are_apart(&kept.names, &kinds.numbers) & are_apart(&kept.names, &kinds.strings))
}

// Whether this holds of all absences.
fn is_each_formed(count: usize, kinds: &Kinds, absences: &[Absence]) -> bool
    ensures { result ≡ list_all
        (absence_in_form count (kinds.now.numbers.items ++ kinds.now.strings.items))
        (map absence absences.now) }
{
    for kept in absences {
        if !is_absence_formed(count, kinds, kept) {
            return false;
        }
    }
    true
}

// Whether absences are in form.
fn are_absences_formed(count: usize, kinds: &Kinds, absences: &[Absence], names: &Names) -> bool
    ensures { result ≡ are_absences_formed names.now count kinds.now.numbers.items
        kinds.now.strings.items (map absence absences.now) }
{
    is_each_formed(count, kinds, absences) & do_tags_ascend(absences, names)
}

// Whether disequalities are in form.
fn are_differences_formed(
    alloc: Global,
    count: usize,
    disequalities: &[NamePairs],
    names: &Names,
) -> Result<bool, Memory>
    requires { list_all all_whole disequalities.now ≡ true }
    ensures { IfOk result (λ formed. formed
        ≡ are_differences_formed names.now count disequalities.now) }
{
    let ascend = do_texts_ascend(alloc, disequalities, names)?;
    Ok(are_solved(count, disequalities) & are_different(disequalities) & ascend)
}

/// Whether whole parts are those of an answer in form.
pub(crate) fn are_formed(alloc: Global, parts: &Parts, names: &Names) -> Result<bool, Memory>
    requires { are_whole parts.now.term parts.now.disequalities.items ≡ true }
    ensures { IfOk result (λ formed. formed ≡ in_form names.now (meaning parts.now)) }
{
    match count_names(parts.term.items()) {
        Some(count) => {
            let differ = are_differences_formed(alloc, count, &parts.disequalities, names)?;
            Ok(
                differ
                    & are_kinds_formed(count, &parts.kinds)
                    & are_absences_formed(count, &parts.kinds, &parts.absences, names),
            )
        }
        None => Ok(false),
    }
}
