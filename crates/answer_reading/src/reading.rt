//! Reading a line of an answer back.

ghost use Rattle.std.specs.Prelude.{◌≡◌, ◌≤◌, ◌^◌, ◌↔◌, ◌&&◌, length, true, IsTrue, IfOk};
ghost use Rattle.kan_grammar.specs.Texts.TextNames.{Extends};
ghost use Rattle.kan_model.specs.Answers.AnswerText.{answer_text};
ghost use Rattle.kan_model.specs.Answers.InForm.{in_form};
ghost use Rattle.reify.specs.Meaning.{meaning};
ghost use Rattle.reify.specs.OverNames.{is_over_names};
ghost use Rattle.answer_reading.specs.Answering.{Checks, FindsAnswer, GivesAnswer, IsFound};
ghost use Rattle.answer_reading.specs.Answering.{IsSmall, IsTextOf};
ghost use Rattle.answer_reading.specs.Forming.{are_whole};
ghost use Rattle.answer_reading.specs.Listing as listing;
ghost use Rattle.term_reading.specs.Words.{AreSymbols, HasRoom, Moves};

use crate::constraints::{Parts, read_parts};
use crate::forming::are_whole;
use crate::ordering::are_formed;
use kan_terms::{Memory, Names};
use reify::{Answer, print_answer};
use std::alloc::Global;

/// Why a line isn't read back.
#[derive(Clone, Copy, Debug, PartialEq, Eq)]
pub enum AnswerFault {
    /// It is the text of no answer in form whose numbers fit.
    NotAnAnswer,
    /// Memory was wanted, and refused.
    Memory,
}

// Whether two texts are the same.
fn is_same(one: &[u8], other: &[u8]) -> bool
    ensures { IsTrue result ↔ (one.now ≡ other.now) }
{
    one == other
}

// Whether an answer is printed as this line.
fn prints_as(alloc: Global, answer: &Answer, line: &[u8], names: &Names) -> Result<bool, Memory>
    ensures { IfOk result (λ same. IsTrue same
        ↔ (answer_text names.now (meaning answer.now) ≡ line.now)) }
{
    let text = print_answer(alloc, answer, names)?;
    Ok(is_same(&text, line))
}

// The answer of whole parts, which are over the names of their term.
fn assembled(parts: Parts) -> Answer
    requires whole { are_whole parts.term parts.disequalities.items ≡ true }
    requires over { is_over_names (listing.meaning parts) ≡ true }
    ensures { meaning result ≡ listing.meaning parts }
{
    Answer::of(
        parts.term,
        parts.disequalities,
        parts.kinds.numbers,
        parts.kinds.symbols,
        parts.kinds.strings,
        parts.absences,
    )
}

// Whether parts are those of an answer in form.
fn are_in_form(alloc: Global, parts: &Parts, names: &Names) -> Result<bool, Memory>
    ensures { IfOk result (λ formed. formed
        ≡ (are_whole parts.now.term parts.now.disequalities.items
        && in_form names.now (listing.meaning parts.now))) }
{
    if are_whole(parts) {
        are_formed(alloc, parts, names)
    } else {
        Ok(false)
    }
}

// The answer that parts are, if it is one in form whose text is this line.
fn checked(
    alloc: Global,
    parts: Parts,
    line: &[u8],
    names: &Names,
) -> Result<Option<Answer>, Memory>
    ensures { IfOk result (λ found. Checks names.now parts line.now found) }
{
    let formed = are_in_form(alloc, &parts, names)?;
    if !formed {
        return Ok(None);
    }
    let answer = assembled(parts);
    let same = prints_as(alloc, &answer, line, names)?;
    if same { Ok(Some(answer)) } else { Ok(None) }
}

// The answer in form whose text a line is, if there is one.
fn find_answer(alloc: Global, line: &[u8], names: &mut Names) -> Result<Option<Answer>, Memory>
    requires room { HasRoom names.old (length line.now) }
    requires size { length line.now ≤ 2 ^ 31 }
    ensures found { IfOk result (λ found. IsFound names.new line.now found) }
    ensures finds { IfOk result (λ found. FindsAnswer names.new line.now found) }
    ensures table { Moves names.old (length line.now) names.new 0 }
{
    let parts = read_parts(alloc, line, names)?;
    checked(alloc, parts, line, names)
}

/// The answer in form whose text a line is, without a line's end. Its symbols and strings are added
/// to the table, also where none is found; those that were there keep their numbers.
pub fn read_answer(alloc: Global, line: &[u8], names: &mut Names) -> Result<Answer, AnswerFault>
    requires spelled { AreSymbols names.old }
    requires few { IsSmall names.old }
    requires size { length line.now ≤ 2 ^ 31 }
    ensures read { IfOk result (λ answer. IsTextOf names.new line.now (meaning answer)) }
    ensures gives { GivesAnswer names.new line.now result }
    ensures spelled { AreSymbols names.new }
    ensures extends { Extends (length line.now) names.old names.new }
{
    match find_answer(alloc, line, names) {
        Ok(Some(answer)) => Ok(answer),
        Ok(None) => Err(AnswerFault::NotAnAnswer),
        Err(_) => Err(AnswerFault::Memory),
    }
}
