//! The text of a datum.

ghost use Rattle.std.specs.Prelude.{◌≡◌, ◌+◌, ◌<◌, ◌++◌, OnOk, IfOk, codes, string_bytes};
ghost use Rattle.kan_grammar.specs.Data.Printed.{datum_text, named_text, pairs, pairs_within};
ghost use Rattle.kan_grammar.specs.Data.Printed.{prefix_name};
ghost use Rattle.sexpr.specs.Meaning.{prefix_of};
ghost use Rattle.sexpr.specs.WrittenForms.{written_form};
ghost use Rattle.kan_terms.specs.Table.{name_of};
ghost use Rattle.kan_model.specs.Answers.Decimals.{number_text};
ghost use Rattle.kan_model.specs.Answers.Text.{truth_text};
ghost use Rattle.sexpr.specs.Printing.{string_atom_text, within, Falls, Prints, rest_text};
ghost use Rattle.sexpr.specs.Printing.{cost_within, work_text, work_cost};
ghost use Rattle.sexpr.specs.declared.printer.Work.TheVariants as work_variants;

use crate::data::{Datum, DatumKind, Prefix, last_datum};
use crate::strings::print_string;
use kan_terms::{Memory, Names};
use std::alloc::Global;

/// What is left to print.
#[derive(Clone, Copy)]
pub(crate) enum Work<'a> {
    /// A datum, as an element or at the top.
    Datum(&'a Datum),
    /// The elements that follow one in its list, and the datum after the list's dot.
    Rest(&'a [Datum], Option<&'a Datum>),
    /// The datum after the dot of a list.
    Tail(&'a Datum),
    /// The close of a list.
    Close,
}

/// The text of a datum, as it is read as pairs: with round parentheses, one space between elements,
/// and prefixes written out as lists. A symbol without a name prints as nothing, and so does a
/// string without a text.
pub fn print(alloc: Global, datum: &Datum, names: &Names) -> Result<Vec<u8>, Memory>
    ensures { IfOk result (λ text. text.items ≡ datum_text (written_form names.now datum.now)) }
{
    let mut text = String::new(alloc);
    let mut works = Vec::new(alloc);
    works.push(Work::Datum(datum))?;
    while let Some(work) = works.pop() {
        print_work(work, names, &mut text, &mut works)?;
    }
    Ok(text.into_bytes())
}

/// Prints what is on top, as far as its first part.
fn print_work<'a>(
    work: Work<'a>,
    names: &Names,
    text: &mut String,
    works: &mut Vec<Work<'a>>,
) -> Result<(), Memory>
    ensures printed { OnOk result (Prints names.now
        (string_bytes text.old) (string_bytes text.new) works.old.items works.new.items
        (work_text names.now work.entry)) }
    ensures falls { OnOk result (Falls names.now works.old.items works.new.items
        (work_cost names.now work.entry)) }
{
    match work {
        Work::Datum(datum) => print_datum(datum, names, text, works),
        Work::Rest(items, last) => print_rest(items, last, names, text, works),
        Work::Tail(datum) => print_tail(datum, names, text, works),
        Work::Close => {
            text.push(')')?;
            Ok(())
        }
    }
}

/// Prints a datum, as far as its first part.
fn print_datum<'a>(
    datum: &'a Datum,
    names: &Names,
    text: &mut String,
    works: &mut Vec<Work<'a>>,
) -> Result<(), Memory>
    ensures printed { OnOk result (Prints names.now
        (string_bytes text.old) (string_bytes text.new) works.old.items works.new.items
        (work_text names.now (work_variants.Datum datum.entry))) }
    ensures falls { OnOk result (Falls names.now works.old.items works.new.items
        (work_cost names.now (work_variants.Datum datum.entry))) }
{
    match &datum.kind {
        DatumKind::Symbol(number) => text.push_str(names.name(*number).unwrap_or(""))?,
        DatumKind::Text(number) => print_text(*number, names, text)?,
        DatumKind::Number(number) => print_number(*number, text)?,
        DatumKind::Truth(truth) => text.push_str(truth_name(*truth))?,
        DatumKind::List(items, last) => return print_list(
            items.as_slice(),
            last_datum(last),
            names,
            text,
            works,
        ),
        DatumKind::Prefixed(prefix, inner) => {
            text.push('(')?;
            text.push_str(name_of(*prefix))?;
            text.push(' ')?;
            works.push(Work::Close)?;
            works.push(Work::Datum(inner.get()))?;
        }
    }
    Ok(())
}

/// Prints a whole number.
fn print_number(number: i128, text: &mut String) -> Result<(), Memory>
    ensures { OnOk result (string_bytes text.new ≡ string_bytes text.old ++ number_text number) }
{
    write!(text, "{number}")?;
    Ok(())
}

/// A truth value as it is written.
fn truth_name(truth: bool) -> &'static str
    ensures { result.now ≡ truth_text truth }
{
    if truth { "#t" } else { "#f" }
}

/// Prints the string that has a number, and nothing where none has it.
fn print_text(number: u32, names: &Names, text: &mut String) -> Result<(), Memory>
    ensures { OnOk result
        (string_bytes text.new
        ≡ string_bytes text.old ++ string_atom_text (name_of names.now.strings number)) }
{
    match names.string(number) {
        Some(string) => print_string(text, string),
        None => Ok(()),
    }
}

/// Prints a list, as far as its first element.
fn print_list<'a>(
    items: &'a [Datum],
    last: Option<&'a Datum>,
    names: &Names,
    text: &mut String,
    works: &mut Vec<Work<'a>>,
) -> Result<(), Memory>
    ensures printed { OnOk result (Prints names.now
        (string_bytes text.old) (string_bytes text.new) works.old.items works.new.items
        (named_text (pairs_within (within names.now items.entry last.entry)))) }
    ensures falls { OnOk result (Falls names.now works.old.items works.new.items
        (3 + cost_within (within names.now items.entry last.entry))) }
{
    if let Some((first, rest)) = items.split_first() {
        text.push('(')?;
        works.push(Work::Close)?;
        works.push(Work::Rest(rest, last))?;
        works.push(Work::Datum(first))?;
        return Ok(());
    }
    match last {
        Some(datum) => works.push(Work::Datum(datum))?,
        None => text.push_str("()")?,
    }
    Ok(())
}

/// Prints what follows an element of a list, as far as the next one.
fn print_rest<'a>(
    items: &'a [Datum],
    last: Option<&'a Datum>,
    names: &Names,
    text: &mut String,
    works: &mut Vec<Work<'a>>,
) -> Result<(), Memory>
    ensures printed { OnOk result (Prints names.now
        (string_bytes text.old) (string_bytes text.new) works.old.items works.new.items
        (rest_text (pairs_within (within names.now items.entry last.entry)))) }
    ensures falls { OnOk result (Falls names.now works.old.items works.new.items
        (1 + cost_within (within names.now items.entry last.entry))) }
{
    if let Some((first, rest)) = items.split_first() {
        text.push(' ')?;
        works.push(Work::Rest(rest, last))?;
        works.push(Work::Datum(first))?;
        return Ok(());
    }
    if let Some(datum) = last {
        works.push(Work::Tail(datum))?;
    }
    Ok(())
}

/// Prints the datum after the dot of a list, as far as its first part: a list goes on with its
/// elements.
fn print_tail<'a>(
    datum: &'a Datum,
    names: &Names,
    text: &mut String,
    works: &mut Vec<Work<'a>>,
) -> Result<(), Memory>
    ensures printed { OnOk result (Prints names.now
        (string_bytes text.old) (string_bytes text.new) works.old.items works.new.items
        (work_text names.now (work_variants.Tail datum.entry))) }
    ensures falls { OnOk result (Falls names.now works.old.items works.new.items
        (work_cost names.now (work_variants.Tail datum.entry))) }
{
    match &datum.kind {
        DatumKind::List(items, last) => works.push(Work::Rest(items.as_slice(), last_datum(last)))?,
        DatumKind::Prefixed(prefix, inner) => {
            text.push(' ')?;
            text.push_str(name_of(*prefix))?;
            text.push(' ')?;
            works.push(Work::Datum(inner.get()))?;
        }
        DatumKind::Symbol(_) => return print_last(datum, names, text, works),
        DatumKind::Text(_) => return print_last(datum, names, text, works),
        DatumKind::Number(_) => return print_last(datum, names, text, works),
        DatumKind::Truth(_) => return print_last(datum, names, text, works),
    }
    Ok(())
}

/// Prints the dot before a last part that is no list.
fn print_last<'a>(
    datum: &'a Datum,
    names: &Names,
    text: &mut String,
    works: &mut Vec<Work<'a>>,
) -> Result<(), Memory>
    requires { rest_text (pairs (written_form names.now datum.now))
        ≡ codes " . " ++ named_text (pairs (written_form names.now datum.now)) }
    ensures printed { OnOk result (Prints names.now
        (string_bytes text.old) (string_bytes text.new) works.old.items works.new.items
        (work_text names.now (work_variants.Tail datum.entry))) }
    ensures falls { OnOk result (Falls names.now works.old.items works.new.items
        (work_cost names.now (work_variants.Tail datum.entry))) }
{
    text.push_str(" . ")?;
    works.push(Work::Datum(datum))?;
    Ok(())
}

/// The symbol that a prefix stands for.
fn name_of(prefix: Prefix) -> &'static str
    ensures { result.now ≡ prefix_name (prefix_of prefix) }
{
    match prefix {
        Prefix::Quote => "quote",
        Prefix::Quasiquote => "quasiquote",
        Prefix::Unquote => "unquote",
    }
}
