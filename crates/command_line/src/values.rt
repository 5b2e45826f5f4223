//! What given values ask for.

ghost use Rattle.std.specs.Prelude.{◌≡◌, ◌≤◌, ◌<◌, ◌^◌, option_map, is_some};
ghost use Rattle.command_line.specs.Lines as lines;
ghost use Rattle.command_line.specs.CodeValues.{text_of};

use kan_grammar::{Dialect, all_digits};

// A number that lies in a range.
fn in_range(low: u32, high: u32, number: u32) -> Option<u32>
    ensures { result ≡ lines.in_range low high number }
{
    if low <= number && number <= high {
        Some(number)
    } else {
        None
    }
}

// The number that a word is, where it lies in a range.
fn number_in(low: u32, high: u32, word: &str) -> Option<u32>
    ensures { result ≡ lines.number_in low high word.now }
{
    if !all_digits(word.as_bytes()) {
        return None;
    }
    match word.parse::<u32>() {
        Ok(number) => in_range(low, high, number),
        Err(_) => None,
    }
}

/// The number that is asked for.
pub(crate) fn number_asked(default: u32, low: u32, high: u32, given: Option<&str>) -> Option<u32>
    ensures { result ≡ lines.number_asked default low high (text_of given.entry) }
{
    match given {
        Some(word) => number_in(low, high, word),
        None => Some(default),
    }
}

/// The load that is asked for, if any.
pub(crate) fn load_asked(given: Option<&str>) -> Option<Option<u32>>
    ensures { result ≡ lines.load_asked (text_of given.entry) }
{
    match given {
        Some(word) => Some(Some(number_in(0, 400, word)?)),
        None => Some(None),
    }
}

// The dialect of a name.
fn dialect_of(word: &str) -> Option<Dialect>
    ensures { result ≡ lines.dialect_of word.now }
{
    if word == "book" {
        Some(Dialect::Book)
    } else if word == "all" {
        Some(Dialect::All)
    } else {
        None
    }
}

/// The dialect that is asked for.
pub(crate) fn dialect_asked(given: Option<&str>) -> Option<Dialect>
    ensures { result ≡ lines.dialect_asked (text_of given.entry) }
{
    match given {
        Some(word) => dialect_of(word),
        None => Some(Dialect::Book),
    }
}

// The file of a name.
fn file_of(name: &str) -> Option<Option<&str>>
    ensures { option_map text_of result ≡ lines.file_of name.now }
{
    if name.is_empty() {
        None
    } else if name == "-" {
        Some(None)
    } else {
        Some(Some(name))
    }
}

/// The file that is asked for. None is standard input.
pub(crate) fn file_asked(has_load: bool, given: Option<&str>) -> Option<Option<&str>>
    ensures { option_map text_of result ≡ lines.file_asked has_load (text_of given.entry) }
{
    match given {
        Some(_) if has_load => None,
        Some(name) => file_of(name),
        None => Some(None),
    }
}
