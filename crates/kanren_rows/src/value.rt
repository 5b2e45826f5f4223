//! What stands behind keywords, read.

use crate::fault::Fault;
use kan_base::Status;
use std::alloc::Global;

const STATUSES: [(&str, Status); 7] = [
    ("done", Status::Done),
    ("fuel", Status::Fuel),
    ("usage", Status::Usage),
    ("read fault", Status::ReadFault),
    ("write fault", Status::WriteFault),
    ("too long", Status::TooLong),
    ("memory", Status::Memory),
];

/// Bytes as text.
pub(crate) fn text_of(bytes: &[u8]) -> Result<&str, Fault> {
    match std::str::from_utf8(bytes) {
        Ok(text) => Ok(text),
        Err(_) => Err(Fault::Wrong("bytes that are no text")),
    }
}

/// A number.
pub(crate) fn number_of(text: &str) -> Result<u32, Fault> {
    match text.parse::<u32>() {
        Ok(number) => Ok(number),
        Err(_) => Err(Fault::Wrong("no number stands where one must")),
    }
}

/// Numbers with blanks between them.
pub(crate) fn numbers_of(alloc: Global, text: &str) -> Result<Vec<u32>, Fault> {
    let mut numbers = Vec::new(alloc);
    for word in text.split_whitespace() {
        numbers.push(number_of(word)?)?;
    }
    Ok(numbers)
}

/// Words with blanks between them.
pub(crate) fn add_words(alloc: Global, text: &str, words: &mut Vec<String>) -> Result<(), Fault> {
    for word in text.split_whitespace() {
        words.push(String::from_str(alloc, word)?)?;
    }
    Ok(())
}

/// A status that isn't a refusal.
pub(crate) fn status_of(text: &str) -> Result<Status, Fault> {
    for (name, status) in STATUSES {
        if name == text {
            return Ok(status);
        }
    }
    Err(Fault::Wrong("no status stands where one must"))
}

// The number and the offset in the line of a refusal.
fn refusal_in(text: &str) -> Option<(u8, u32)> {
    let (number, rest) = text.split_once(" at ")?;
    let (at, _) = rest.split_once(": ")?;
    Some((number.parse::<u8>().ok()?, at.parse::<u32>().ok()?))
}

/// The status of a refusal, by its line without the first word.
pub(crate) fn refusal_of(text: &str) -> Result<Status, Fault> {
    match refusal_in(text) {
        Some((number, at)) => Ok(Status::Text(at, number)),
        None => Err(Fault::Wrong("the refusal isn't of the form 'error K at O: T'")),
    }
}

// The numbers from the first to the last of `A..B`.
fn range_of(word: &str) -> Option<(u32, u32)> {
    let (first, last) = word.split_once("..")?;
    Some((first.parse::<u32>().ok()?, last.parse::<u32>().ok()?))
}

// Adds the numbers of a range, as words.
fn add_range(alloc: Global, first: u32, last: u32, words: &mut Vec<String>) -> Result<(), Fault> {
    for number in first..=last {
        words.push(format!(in alloc; "{number}")?)?;
    }
    Ok(())
}

/// Adds words with blanks between them, and the numbers of ranges.
pub(crate) fn add_each(alloc: Global, text: &str, words: &mut Vec<String>) -> Result<(), Fault> {
    for word in text.split_whitespace() {
        match range_of(word) {
            Some((first, last)) => add_range(alloc, first, last, words)?,
            None => words.push(String::from_str(alloc, word)?)?,
        }
    }
    Ok(())
}
