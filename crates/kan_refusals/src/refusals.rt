//! Refusals, their numbers and what they are called.

ghost use Rattle.std.specs.Prelude.{◌≡◌, IfOk, string_bytes};
ghost use Rattle.kan_refusals.specs.Refusals as refusals;
ghost use Rattle.kan_refusals.specs.declared.refusals.Refusal.{Refusal};

use std::alloc::{AllocError, Global};
use std::fmt::Write;

/// Why a text is refused.
#[derive(Clone, Copy, Debug, PartialEq, Eq)]
pub enum Refusal {
    /// Bytes that are part of no character.
    NotUtf8,
    /// A list that nothing closes.
    UnclosedList,
    /// A close that no list of its shape waits for.
    StrayClose,
    /// A token that no text may hold, or a prefix without its datum.
    BadToken,
    /// A dot that isn't between an element and the last datum of its list.
    BadDot,
    /// A datum deeper than data may be.
    TooDeep,
    /// A number that 128 bits don't hold.
    NumberRange,
    /// A name that answers alone may have.
    ReservedName,
    /// A top form that isn't one of the language.
    UnknownForm,
    /// A form, goal, term, binder or limit of a wrong shape.
    BadShape,
    /// A name that no binder around it binds.
    UnboundName,
    /// A call of what no relation is called.
    UnknownRelation,
    /// A call with another number of arguments than its relation has.
    WrongCount,
    /// A relation's name that another one has, or that is a name of the language.
    DefinedTwice,
    /// A tag that isn't a quoted symbol.
    BadTag,
    /// A quotation mark that begins no string.
    BadString,
}

impl Refusal {
    /// The number and what it is called.
    fn entry(self) -> (u8, &'static str)
        ensures number { result.0 ≡ refusals.number_of self }
        ensures text { result.1.now ≡ refusals.text_of self }
    {
        match self {
            Refusal::NotUtf8 => (1, "not UTF-8"),
            Refusal::UnclosedList => (2, "list not closed"),
            Refusal::StrayClose => (3, "close without open"),
            Refusal::BadToken => (4, "bad token"),
            Refusal::BadDot => (5, "bad dot"),
            Refusal::TooDeep => (6, "too deep"),
            Refusal::NumberRange => (7, "number out of range"),
            Refusal::ReservedName => (8, "reserved name"),
            Refusal::UnknownForm => (9, "unknown form"),
            Refusal::BadShape => (10, "bad shape"),
            Refusal::UnboundName => (11, "unbound name"),
            Refusal::UnknownRelation => (12, "unknown relation"),
            Refusal::WrongCount => (13, "wrong number of arguments"),
            Refusal::DefinedTwice => (14, "defined twice"),
            Refusal::BadTag => (15, "tag is not a quoted symbol"),
            Refusal::BadString => (16, "bad string"),
        }
    }

    /// The number by which statuses and lines say it, which no other refusal has.
    pub fn number(self) -> u8
        ensures number { result ≡ refusals.number_of self }
        ensures named { (other : Refusal) → refusals.number_of other ≡ result → other ≡ self }
    {
        self.entry().0
    }

    /// What it is called.
    pub fn text(self) -> &'static str
        ensures { result.now ≡ refusals.text_of self }
    {
        self.entry().1
    }
}

/// The line that says of a text that it is refused at this offset.
pub fn error_line(alloc: Global, at: u32, refusal: Refusal) -> Result<String, AllocError>
    ensures { IfOk result (λ line. string_bytes line ≡ refusals.error_line at refusal) }
{
    let number = refusal.number();
    let text = refusal.text();
    let mut line = String::new(alloc);
    writeln!(line, "error {number} at {at}: {text}")?;
    Ok(line)
}
