//! A whole text, read to its end.

ghost use Rattle.std.specs.Prelude.{◌≡◌, ◌+◌, ◌<◌, ◌≤◌, length, IfOk, IfErr};
ghost use Rattle.std.specs.Io.KnownBytes.{IsAtEnd};
ghost use Rattle.kan_base.specs.Spots.{spot};
ghost use Rattle.kan_base.specs.Views.{HoldsTheSame};
ghost use Rattle.kan_base.specs.Texts.{greatest_text, IsWhole, Stops, StopsAfter, AddsPiece};
ghost use Rattle.kan_base.specs.Texts.{faults_after_text};

use crate::sources::{Place, Source};
use std::alloc::{AllocError, Global};

/// The greatest length of a text, in bytes.
pub const GREATEST_TEXT: usize = 1_048_576;

/// How many bytes one read asks for at most.
const PIECE: usize = 65_536;

/// Why no text was taken.
#[derive(Clone, Copy, Debug, PartialEq, Eq)]
pub enum TextStop {
    /// The source failed.
    Fault,
    /// The text is longer than a text may be.
    TooLong,
    /// There was no memory for the text.
    Memory,
}

/// Opens a place and reads it to its end.
pub fn take_text<S: Source>(
    alloc: Global,
    source: &mut S,
    place: Place<'_>,
) -> Result<Vec<u8>, TextStop>
    ensures fits { IfOk result (λ text. length text.items ≤ greatest_text) }
    ensures whole { IfOk result (λ text.
        IsWhole ((S.view source.old).holds (spot place.entry)) (S.view source.new).left
        text.items) }
    ensures stopped { IfErr result (λ stop.
        Stops stop ((S.view source.old).holds (spot place.entry)) (S.view source.new).left) }
    ensures same { HoldsTheSame (S.view source.old) (S.view source.new) }
    ensures faults { (S.view source.new).faults
        ≡ faults_after_text result (S.view source.old).faults }
{
    if source.open(place).is_err() {
        return Err(TextStop::Fault);
    }
    read_to_end(alloc, source)
}

/// Reads what is left of the opened place.
fn read_to_end<S: Source>(alloc: Global, source: &mut S) -> Result<Vec<u8>, TextStop>
    ensures fits { IfOk result (λ text. length text.items ≤ greatest_text) }
    ensures whole { IfOk result (λ text.
        IsWhole (S.view source.old).left (S.view source.new).left text.items) }
    ensures stopped { IfErr result (λ stop.
        Stops stop (S.view source.old).left (S.view source.new).left) }
    ensures same { HoldsTheSame (S.view source.old) (S.view source.new) }
    ensures faults { (S.view source.new).faults
        ≡ faults_after_text result (S.view source.old).faults }
{
    let Ok(mut buffer) = new_buffer(alloc) else {
        return Err(TextStop::Memory);
    };
    let mut text = Vec::new(alloc);
    loop {
        // One byte past the greatest text tells that there is more.
        let want = PIECE.min(GREATEST_TEXT + 1 - text.len());
        match add_piece(source, &mut buffer[..want], &mut text) {
            Ok(0) => return Ok(text),
            Ok(_) => {}
            Err(stop) => return Err(stop),
        }
    }
}

/// Room for one piece.
fn new_buffer(alloc: Global) -> Result<Vec<u8>, AllocError>
    ensures { IfOk result (λ buffer. length buffer.items ≡ PIECE) }
{
    vec![in alloc; 0u8; PIECE]
}

/// Reads one piece and adds it to the text. Answers how many bytes it has.
fn add_piece<S: Source>(
    source: &mut S,
    buffer: &mut [u8],
    text: &mut Vec<u8>,
) -> Result<usize, TextStop>
    requires some { 0 < length buffer.old }
    requires fits { length text.old.items ≤ greatest_text }
    requires room { length text.old.items + length buffer.old ≤ greatest_text + 1 }
    ensures added { IfOk result (λ n.
        AddsPiece (S.view source.old).left (S.view source.new).left text.old.items
        text.new.items n) }
    ensures at_end { IfOk result (λ n. n ≡ 0 → IsAtEnd (S.view source.old).left) }
    ensures stopped { IfErr result (λ stop.
        StopsAfter text.old.items stop (S.view source.old).left (S.view source.new).left) }
    ensures same { HoldsTheSame (S.view source.old) (S.view source.new) }
    ensures faults { (S.view source.new).faults
        ≡ faults_after_text result (S.view source.old).faults }
{
    let Ok(n) = source.read(buffer) else {
        return Err(TextStop::Fault);
    };
    if text.len() + n > GREATEST_TEXT {
        return Err(TextStop::TooLong);
    }
    if text.extend_from_slice(&buffer[..n]).is_err() {
        return Err(TextStop::Memory);
    }
    Ok(n)
}
