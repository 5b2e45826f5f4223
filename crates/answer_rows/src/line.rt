//! A line that is read back.

ghost use Rattle.std.specs.Prelude.{◌≡◌};
ghost use Rattle.kan_terms.specs.Table.{no_names};

use answer_reading::{AnswerFault, read_answer};
use kan_terms::{Memory, Names};
use reify::print_answer;
use std::alloc::Global;

// How many bytes a line has at most.
const LONGEST: usize = 1_048_576;

/// What comes of reading a line.
#[derive(Clone, Copy, Debug, PartialEq, Eq)]
pub(crate) enum Reading {
    /// An answer that is printed as the line.
    Same,
    /// An answer that is printed otherwise, or too long a line.
    Other,
    /// The line is no answer.
    Refused,
}

/// Reads a line, and prints what is read.
pub(crate) fn read_line(alloc: Global, line: &str, names: &mut Names) -> Result<Reading, Memory>
    requires { names.old ≡ no_names }
{
    if line.len() > LONGEST {
        return Ok(Reading::Other);
    }
    match read_answer(alloc, line.as_bytes(), names) {
        Ok(answer) => {
            let text = print_answer(alloc, &answer, names)?;
            if text.as_slice() == line.as_bytes() {
                Ok(Reading::Same)
            } else {
                Ok(Reading::Other)
            }
        }
        Err(AnswerFault::NotAnAnswer) => Ok(Reading::Refused),
        Err(AnswerFault::Memory) => Err(Memory),
    }
}
