//! Cases, made of their lines.

use crate::braces::expand;
use crate::case::Case;
use crate::fault::Fault;
use crate::keyword::Keyword;
use crate::table::{Line, Misfit};
use crate::value::{add_words, number_of, numbers_of, refusal_of, status_of, text_of};
use kan_base::{Place, Source, take_text};
use std::alloc::Global;
use std::mem;

// A case, as far as its lines were taken.
#[derive(Drop)]
struct Draft {
    case: Case,
    // Whether a line of the input, or of the file that was named last, was taken.
    begun: bool,
    // How many bytes the input has, where that is said.
    cut: Option<u32>,
    // How many bytes are put, where that is said.
    put: Option<u32>,
}

impl Draft {
    // Adds a line to the input, or to the file that was named last. There is a line feed between
    // two lines.
    fn add_text(&mut self, line: &[u8]) -> Result<(), Fault> {
        let begun = mem::replace(&mut self.begun, true);
        match self.case.files.last_mut() {
            Some(file) => join_line(line, begun, &mut file.1),
            None => join_line(line, begun, &mut self.case.input),
        }
    }

    // Adds a line to the output. There is a line feed behind it.
    fn add_output(&mut self, line: &[u8]) -> Result<(), Fault> {
        self.case.output.extend_from_slice(line)?;
        self.case.output.push(b'\n')?;
        Ok(())
    }

    // Takes the line of a refusal without its first word.
    fn refuse(&mut self, line: &[u8]) -> Result<(), Fault> {
        self.case.status = refusal_of(text_of(line)?)?;
        self.case.output.extend_from_slice(b"error ")?;
        self.add_output(line)
    }

    // Names a file, whose lines come behind.
    fn begin_file(&mut self, alloc: Global, name: &str) -> Result<(), Fault> {
        let name = String::from_str(alloc, name)?;
        self.case.files.push((name, Vec::new(alloc)))?;
        self.begun = false;
        Ok(())
    }

    // Takes what a line says of the words, the source, the sink and the status.
    fn take_text(&mut self, alloc: Global, keyword: Keyword, text: &str) -> Result<(), Fault> {
        match keyword {
            Keyword::Words => add_words(alloc, text, &mut self.case.words)?,
            Keyword::Word => self.case.words.push(String::from_str(alloc, text)?)?,
            Keyword::File => self.begin_file(alloc, text)?,
            Keyword::Cut => self.cut = Some(number_of(text)?),
            Keyword::SourcePiece => self.case.source.piece = number_of(text)?,
            Keyword::SourceFails => self.case.source.fails = numbers_of(alloc, text)?,
            Keyword::SinkPiece => self.case.sink.piece = number_of(text)?,
            Keyword::SinkRoom => self.case.room = number_of(text)?,
            Keyword::SinkFails => self.case.sink.fails = numbers_of(alloc, text)?,
            Keyword::Put => self.put = Some(number_of(text)?),
            Keyword::Status => self.case.status = status_of(text)?,
            _ => {}
        }
        Ok(())
    }

    // Takes a line.
    fn take<S: Source>(
        &mut self,
        alloc: Global,
        folder: &mut S,
        keyword: Keyword,
        bytes: &[u8],
    ) -> Result<(), Fault> {
        match keyword {
            Keyword::Text => self.add_text(bytes),
            Keyword::TextFile => self.add_text(&lines_of(alloc, folder, text_of(bytes)?)?),
            Keyword::Output => self.add_output(bytes),
            Keyword::OutputFile => self.add_output(&lines_of(alloc, folder, text_of(bytes)?)?),
            Keyword::Error => self.refuse(bytes),
            _ => self.take_text(alloc, keyword, text_of(bytes)?),
        }
    }
}

// Adds a line to a text, with a line feed before it where another line was added.
fn join_line(line: &[u8], begun: bool, to: &mut Vec<u8>) -> Result<(), Fault> {
    if begun {
        to.push(b'\n')?;
    }
    to.extend_from_slice(line)?;
    Ok(())
}

// The lines of a file, without the last line feed.
fn lines_of<S: Source>(alloc: Global, folder: &mut S, name: &str) -> Result<Vec<u8>, Fault> {
    let Ok(mut bytes) = take_text(alloc, folder, Place::File(name)) else {
        return Err(Fault::Wrong("there is no such file"));
    };
    if bytes.ends_with(b"\n") {
        bytes.pop();
    }
    Ok(bytes)
}

// Keeps the first bytes of a text.
fn keep_front(count: Option<u32>, bytes: &mut Vec<u8>) -> Result<(), Fault> {
    let Some(count) = count else {
        return Ok(());
    };
    if bytes.len() < count as usize {
        return Err(Fault::Wrong("there are fewer bytes than are to be kept"));
    }
    bytes.truncate(count as usize);
    Ok(())
}

// Takes the lines of a case into a draft.
fn take_lines<S: Source>(
    alloc: Global,
    folder: &mut S,
    lines: &[Line<'_>],
    each: &str,
    draft: &mut Draft,
) -> Result<(), Misfit> {
    for line in lines {
        let taken = match expand(alloc, line.rest, each) {
            Ok(bytes) => draft.take(alloc, folder, line.keyword, &bytes),
            Err(fault) => Err(fault),
        };
        if let Err(fault) = taken {
            return Err(Misfit {
                number: line.number,
                fault,
            });
        }
    }
    Ok(())
}

// Keeps of the input and of the output as much as is said.
fn finish(mut draft: Draft) -> Result<Case, Fault> {
    keep_front(draft.cut, &mut draft.case.input)?;
    keep_front(draft.put, &mut draft.case.output)?;
    Ok(draft.case)
}

/// The case of these lines, where `{each}` is this word. The number is that of the case's first
/// line. What stands in files is read from the folder.
pub(crate) fn build<S: Source>(
    alloc: Global,
    folder: &mut S,
    number: u64,
    lines: &[Line<'_>],
    each: &str,
) -> Result<Case, Misfit> {
    let mut draft = Draft {
        case: Case::new(alloc),
        begun: false,
        cut: None,
        put: None,
    };
    take_lines(alloc, folder, lines, each, &mut draft)?;
    finish(draft).map_err(|fault| Misfit { number, fault })
}
