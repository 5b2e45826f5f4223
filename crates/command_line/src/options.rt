//! What a line of the command asks for.

ghost use Rattle.std.specs.Prelude.{◌≡◌, IfOk, Some, option_map};
ghost use Rattle.command_line.specs.WordsRead.{FindsLine, Reads, line_asked, line_seen};
ghost use Rattle.command_line.specs.Lines as lines;
ghost use Rattle.command_line.specs.Lines.{texts};
ghost use Rattle.command_line.specs.CodeValues.{given_of, text_of};

use crate::fault::WordsFault;
use crate::given::{Given, given_by};
use crate::name::Name;
use crate::values::{dialect_asked, file_asked, load_asked, number_asked};
use kan_grammar::Dialect;
use kan_terms::Memory;
use std::alloc::Global;

/// What a line of the command asks for, with the value of each option that it doesn't name.
#[derive(Drop)]
pub struct Options {
    /// How many threads work beside the one that answers.
    pub workers: u32,
    /// How many pulls each run makes at most.
    pub fuel: u64,
    /// How many pulls the workers may have begun ahead of those that are made.
    pub ahead: u32,
    /// How many pulls a round has at most.
    pub round: u32,
    /// Whether the relation library stands before the text.
    pub library: bool,
    /// The number of the generated load that is run in place of a text.
    pub load: Option<u32>,
    /// Which goals suspend.
    pub dialect: Dialect,
    /// The file that the text is read from, or none for standard input.
    pub file: Option<Name>,
}

// What is asked for, with the file's name as its word has it.
#[derive(Clone, Copy)]
struct Line<'a> {
    workers: u32,
    fuel: u32,
    ahead: u32,
    round: u32,
    library: bool,
    load: Option<u32>,
    dialect: Dialect,
    file: Option<&'a str>,
}

// What given values ask for.
fn asked<'a>(given: Given<'a>) -> Option<Line<'a>>
    ensures { option_map line_seen result ≡ lines.line_from_values (given_of given.entry) }
{
    let workers = number_asked(0, 0, 64, given.workers)?;
    let fuel = number_asked(100_000, 1, 1_000_000, given.fuel)?;
    let ahead = number_asked(256, 1, 65_536, given.ahead)?;
    let round = number_asked(8_192, 1, 65_536, given.round)?;
    let load = load_asked(given.load)?;
    let dialect = dialect_asked(given.dialect)?;
    let file = file_asked(given.load.is_some(), given.file)?;
    Some(Line {
        workers,
        fuel,
        ahead,
        round,
        library: given.lib || load.is_some(),
        load,
        dialect,
        file,
    })
}

// The name of a file, if there is one.
fn file_named(alloc: Global, file: Option<&str>) -> Result<Option<Name>, Memory>
    ensures { IfOk result (λ name. name ≡ text_of file.entry) }
{
    match file {
        Some(text) => Ok(Some(Name::of(alloc, text)?)),
        None => Ok(None),
    }
}

// The options of a line.
fn options_of(alloc: Global, line: &Line) -> Result<Options, WordsFault>
    ensures { Reads (Some (line_seen line.now)) result }
{
    let Ok(file) = file_named(alloc, line.file) else {
        return Err(WordsFault::Memory);
    };
    Ok(Options {
        workers: line.workers,
        fuel: u64::from(line.fuel),
        ahead: line.ahead,
        round: line.round,
        library: line.library,
        load: line.load,
        dialect: line.dialect,
        file,
    })
}

// The line that is asked for, if what was given asks for one.
#[tactic(auto, unfolding(crate::specs::Lines::line))]
fn line_by<'a>(alloc: Global, words: &'a [&'a str]) -> Result<Line<'a>, WordsFault>
    ensures { FindsLine (lines.line (texts words.now)) result }
{
    match given_by(alloc, words) {
        Ok(given) => asked(given).ok_or(WordsFault::Usage),
        Err(fault) => Err(fault),
    }
}

/// The options that words ask for, where they are a line of the command.
///
/// The words are those after the program's name. An option stands as `--name value` or as
/// `--name=value`, each at most once, in any order and beside at most one name of a file; the word
/// `--` ends the options.
pub fn read_words(alloc: Global, words: &[&str]) -> Result<Options, WordsFault>
    ensures reads { Reads (lines.line (texts words.now)) result }
    ensures range { IfOk result (λ options. lines.IsInRange (line_asked options)) }
{
    match line_by(alloc, words) {
        Ok(line) => options_of(alloc, &line),
        Err(fault) => Err(fault),
    }
}
