//! What was given: the values of options, and a file.

ghost use Rattle.std.specs.Prelude.{◌≡◌};
ghost use Rattle.clap.specs.Words.{found_of, rows_of};
ghost use Rattle.command_line.specs.Clap.{AreUtf8, given_in};
ghost use Rattle.std.specs.Str.{IsUtf8};
ghost use Rattle.command_line.specs.Lines as lines;
ghost use Rattle.command_line.specs.Lines.{texts};
ghost use Rattle.command_line.specs.CodeValues.{Gives, given_of};

use crate::command::command;
use crate::fault::{WordsFault, fault_of};
use clap::ArgMatches;
use std::alloc::Global;

/// The values of options, whether the library was given, and the name of the file.
#[derive(Clone, Copy)]
pub(crate) struct Given<'a> {
    pub(crate) workers: Option<&'a str>,
    pub(crate) fuel: Option<&'a str>,
    pub(crate) ahead: Option<&'a str>,
    pub(crate) round: Option<&'a str>,
    pub(crate) dialect: Option<&'a str>,
    pub(crate) load: Option<&'a str>,
    pub(crate) lib: bool,
    pub(crate) file: Option<&'a str>,
}

// What clap found.
#[tactic(auto, using(crate::proofs::MatchLaws::value_found, crate::proofs::MatchLaws::is_found))]
fn given_in<'a>(matches: &ArgMatches<'a>) -> Given<'a>
    ensures { given_of result ≡ given_in (rows_of (found_of matches.now)) }
{
    Given {
        workers: matches.get_str("workers"),
        fuel: matches.get_str("fuel"),
        ahead: matches.get_str("ahead"),
        round: matches.get_str("round"),
        dialect: matches.get_str("dialect"),
        load: matches.get_str("gen"),
        lib: matches.contains_id("lib"),
        file: matches.get_str("file"),
    }
}

// A text is UTF-8.
fn is_text(word: &str)
    ensures { IsUtf8 word.now }
{
    let _word = word;
}

// So are words.
fn are_texts(words: &[&str])
    ensures { AreUtf8 (texts words.now) }
{
    for word in words {
        is_text(word);
    }
}

/// What the words give, where they are parts of a line and each is given once.
pub(crate) fn given_by<'a>(alloc: Global, words: &'a [&'a str]) -> Result<Given<'a>, WordsFault>
    ensures { Gives (lines.values_given (texts words.now)) result }
{
    are_texts(words);
    let Ok(command) = command(alloc) else {
        return Err(WordsFault::Memory);
    };
    match command.try_get_matches_from(words) {
        Ok(matches) => Ok(given_in(&matches)),
        Err(error) => Err(fault_of(&error)),
    }
}
