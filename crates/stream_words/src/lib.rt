//! Programs, streams and suspensions spelled as words, and as numbers, so that clauses can hold
//! them as values. Each function has its law for its contract, and does nothing.
#![tactic(auto)]

ghost use Rattle.stream_words.specs.Reading.{WordsAreRead, ProgramsAreRead};
ghost use Rattle.stream_words.specs.Reading.{StreamsAreRead, SuspensionsAreRead};

/// A word is read off its numbers.
#[tactic(auto, using(crate::proofs::ReadBack::words_are_read))]
pub fn words_are_read_back()
    ensures { WordsAreRead }
{}

/// A program is read off its word.
#[tactic(auto, using(crate::proofs::ReadBack::programs_are_read))]
pub fn programs_are_read_back()
    ensures { ProgramsAreRead }
{}

/// A stream is read off its word.
#[tactic(auto, using(crate::proofs::ReadBack::streams_are_read))]
pub fn streams_are_read_back()
    ensures { StreamsAreRead }
{}

/// A suspension is read off its word.
#[tactic(auto, using(crate::proofs::ReadBack::suspensions_are_read))]
pub fn suspensions_are_read_back()
    ensures { SuspensionsAreRead }
{}
