//! What lines of cases begin with.

/// What a line of a case is about.
#[derive(Clone, Copy, PartialEq, Eq)]
pub(crate) enum Keyword {
    /// Words that the case is tried with in turn.
    Each,
    /// A line that the case is tried with in turn.
    One,
    /// Words of the command, with blanks between them.
    Words,
    /// One word of the command, as it stands.
    Word,
    /// A line of the text.
    Text,
    /// A file that holds lines of the text.
    TextFile,
    /// A file of the source, which the lines of text behind it fill.
    File,
    /// How many bytes of the text there are.
    Cut,
    /// How many bytes a read gives at most.
    SourcePiece,
    /// Which calls of the source fail.
    SourceFails,
    /// How many bytes a write takes at most.
    SinkPiece,
    /// How many bytes there is room for.
    SinkRoom,
    /// Which calls of the sink fail.
    SinkFails,
    /// A line of the output.
    Output,
    /// A file that holds lines of the output.
    OutputFile,
    /// How many bytes of the output are put.
    Put,
    /// The line and the status of a refusal.
    Error,
    /// The status.
    Status,
}

const KEYWORDS: [(&str, Keyword); 18] = [
    ("<", Keyword::Text),
    (">", Keyword::Output),
    ("error", Keyword::Error),
    ("each", Keyword::Each),
    ("one", Keyword::One),
    ("words", Keyword::Words),
    ("word", Keyword::Word),
    ("<<", Keyword::TextFile),
    ("file", Keyword::File),
    ("cut", Keyword::Cut),
    ("source piece", Keyword::SourcePiece),
    ("source fails", Keyword::SourceFails),
    ("sink piece", Keyword::SinkPiece),
    ("sink room", Keyword::SinkRoom),
    ("sink fails", Keyword::SinkFails),
    (">>", Keyword::OutputFile),
    ("put", Keyword::Put),
    ("status", Keyword::Status),
];

/// What stands behind a word and a blank at the front of a line.
pub(crate) fn behind<'a>(line: &'a str, word: &str) -> Option<&'a str> {
    let rest = line.strip_prefix(word)?;
    if rest.is_empty() {
        return Some(rest);
    }
    rest.strip_prefix(' ')
}

/// What a line begins with, and what stands behind it.
pub(crate) fn keyword_of(line: &str) -> Option<(Keyword, &str)> {
    for (word, keyword) in KEYWORDS {
        if let Some(rest) = behind(line, word) {
            return Some((keyword, rest));
        }
    }
    None
}
