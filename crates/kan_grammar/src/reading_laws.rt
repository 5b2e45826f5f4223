//! The laws that tie the grammar of data to the reading of tokens. Each function has its law for
//! its contract, and does nothing.

ghost use Rattle.kan_grammar.specs.Data.Laws.{CutsBefore, EndsAtLine, ReadsExactly, RefusesFirst};

/// Tokens are read as data exactly where they spell these data and they are allowed: so they spell
/// at most one row of them.
pub fn reads_exactly()
    ensures { ReadsExactly }
{}

/// A refusal belongs to the first token with which the tokens begin no text that can be read, or to
/// the end of tokens that begin one.
pub fn refuses_first()
    ensures { RefusesFirst }
{}

/// A text cut where a token begins has the tokens before it.
pub fn cuts_before()
    ensures { CutsBefore }
{}

/// A line feed ends each token, so that what follows it is cut by itself.
pub fn ends_at_line()
    ensures { EndsAtLine }
{}
