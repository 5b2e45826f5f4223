//! What a byte of a text can begin, and how far words and comments go.

ghost use Rattle.std.specs.Prelude.{◌≡◌, ◌≤◌, length};
ghost use Rattle.std.specs.List.{prefix_len};
ghost use Rattle.kan_grammar.specs.Data.Words.{is_word_byte};
ghost use Rattle.kan_grammar.specs.Data.Tokens.{comment_length, start};
ghost use Rattle.sexpr.specs.Meaning.{start_of};

use crate::data::Prefix;
use crate::token::Shape;

/// What a byte begins.
#[derive(Clone, Copy)]
pub(crate) enum Start {
    Separator,
    Comment,
    Opening(Shape),
    Closing(Shape),
    Prefix(Prefix),
    Comma,
    Hash,
    Quotation,
    Word,
    Bad,
}

/// What a byte begins.
pub(crate) fn begun_by(byte: u8) -> Start
    ensures { start_of result ≡ start byte }
{
    match byte {
        b' ' | b'\t' | b'\n' | b'\r' => Start::Separator,
        b';' => Start::Comment,
        b'(' => Start::Opening(Shape::Round),
        b'[' => Start::Opening(Shape::Square),
        b')' => Start::Closing(Shape::Round),
        b']' => Start::Closing(Shape::Square),
        b'\'' => Start::Prefix(Prefix::Quote),
        b'`' => Start::Prefix(Prefix::Quasiquote),
        b',' => Start::Comma,
        b'#' => Start::Hash,
        b'"' => Start::Quotation,
        _ if is_word_byte(byte) => Start::Word,
        _ => Start::Bad,
    }
}

/// Whether a byte belongs to words.
pub fn is_word_byte(byte: u8) -> bool
    ensures { result ≡ is_word_byte byte }
{
    byte.is_ascii_alphanumeric()
        || byte > 127
        || matches!(
            byte,
            b'!' | b'$'
                | b'%'
                | b'&'
                | b'*'
                | b'/'
                | b':'
                | b'<'
                | b'='
                | b'>'
                | b'?'
                | b'^'
                | b'_'
                | b'~'
                | b'+'
                | b'-'
                | b'.'
                | b'@'
        )
}

/// How many bytes of a word stand at the front.
#[tactic(auto, using(crate::proofs::PieceLaws::run_within))]
pub fn word_length(bytes: &[u8]) -> usize
    ensures count { result ≡ prefix_len is_word_byte bytes.now }
    ensures within { result ≤ length bytes.now }
{
    bytes.iter().take_while(|byte| is_word_byte(**byte)).count()
}

#[tactic(auto, using(crate::proofs::PieceLaws::run_within))]
/// How many bytes come before the next line feed, or before the end.
pub(crate) fn comment_length(bytes: &[u8]) -> usize
    ensures count { result ≡ comment_length bytes.now }
    ensures within { result ≤ length bytes.now }
{
    bytes.iter().take_while(|byte| **byte != b'\n').count()
}
