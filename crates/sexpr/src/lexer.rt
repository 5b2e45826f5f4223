//! The first piece of a text: a token, or what stands between tokens.

ghost use Rattle.std.specs.Prelude.{◌≡◌, ◌<◌, suc, false, ◌∷◌, length};
ghost use Rattle.std.specs.Str.{IsCharBoundary};
ghost use Rattle.kan_grammar.specs.Data.Tokens.{piece, more, comma_piece, hash_token, string_piece};
ghost use Rattle.kan_grammar.specs.Data.Strings.{string_length};
ghost use Rattle.sexpr.specs.Meaning.{token_of, piece_of};
ghost use Rattle.sexpr.specs.Pieces.{first_piece};

use crate::bytes::{Start, begun_by, comment_length, word_length};
use crate::data::Prefix;
use crate::strings::string_length;
use crate::token::{Atom, Token};
use crate::word::word_token;

/// A piece at the front of a text.
#[derive(Clone, Copy)]
pub(crate) struct Piece<'a> {
    /// Its token, where it has one.
    pub(crate) token: Option<Token<'a>>,
    /// How many bytes it has.
    pub(crate) length: usize,
}

/// The piece at the front of a text. The text may be cut after it.
pub(crate) fn first_piece(text: &str) -> Piece<'_>
    requires { 0 < length text.now }
    ensures piece { piece_of result ≡ first_piece text.now }
    ensures size { result.length ≡ suc (more (first_piece text.now)) }
    ensures boundary { IsCharBoundary text.now result.length }
{
    let bytes = text.as_bytes();
    piece_begun(text, bytes[0], &bytes[1..])
}

/// The piece of a text that begins with a byte and goes on with other bytes.
#[tactic(auto, using(crate::proofs::PieceLaws::word_boundary), unfolding(kan_grammar::specs::Data::Tokens::piece))]
fn piece_begun<'a>(text: &'a str, first: u8, rest: &[u8]) -> Piece<'a>
    requires { text.now ≡ first ∷ rest.now }
    ensures piece { piece_of result ≡ piece first rest.now }
    ensures size { result.length ≡ suc (more (piece first rest.now)) }
{
    match begun_by(first) {
        Start::Separator => blank(1),
        Start::Comment => blank(1 + comment_length(rest)),
        Start::Opening(shape) => spelled(Token::Opening(shape), 1),
        Start::Closing(shape) => spelled(Token::Closing(shape), 1),
        Start::Prefix(prefix) => spelled(Token::Prefix(prefix), 1),
        Start::Comma => comma_piece(rest),
        Start::Hash => {
            let length = word_length(rest);
            spelled(hash_token(&rest[..length]), 1 + length)
        }
        Start::Quotation => string_piece(text, rest),
        Start::Word => {
            let length = 1 + word_length(rest);
            spelled(word_token(&text[..length]), length)
        }
        Start::Bad => spelled(Token::Bad, 1),
    }
}

/// A piece without a token.
fn blank<'a>(length: usize) -> Piece<'a>
    ensures { result ≡ record { token = None; length = length } }
{
    Piece {
        token: None,
        length,
    }
}

/// A piece that is a token.
fn spelled(token: Token<'_>, length: usize) -> Piece<'_>
    ensures { result ≡ record { token = Some token.entry; length = length } }
{
    Piece {
        token: Some(token),
        length,
    }
}

/// The piece of a comma before these bytes. With an at sign it is one bad token.
fn comma_piece<'a>(rest: &[u8]) -> Piece<'a>
    ensures piece { piece_of result ≡ comma_piece rest.now }
    ensures size { result.length ≡ suc (more (comma_piece rest.now)) }
{
    match rest.first() {
        Some(b'@') => spelled(Token::Bad, 2),
        _ => spelled(Token::Prefix(Prefix::Unquote), 1),
    }
}

/// The piece of a quotation mark before these bytes. One that begins no string is a token by
/// itself.
fn string_piece<'a>(text: &'a str, rest: &[u8]) -> Piece<'a>
    requires { text.now ≡ 34 ∷ rest.now }
    ensures piece { piece_of result ≡ string_piece (string_length false rest.now) rest.now }
    ensures size { result.length
        ≡ suc (more (string_piece (string_length false rest.now) rest.now)) }
{
    match string_length(rest) {
        Some(length) => spelled(Token::Atom(Atom::Text(&text[1..1 + length])), 2 + length),
        None => spelled(Token::BadString, 1),
    }
}

/// The token of a number sign and the word after it.
fn hash_token<'a>(word: &[u8]) -> Token<'a>
    ensures { token_of result ≡ hash_token word.now }
{
    if word.len() != 1 {
        return Token::Bad;
    }
    match word[0] {
        b't' => Token::Atom(Atom::Truth(true)),
        b'f' => Token::Atom(Atom::Truth(false)),
        _ => Token::Bad,
    }
}
