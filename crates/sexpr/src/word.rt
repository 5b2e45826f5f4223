//! Which token a word is.

ghost use Rattle.std.specs.Prelude.{◌≡◌, true};
ghost use Rattle.std.specs.Str.Parse.{without_leading_sign};
ghost use Rattle.kan_grammar.specs.Data.Words.{begins_with_digit, without_leading_point};
ghost use Rattle.kan_grammar.specs.Data.Words.{looks_like_number, is_dot, is_reserved};
ghost use Rattle.kan_grammar.specs.Data.Words.{number_token, word_token};
ghost use Rattle.sexpr.specs.Meaning.{token_of};

use crate::token::{Atom, Token};
use kan_grammar::all_digits;

/// The token of a word.
#[tactic(auto, unfolding(kan_grammar::specs::Data::Words::word_token))]
pub(crate) fn word_token(word: &str) -> Token<'_>
    ensures { token_of result ≡ word_token word.now }
{
    let bytes = word.as_bytes();
    if is_dot(bytes) {
        Token::Dot
    } else if looks_like_number(bytes) {
        number_token(word)
    } else if is_reserved(bytes) {
        Token::Atom(Atom::Reserved)
    } else {
        Token::Atom(Atom::Symbol(word))
    }
}

/// The token of a word that looks like a number.
fn number_token(word: &str) -> Token<'_>
    requires { looks_like_number word.now ≡ true }
    ensures { token_of result ≡ number_token word.now }
{
    if !all_digits(without_sign(word.as_bytes())) {
        return Token::Bad;
    }
    match word.parse::<i128>() {
        Ok(number) => Token::Atom(Atom::Number(number)),
        Err(_) => Token::Atom(Atom::OutOfRange),
    }
}

/// Whether a word is a single point.
pub fn is_dot(word: &[u8]) -> bool
    ensures { result ≡ is_dot word.now }
{
    word.len() == 1 && word[0] == b'.'
}

/// Whether a digit follows an optional sign and an optional point.
pub fn looks_like_number(word: &[u8]) -> bool
    ensures { result ≡ looks_like_number word.now }
{
    begins_with_digit(without_point(without_sign(word)))
}

/// Whether a word is an underscore and digits.
pub fn is_reserved(word: &[u8]) -> bool
    ensures { result ≡ is_reserved word.now }
{
    match word.first() {
        Some(b'_') => begins_with_digit(&word[1..]) && all_digits(&word[1..]),
        _ => false,
    }
}

/// The bytes after a sign, or else all.
fn without_sign(word: &[u8]) -> &[u8]
    ensures { result.now ≡ without_leading_sign word.now }
{
    match word.first() {
        Some(b'+' | b'-') => &word[1..],
        _ => word,
    }
}

/// The bytes after a point, or else all.
fn without_point(word: &[u8]) -> &[u8]
    ensures { result.now ≡ without_leading_point word.now }
{
    match word.first() {
        Some(b'.') => &word[1..],
        _ => word,
    }
}

/// Whether the first byte is a digit.
fn begins_with_digit(word: &[u8]) -> bool
    ensures { result ≡ begins_with_digit word.now }
{
    match word.first() {
        Some(first) => first.is_ascii_digit(),
        None => false,
    }
}
