//! Reading a text into its data.

ghost use Rattle.std.specs.Prelude.{IsTrue, ◌≡◌, ◌<◌, ◌≤◌, false, length, IfErr, OnOk};
ghost use Rattle.kan_terms.specs.Table.{Table, is_string_text};
ghost use Rattle.kan_grammar.specs.Data.Words as words;
ghost use Rattle.kan_grammar.specs.Data.Words.{Token, symbol, string};
ghost use Rattle.kan_grammar.specs.Data.Strings.{string_meaning};
ghost use Rattle.kan_grammar.specs.Texts.TextNames.{Extends, GoesOn, with_text_names, with_token};
ghost use Rattle.sexpr.specs.Meaning.{atom_of, token_of, piece_of};
ghost use Rattle.sexpr.specs.Reads.{CanGrow, HasPieceText, HasText, Reads, ReadsPiece};
ghost use Rattle.sexpr.specs.Reads.{RefusesPiece, with_piece};
ghost use Rattle.sexpr.specs.Frames.{HasDepth, RefusesToken, TakesToken};

use crate::data::{Data, DatumKind, ReadError};
use crate::enclosing::Enclosing;
use crate::lexer::{Piece, first_piece};
use crate::strings::string_text;
use crate::token::{Atom, Token};
use kan_refusals::Refusal;
use kan_terms::Names;
use std::alloc::Global;

/// The data of a text, or its first fault: its offset and its refusal. The names of
/// symbols and the texts of strings are added to the table, also where the text is refused; those
/// that were there keep their numbers.
pub fn read(alloc: Global, bytes: &[u8], names: &mut Names) -> Result<Data, ReadError>
    requires size { length bytes.now ≤ 1048576 }
    requires room { CanGrow (length bytes.now) names.old }
    ensures reads { (later : Table) → GoesOn names.new later → Reads bytes.now later result }
    ensures numbered { OnOk result (names.new ≡ with_text_names names.old bytes.now) }
    ensures extends { Extends (length bytes.now) names.old names.new }
{
    let text = match std::str::from_utf8(bytes) {
        Ok(text) => text,
        Err(error) => return Err(ReadError::Fault(error.valid_up_to() as u32, Refusal::NotUtf8)),
    };
    let mut enclosing = Enclosing::new(alloc);
    let mut rest = text;
    let mut at = 0;
    while !rest.is_empty() {
        let piece = first_piece(rest);
        take_piece(&mut enclosing, at as u32, piece, names)?;
        at += piece.length;
        rest = &rest[piece.length..];
    }
    enclosing.finish()
}

/// Takes the next piece of a text.
fn take_piece(
    enclosing: &mut Enclosing,
    at: u32,
    piece: Piece<'_>,
    names: &mut Names,
) -> Result<(), ReadError>
    requires depth { HasDepth enclosing.old }
    requires room { CanGrow 1 names.old }
    requires text { HasPieceText (piece_of piece) }
    ensures taken { OnOk result
        (ReadsPiece names.new enclosing.old enclosing.new at (piece_of piece.entry)) }
    ensures refused { IfErr result (λ e. RefusesPiece e enclosing.old at (piece_of piece.entry)) }
    ensures depth { OnOk result (HasDepth enclosing.new) }
    ensures numbered { OnOk result (names.new ≡ with_piece names.old (piece_of piece.entry)) }
    ensures extends { Extends 1 names.old names.new }
{
    match piece.token {
        Some(token) => take(enclosing, at, token, names),
        None => Ok(()),
    }
}

/// Takes the next token, which is added to the table where it is a symbol or a string.
fn take(
    enclosing: &mut Enclosing,
    at: u32,
    token: Token<'_>,
    names: &mut Names,
) -> Result<(), ReadError>
    requires depth { HasDepth enclosing.old }
    requires room { CanGrow 1 names.old }
    requires text { HasText (token_of token) }
    ensures taken { OnOk result
        (TakesToken names.new enclosing.old enclosing.new at (token_of token.entry)) }
    ensures refused { IfErr result (λ e. RefusesToken e enclosing.old at (token_of token.entry)) }
    ensures depth { OnOk result (HasDepth enclosing.new) }
    ensures numbered { OnOk result (names.new ≡ with_token names.old (token_of token.entry)) }
    ensures extends { Extends 1 names.old names.new }
{
    match token {
        Token::Opening(shape) => enclosing.begin_list(at, shape),
        Token::Closing(shape) => enclosing.take_close(at, shape),
        Token::Prefix(prefix) => enclosing.begin_prefixed(at, prefix),
        Token::Dot => enclosing.take_dot(at),
        Token::Atom(atom) => take_atom(enclosing, at, atom, names),
        Token::BadString => Err(ReadError::Fault(at, Refusal::BadString)),
        Token::Bad => Err(ReadError::Fault(at, Refusal::BadToken)),
    }
}

/// Takes an atom.
fn take_atom(
    enclosing: &mut Enclosing,
    at: u32,
    atom: Atom<'_>,
    names: &mut Names,
) -> Result<(), ReadError>
    requires depth { HasDepth enclosing.old }
    requires room { CanGrow 1 names.old }
    requires text { HasText (words.atom (atom_of atom)) }
    ensures taken { OnOk result
        (TakesToken names.new enclosing.old enclosing.new at (words.atom (atom_of atom.entry))) }
    ensures refused { IfErr result (λ e.
        RefusesToken e enclosing.old at (words.atom (atom_of atom.entry))) }
    ensures depth { OnOk result (HasDepth enclosing.new) }
    ensures numbered { OnOk result
        (names.new ≡ with_token names.old (words.atom (atom_of atom.entry))) }
    ensures extends { Extends 1 names.old names.new }
{
    match atom {
        Atom::Symbol(name) => take_symbol(enclosing, at, name, names),
        Atom::Text(spelling) => take_string(enclosing, at, spelling, names),
        Atom::Number(number) => enclosing.take_single(at, DatumKind::Number(number)),
        Atom::Truth(truth) => enclosing.take_single(at, DatumKind::Truth(truth)),
        Atom::OutOfRange => Err(enclosing.out_of_range(at)),
        Atom::Reserved => Err(enclosing.reserved(at)),
    }
}

/// Takes a symbol.
fn take_symbol(
    enclosing: &mut Enclosing,
    at: u32,
    name: &str,
    names: &mut Names,
) -> Result<(), ReadError>
    requires depth { HasDepth enclosing.old }
    requires room { CanGrow 1 names.old }
    ensures taken { OnOk result
        (TakesToken names.new enclosing.old enclosing.new at (words.atom (symbol name.now))) }
    ensures refused { IfErr result (λ e.
        RefusesToken e enclosing.old at (words.atom (symbol name.now))) }
    ensures depth { OnOk result (HasDepth enclosing.new) }
    ensures numbered { OnOk result
        (names.new ≡ with_token names.old (words.atom (symbol name.now))) }
    ensures extends { Extends 1 names.old names.new }
{
    let number = names.intern(name)?;
    enclosing.take_single(at, DatumKind::Symbol(number))
}

/// Takes a string, by what stands between its quotation marks.
fn take_string(
    enclosing: &mut Enclosing,
    at: u32,
    spelling: &str,
    names: &mut Names,
) -> Result<(), ReadError>
    requires depth { HasDepth enclosing.old }
    requires room { CanGrow 1 names.old }
    requires text { IsTrue (is_string_text (string_meaning false spelling.now)) }
    ensures taken { OnOk result (TakesToken names.new enclosing.old enclosing.new at
        (words.atom (string (string_meaning false spelling.now)))) }
    ensures refused { IfErr result (λ e.
        RefusesToken e enclosing.old at (words.atom (string (string_meaning false spelling.now)))) }
    ensures depth { OnOk result (HasDepth enclosing.new) }
    ensures numbered { OnOk result
        (names.new ≡ with_token names.old
        (words.atom (string (string_meaning false spelling.now)))) }
    ensures extends { Extends 1 names.old names.new }
{
    let text = string_text(enclosing.alloc, spelling)?;
    let number = names.intern_string(text.as_str())?;
    enclosing.take_single(at, DatumKind::Text(number))
}
