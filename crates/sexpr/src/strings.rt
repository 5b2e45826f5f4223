//! Strings: how far one goes, the text that it means, and how it is printed.

ghost use Rattle.std.specs.Prelude.{◌≡◌, ◌<◌, ◌++◌, false, length, IfOk, IfSome, OnOk};
ghost use Rattle.std.specs.Prelude.{string_bytes};
ghost use Rattle.kan_model.specs.Answers.Text.{in_quotes};
ghost use Rattle.kan_grammar.specs.Data.Strings.{begins_escape, escape_meaning, role};
ghost use Rattle.kan_grammar.specs.Data.Strings.{string_length, string_meaning};
ghost use Rattle.sexpr.specs.Strings.{character_meaning, character_text, role_of};

use kan_terms::Memory;
use std::alloc::Global;

/// What a byte is to a string.
#[derive(Clone, Copy)]
pub(crate) enum Role {
    /// The mark that closes it.
    Closes,
    /// What no string may hold.
    Never,
    /// A part of it.
    Part,
}

/// What a byte is to a string, directly behind a backslash or not.
fn byte_role(escape: bool, byte: u8) -> Role
    ensures { role_of result ≡ role escape byte }
{
    match (escape, byte) {
        (true, b'"' | b'\\' | b'n' | b't' | b'r') => Role::Part,
        (true, _) => Role::Never,
        (false, b'"') => Role::Closes,
        (false, 0..=31 | 127) => Role::Never,
        (false, _) => Role::Part,
    }
}

/// How many bytes come before the mark that closes a string, whose first mark stands before these
/// bytes. None where it isn't closed, or holds what no string may.
pub(crate) fn string_length(bytes: &[u8]) -> Option<usize>
    ensures length { result ≡ string_length false bytes.now }
    ensures within { IfSome result (λ count. count < length bytes.now) }
{
    let mut escape = false;
    let mut at = 0;
    while at < bytes.len() {
        match byte_role(escape, bytes[at]) {
            Role::Closes => return Some(at),
            Role::Never => return None,
            Role::Part => {}
        }
        escape = begins_escape(escape, bytes[at] as char);
        at += 1;
    }
    None
}

/// Whether what follows a character stands directly behind a backslash: one that does so itself
/// begins nothing.
fn begins_escape(escape: bool, character: char) -> bool
    ensures { result ≡ begins_escape escape character }
{
    !escape && character == '\\'
}

/// The text that the bytes of a string mean.
pub(crate) fn string_text(alloc: Global, spelling: &str) -> Result<String, Memory>
    ensures { IfOk result (λ text. string_bytes text ≡ string_meaning false spelling.now) }
{
    let mut text = String::new(alloc);
    let mut escape = false;
    for character in spelling.chars() {
        push_meaning(&mut text, escape, character)?;
        escape = begins_escape(escape, character);
    }
    Ok(text)
}

/// Puts what a character of a string means, directly behind a backslash or not.
fn push_meaning(text: &mut String, escape: bool, character: char) -> Result<(), Memory>
    ensures { OnOk result
        (string_bytes text.new ≡ string_bytes text.old ++ character_meaning escape character) }
{
    if escape {
        text.push(escape_meaning(character))?;
    } else if character != '\\' {
        text.push(character)?;
    }
    Ok(())
}

/// The character that another stands for directly behind a backslash.
fn escape_meaning(character: char) -> char
    ensures { result ≡ escape_meaning character }
{
    match character {
        'n' => '\n',
        't' => '\t',
        'r' => '\r',
        other => other,
    }
}

/// Prints a string behind a text, as it is spelled in texts.
pub fn print_string(text: &mut String, string: &str) -> Result<(), Memory>
    ensures { OnOk result (string_bytes text.new ≡ string_bytes text.old ++ in_quotes string.now) }
{
    text.push('"')?;
    for character in string.chars() {
        print_character(text, character)?;
    }
    text.push('"')?;
    Ok(())
}

/// Prints a character of a string. Five have a spelling of two.
fn print_character(text: &mut String, character: char) -> Result<(), Memory>
    ensures { OnOk result
        (string_bytes text.new ≡ string_bytes text.old ++ character_text character) }
{
    match character {
        '"' => text.push_str("\\\"")?,
        '\\' => text.push_str("\\\\")?,
        '\n' => text.push_str("\\n")?,
        '\t' => text.push_str("\\t")?,
        '\r' => text.push_str("\\r")?,
        other => text.push(other)?,
    }
    Ok(())
}
