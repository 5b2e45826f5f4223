//! Words, and what they are.

ghost use Rattle.std.specs.Prelude.{◌≡◌, ◌<◌, ◌^◌, ℕ, ℤ, length, true, IfOk};
ghost use Rattle.std.specs.List.{list_all};
ghost use Rattle.kan_grammar.specs.Data.Words.{is_dot};
ghost use Rattle.kan_grammar.specs.Data.Words.{is_in_range, is_reserved, is_word_byte};
ghost use Rattle.kan_grammar.specs.Data.Words.{looks_like_number};
ghost use Rattle.kan_model.specs.Answers.Decimals.{decimal_text, number_text};
ghost use Rattle.kan_model.specs.Answers.Text.{name_text};
ghost use Rattle.kan_terms.specs.Table.{Table};
ghost use Rattle.reify.specs.declared.shaping.Shape.{Shape};
ghost use Rattle.reify.specs.declared.shaping.Shape.TheVariants.{Num, Sym};
ghost use Rattle.reify.specs.Printing.{atom_text};
ghost use Rattle.term_reading.specs.Words.{Continues, HasRoom, Moves, is_fine, is_known};
ghost use Rattle.term_reading.specs.Words.{is_plain, is_worded};

use crate::strings::behind;
use kan_terms::{Memory, Names};
use reify::Shape;
use sexpr::{is_dot, is_reserved, is_word_byte, looks_like_number};

// Whether all bytes are those of words.
fn all_of_words(bytes: &[u8]) -> bool
    ensures { result ≡ list_all is_word_byte bytes.now }
{
    bytes.iter().all(|byte| is_word_byte(*byte))
}

// Whether bytes are those of a word that is no point, number or name.
fn is_plain(word: &[u8]) -> bool
    ensures { result ≡ is_plain word.now }
{
    !word.is_empty()
        & all_of_words(word)
        & !is_dot(word)
        & !looks_like_number(word)
        & !is_reserved(word)
}

// The number that digits are, where they are those of a name.
fn short_number(digits: &str) -> u64
    ensures { (n : ℕ) → n < 2 ^ 64 → digits.now ≡ decimal_text n → result ≡ n }
{
    match digits.parse::<u64>() {
        Ok(number) => number,
        Err(_) => 0,
    }
}

/// The number of a name, where the word is one.
pub fn name_number(word: &[u8]) -> u64
    ensures { (n : ℕ) → n < 2 ^ 64 → word.now ≡ name_text n → result ≡ n }
{
    match std::str::from_utf8(behind(word, 1)) {
        Ok(digits) => short_number(digits),
        Err(_) => 0,
    }
}

// The number that digits and a sign are, where they are one.
fn long_number(digits: &str) -> Shape
    ensures reads { (z : ℤ) → is_in_range z ≡ true → digits.now ≡ number_text z → result ≡ Num z }
    ensures known { (table : Table) → is_known table result ≡ true }
{
    match digits.parse::<i128>() {
        Ok(number) => Shape::Num(number),
        Err(_) => Shape::Nil,
    }
}

// The number that a word is, where it is one.
fn number(word: &[u8]) -> Shape
    ensures reads { (z : ℤ) → is_in_range z ≡ true → word.now ≡ number_text z → result ≡ Num z }
    ensures known { (table : Table) → is_known table result ≡ true }
{
    match std::str::from_utf8(word) {
        Ok(digits) => long_number(digits),
        Err(_) => Shape::Nil,
    }
}

// The symbol that a word is, where it is one. It gets a number where it has none.
fn symbol(word: &[u8], names: &mut Names) -> Result<Shape, Memory>
    requires { HasRoom names.old (length word.now) }
    ensures reads { IfOk result (λ shape. (table : Table) → Continues names.new table → (s : ℕ)
        → is_fine table (Sym s) ≡ true → word.now ≡ atom_text table (Sym s) → shape ≡ Sym s) }
    ensures known { IfOk result (λ shape. is_known names.new shape ≡ true) }
    ensures moves { Moves names.old (length word.now) names.new 0 }
{
    if !is_plain(word) {
        return Ok(Shape::Nil);
    }
    match std::str::from_utf8(word) {
        Ok(text) => Ok(Shape::Sym(names.intern(text)?)),
        Err(_) => Ok(Shape::Nil),
    }
}

/// What a word is. A symbol gets a number where it has none.
pub(crate) fn word_shape(word: &[u8], names: &mut Names) -> Result<Shape, Memory>
    requires { HasRoom names.old (length word.now) }
    ensures reads { IfOk result (λ shape. (table : Table) → Continues names.new table
        → (x : Shape) → is_worded x ≡ true → is_fine table x ≡ true
        → word.now ≡ atom_text table x → shape ≡ x) }
    ensures known { IfOk result (λ shape. is_known names.new shape ≡ true) }
    ensures moves { Moves names.old (length word.now) names.new 0 }
{
    if is_reserved(word) {
        Ok(Shape::Name(name_number(word)))
    } else if looks_like_number(word) {
        Ok(number(word))
    } else {
        symbol(word, names)
    }
}
