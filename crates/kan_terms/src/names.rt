//! The table of names: the texts of symbols and strings.

ghost use Rattle.std.specs.Prelude.{◌≡◌, ◌-◌, ◌^◌, ◌<◌, [], length, Some};
ghost use Rattle.std.specs.Prelude.{IsTrue, IfOk, OnOk, OnErr};
ghost use Rattle.std.specs.List.{list_all};
ghost use Rattle.std.specs.Option.{option_copied};
ghost use Rattle.kan_terms.specs.Table.{IsDistinct, with_text, is_string_text, name_of, number_of};
ghost use Rattle.kan_terms.specs.Table.{no_names, with_string, with_symbol};

use crate::terms::Memory;
use indexmap::IndexSet;
use std::alloc::Global;
use std::marker::Model;

/// Texts with numbers from 0 on, without a gap. A text's number never changes.
#[derive(Drop)]
struct Texts {
    texts: IndexSet<String>,
    alloc: Global,
}

impl Model for Texts {
    ghost use Rattle.std.specs.Prelude.{◌^◌, ◌<◌, ℕ, List, length, map, string_bytes};
    ghost use Rattle.kan_terms.specs.Table.{IsDistinct};

    ghost Value = { List (List ℕ) };

    ghost view = { λ list. map string_bytes list.texts.keys };

    ghost invariant = { λ list.
        IsDistinct (map string_bytes list.texts.keys) × (length list.texts.keys < 2 ^ 32) };
}

impl Texts {
    fn new(alloc: Global) -> Texts
        ensures { result ≡ [] }
    {
        Texts {
            texts: IndexSet::new(alloc),
            alloc,
        }
    }

    /// The number of a text, which is put at the end where it isn't there.
    fn intern(&mut self, text: &str) -> Result<u32, Memory>
        requires { length self.old < 2 ^ 32 - 1 }
        ensures table { OnOk result (self.new ≡ with_text self.old text.now) }
        ensures number { IfOk result (λ number. number_of self.new text.now ≡ Some number) }
        ensures distinct { IsDistinct self.new }
        ensures unchanged { OnErr result (self.new ≡ self.old) }
    {
        if let Some(number) = self.find(text) {
            return Ok(number);
        }
        let owned = String::from_str(self.alloc, text)?;
        let (number, _) = self.texts.insert_full(owned)?;
        Ok(number as u32)
    }

    /// The number of a text.
    fn find(&self, text: &str) -> Option<u32>
        ensures number { result ≡ number_of self.now text.now }
        ensures distinct { IsDistinct self.now }
    {
        match self.texts.get_index_of(text) {
            Some(number) => Some(number as u32),
            None => None,
        }
    }

    /// The text that has a number.
    fn text(&self, number: u32) -> Option<&str>
        ensures text { option_copied result ≡ name_of self.now number }
        ensures distinct { IsDistinct self.now }
    {
        match self.texts.get_index(number as usize) {
            Some(text) => Some(text.as_str()),
            None => None,
        }
    }
}

/// The table of names. Symbols and strings are numbered apart.
#[derive(Drop)]
pub struct Names {
    symbols: Texts,
    strings: Texts,
}

impl Model for Names {
    ghost use Rattle.std.specs.Prelude.{IsTrue};
    ghost use Rattle.std.specs.List.{list_all};
    ghost use Rattle.kan_terms.specs.Table.{Table, is_string_text};
    ghost use Rattle.kan_terms.specs.TableCode.{table_code};

    ghost Value = { Table };

    ghost coded = { table_code };

    ghost view = { λ names. record { symbols = names.symbols; strings = names.strings } };

    ghost invariant = { λ names. IsTrue (list_all is_string_text names.strings) };
}

impl Names {
    /// The table without names.
    pub fn new(alloc: Global) -> Names
        ensures { result ≡ no_names }
    {
        Names {
            symbols: Texts::new(alloc),
            strings: Texts::new(alloc),
        }
    }

    /// The number of a symbol's text, which is put into the table where it isn't there.
    pub fn intern(&mut self, text: &str) -> Result<u32, Memory>
        requires { length self.old.symbols < 2 ^ 32 - 1 }
        ensures table { OnOk result (self.new ≡ with_symbol self.old text.now) }
        ensures number { IfOk result (λ number. number_of self.new.symbols text.now ≡ Some number) }
        ensures distinct { IsDistinct self.new.symbols }
        ensures unchanged { OnErr result (self.new ≡ self.old) }
    {
        self.symbols.intern(text)
    }

    /// The number of a string's text, which is put into the table where it isn't there.
    pub fn intern_string(&mut self, text: &str) -> Result<u32, Memory>
        requires room { length self.old.strings < 2 ^ 32 - 1 }
        requires allowed { IsTrue (is_string_text text.now) }
        ensures table { OnOk result (self.new ≡ with_string self.old text.now) }
        ensures number { IfOk result (λ number. number_of self.new.strings text.now ≡ Some number) }
        ensures distinct { IsDistinct self.new.strings }
        ensures unchanged { OnErr result (self.new ≡ self.old) }
    {
        self.strings.intern(text)
    }

    /// The number of a symbol's text. It takes no memory.
    pub fn find(&self, text: &str) -> Option<u32>
        ensures number { result ≡ number_of self.now.symbols text.now }
        ensures distinct { IsDistinct self.now.symbols }
    {
        self.symbols.find(text)
    }

    /// The text of the symbol that has a number. It takes no memory.
    pub fn name(&self, number: u32) -> Option<&str>
        ensures text { option_copied result ≡ name_of self.now.symbols number }
        ensures distinct { IsDistinct self.now.symbols }
    {
        self.symbols.text(number)
    }

    /// The text of the string that has a number. It takes no memory.
    pub fn string(&self, number: u32) -> Option<&str>
        ensures text { option_copied result ≡ name_of self.now.strings number }
        ensures distinct { IsDistinct self.now.strings }
        ensures allowed { IsTrue (list_all is_string_text self.now.strings) }
    {
        self.strings.text(number)
    }
}
