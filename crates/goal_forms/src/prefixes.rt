//! The symbols that prefixes stand for.

ghost use Rattle.std.specs.Prelude.{◌≡◌, ◌+◌, ◌<◌, ◌^◌, length, IfOk, OnOk};
ghost use Rattle.kan_grammar.specs.Texts.TextNames.{Extends, with_prefixes};
ghost use Rattle.goal_forms.specs.Flattening.{AreNumbered};
ghost use Rattle.goal_forms.specs.Unnamed.{AreNamed};

use kan_terms::{Memory, Names};

/// The numbers of the symbols that prefixes stand for.
#[derive(Clone, Copy, Debug, PartialEq, Eq)]
pub struct Prefixes {
    pub quote: u32,
    pub quasiquote: u32,
    pub unquote: u32,
}

/// The numbers of the symbols that prefixes stand for; those that have none get one.
pub fn number_prefixes(names: &mut Names) -> Result<Prefixes, Memory>
    requires { length names.old.symbols + 3 < 2 ^ 32 }
    ensures numbered { IfOk result (λ prefixes. AreNumbered names.new prefixes) }
    ensures table { OnOk result (names.new ≡ with_prefixes names.old) }
    ensures names { Extends 3 names.old names.new }
    ensures named { IfOk result (λ prefixes. AreNamed names.new prefixes) }
{
    let quote = names.intern("quote")?;
    let quasiquote = names.intern("quasiquote")?;
    let unquote = names.intern("unquote")?;
    Ok(Prefixes {
        quote,
        quasiquote,
        unquote,
    })
}
