//! The words of a command line.

ghost use Rattle.std.specs.Prelude.{◌≡◌, IfOk, map, string_bytes};

use std::alloc::{AllocError, Global};

/// Words, lent in the same order.
pub fn lent_words(alloc: Global, words: &[String]) -> Result<Vec<&str>, AllocError>
    ensures { IfOk result
        (λ lent. map (λ word. word.now) lent.items ≡ map string_bytes words.now) }
{
    let mut lent = Vec::new(alloc);
    for word in words {
        lent.push(word.as_str())?;
    }
    Ok(lent)
}
