//! The names of the slots in scope.

ghost use Rattle.std.specs.Prelude.{◌≡◌, ◌∷◌, [], None, IfOk};
ghost use Rattle.kan_grammar.specs.Texts.Resolved.{is_named, slot_of};

use kan_terms::Memory;
use std::alloc::Global;

// Whether a slot has a name.
fn is_named(slot: Option<u32>, symbol: u32) -> bool
    ensures { result ≡ is_named slot symbol }
{
    match slot {
        Some(name) => symbol == name,
        None => false,
    }
}

/// The slot of a name: the last that has it.
pub fn slot_of(scope: &[Option<u32>], symbol: u32) -> Option<usize>
    ensures { result ≡ slot_of scope.now symbol }
{
    let mut end = scope.len();
    while end > 0 {
        end -= 1;
        if is_named(scope[end], symbol) {
            return Some(end);
        }
    }
    None
}

/// The scope of a run over a list of names: a slot without a name.
pub fn unnamed(alloc: Global) -> Result<Vec<Option<u32>>, Memory>
    ensures { IfOk result (λ scope. scope.items ≡ None ∷ []) }
{
    let mut scope = Vec::new(alloc);
    scope.push(None)?;
    Ok(scope)
}
