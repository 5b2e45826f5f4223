//! The fault of a text, and the line that says it.

ghost use Rattle.std.specs.Prelude.{◌≡◌, IfOk, string_bytes};
ghost use Rattle.kan_grammar.specs.Data.Faults.{fault as fault_at};
ghost use Rattle.kan_grammar.specs.Texts.Reply.{refusal_line};

use kan_refusals::{Refusal, error_line};
use std::alloc::{AllocError, Global};

/// A fault of a text.
#[derive(Clone, Copy, Debug, PartialEq, Eq)]
pub(crate) struct Fault {
    /// The offset of the byte at which it stands.
    pub(crate) at: u32,
    /// Why the text is refused there.
    pub(crate) refusal: Refusal,
}

/// The line of a fault.
pub(crate) fn fault_line(alloc: Global, fault: Fault) -> Result<String, AllocError>
    ensures { IfOk result (λ line. string_bytes line
        ≡ refusal_line (fault_at fault.at fault.refusal)) }
{
    let line = error_line(alloc, fault.at, fault.refusal)?;
    Ok(line)
}
