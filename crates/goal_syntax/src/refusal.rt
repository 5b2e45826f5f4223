//! Why a text has no program.

ghost use Rattle.std.specs.Prelude.{◌≡◌};
ghost use Rattle.goal_syntax.specs.Compiling.Refusals.{memory_wanted};

use kan_refusals::Refusal;
use kan_terms::Memory;

/// Why a text has no program.
#[derive(Clone, Copy, Debug, PartialEq, Eq)]
pub enum SyntaxError {
    /// The text is refused: the offset, and the refusal.
    Fault(u32, Refusal),
    /// Want of memory.
    Memory,
}

impl From<Memory> for SyntaxError {
    ghost from_gives = { λ _ e. e ≡ memory_wanted };

    fn from(_refused: Memory) -> SyntaxError {
        SyntaxError::Memory
    }
}
