//! What a text is answered with.

use kan_grammar::Dialect;

/// What a text is answered with.
#[derive(Clone, Copy)]
pub(crate) struct Settings {
    /// Whether the library stands in front of the text.
    pub(crate) library: bool,
    /// Which goals suspend.
    pub(crate) dialect: Dialect,
    /// How many pulls each run makes at most.
    pub(crate) fuel: u64,
    /// How many pulls a batch of a run makes at most.
    pub(crate) round: u32,
}
