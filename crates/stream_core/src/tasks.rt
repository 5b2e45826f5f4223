//! Tasks on a stack, so that no call recurses on the depth of a goal.

use kan_model::Env;

/// What is left to be done while a goal is run. Streams that tasks make stand on a stack of their
/// own.
#[derive(Drop)]
pub(crate) enum Task<St> {
    /// Run a goal at a store.
    Run { goal: u32, env: Env, store: St },
    /// Append the two streams on top.
    Append,
    /// Append the empty stream to the one on top.
    AppendEmpty,
    /// Bind a goal to the stream on top.
    Bind { goal: u32, env: Env },
}
