//! Streams and suspensions, where an id stands for a suspension.

use kan_model::Env;
use kan_terms::ListOf;

/// Stores in their order.
pub type Stores<St> = ListOf<St>;

/// A suspension. Those inside it are named by ids.
#[derive(Drop)]
pub enum Thunk<I, St> {
    /// The body of a relation waits, with its parameters standing for the arguments.
    Call {
        /// The relation.
        rel: u32,
        /// What its parameters stand for.
        args: Env,
        /// Where its body is run.
        store: St,
    },
    /// A goal waits, with its slots standing for terms.
    Pause {
        /// The goal.
        goal: u32,
        /// What its slots stand for.
        env: Env,
        /// Where it is run.
        store: St,
    },
    /// A stream waits behind a suspension, whose stream goes after it.
    Swap {
        /// The stream's stores.
        heads: Stores<St>,
        /// How the stream goes on, where it does.
        tail: Option<I>,
        /// The suspension.
        inner: I,
    },
    /// A goal waits for the stores of a suspension.
    Bind {
        /// The goal.
        goal: u32,
        /// What its slots stand for.
        env: Env,
        /// The suspension.
        inner: I,
    },
}

/// Stores, and then the end or a suspension.
#[derive(Drop)]
pub struct Stream<I, St> {
    /// The stores.
    pub heads: Stores<St>,
    /// How the stream goes on, where it does.
    pub tail: Option<I>,
}
