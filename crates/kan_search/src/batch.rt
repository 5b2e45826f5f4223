//! What an advance of a search gives.

use stream_core::Stores;

/// How a run ends.
#[derive(Clone, Copy, Debug, PartialEq, Eq)]
pub enum Ended {
    /// The stream has no more answers.
    End,
    /// The limit of answers was reached.
    Limit,
    /// The fuel was spent.
    Fuel,
}

/// The next answers of a run.
#[derive(Drop)]
pub struct Batch<St> {
    /// The stores of the answers, in their order.
    pub answers: Stores<St>,
    /// How the run ended, where it has; None where more may come.
    pub ended: Option<Ended>,
}

// What comes where no store may be given before a pull: the end of the run, or a pull.
#[derive(Clone, Copy)]
pub(crate) enum Next {
    Ends(Ended),
    Pulls,
}
