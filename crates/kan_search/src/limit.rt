//! The limit of answers.

ghost use Rattle.std.specs.Prelude.{◌≡◌};
ghost use Rattle.kan_search.specs.Waiting.{is_reached};
ghost use Rattle.kan_model.specs.Streams.Taking as taking;

// Whether no more answers are wanted.
pub(crate) fn is_reached(limit: Option<u64>) -> bool
    ensures { result ≡ is_reached limit }
{
    limit == Some(0)
}

// What is left of a limit after one answer.
pub(crate) fn less_one(limit: Option<u64>) -> Option<u64>
    ensures { result ≡ taking.less_one limit }
{
    match limit {
        Some(count) => Some(count.saturating_sub(1)),
        None => None,
    }
}
