//! Calls that fail, and their counts.

ghost use Rattle.std.specs.Prelude.{◌≡◌};
ghost use Rattle.kan_base.specs.Faults as faults;

/// A call to a source or to a sink failed. The count of faults says that it did.
#[derive(Clone, Copy, Debug, PartialEq, Eq)]
pub struct Failed;

/// One more, where a count stays at the greatest `u64`.
pub(crate) fn one_more(count: u64) -> u64
    ensures { result ≡ faults.one_more count }
{
    if count < u64::MAX { count + 1 } else { count }
}
