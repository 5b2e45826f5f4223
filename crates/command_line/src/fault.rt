//! Why words give no options.

ghost use Rattle.std.specs.Prelude.{◌≡◌};
ghost use Rattle.clap.specs.Words.{kind_of};
ghost use Rattle.command_line.specs.CodeValues.{words_fault};

use clap::Error;
use clap::error::ErrorKind;

/// Why words give no options.
#[derive(Clone, Copy, Debug, PartialEq, Eq)]
pub enum WordsFault {
    /// They aren't a line of the command.
    Usage,
    /// There was no memory.
    Memory,
}

/// The fault that an error of clap is.
pub(crate) fn fault_of(error: &Error) -> WordsFault
    ensures { result ≡ words_fault (kind_of error.now) }
{
    match error.kind() {
        ErrorKind::OutOfMemory => WordsFault::Memory,
        _ => WordsFault::Usage,
    }
}
