//! What standard error says of a call that came to nothing.

ghost use Rattle.std.specs.Prelude.{◌≡◌, None, MatchOption, Some};
ghost use Rattle.kanren_run.specs.Complaints as complaints;

use kan_base::Status;

// The form of the command.
const USAGE: &str =
    "usage: kanren [--workers N] [--fuel N] [--ahead N] [--round N] [--dialect D] [--lib] [--gen N] [FILE]";

/// The line that the program writes on standard error, where a status has one.
pub fn complaint(status: Status) -> Option<&'static str>
    ensures { MatchOption result (complaints.complaint status ≡ None)
        (λ line. complaints.complaint status ≡ Some line.now) }
{
    match status {
        Status::Usage => Some(USAGE),
        Status::ReadFault => Some("kanren: read fault"),
        Status::WriteFault => Some("kanren: write fault"),
        Status::TooLong => Some("kanren: text too long"),
        Status::Memory => Some("kanren: out of memory"),
        Status::Done | Status::Fuel | Status::Text(_, _) => None,
    }
}
