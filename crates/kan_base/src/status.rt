//! What becomes of a run.

ghost use Rattle.std.specs.Prelude.{◌≡◌};
ghost use Rattle.kan_base.specs.Statuses.{status_code};

/// What became of a run.
#[derive(Clone, Copy, Debug, PartialEq, Eq)]
pub enum Status {
    /// Everything was done.
    Done,
    /// Some run ended because its fuel was used up.
    Fuel,
    /// The words weren't a line of the command.
    Usage,
    /// The text was refused: at which byte, and for which reason.
    Text(u32, u8),
    /// The source failed.
    ReadFault,
    /// The sink failed.
    WriteFault,
    /// The text is longer than a text may be.
    TooLong,
    /// There was no memory.
    Memory,
}

impl Status {
    /// The exit code of the program.
    pub fn code(&self) -> u8
        ensures { result ≡ status_code self.now }
    {
        match self {
            Status::Done => 0,
            Status::Fuel => 1,
            Status::Usage => 2,
            Status::Text(_, _) => 3,
            Status::ReadFault => 4,
            Status::WriteFault => 5,
            Status::TooLong => 6,
            Status::Memory => 7,
        }
    }
}
