//! How a run ends.
ghost use Rattle.std.specs.Prelude.{◌≡◌};
ghost use Rattle.lux_core.specs.Codes.{status_code};

/// How a run of the planner ended.
#[derive(Clone, Copy, Debug, PartialEq, Eq)]
pub enum Status {
    /// The command's text was written whole, and each limit is met.
    Done,
    /// The input was refused, and one line says why.
    Refused,
    /// The words are no command, and the usage line was written.
    Usage,
    /// A file couldn't be read, and one line names it.
    ReadFault,
    /// The text couldn't be written whole.
    WriteFault,
    /// There wasn't memory enough, and nothing was written.
    Memory,
    /// The lines of a report or a route were written whole, and a limit is missed.
    Missed,
    /// The lines of a report or a route were written whole, no limit is missed, and one is undecided.
    Undecided,
    /// A claim isn't shown by the room, and one line names the row.
    NotShown,
}

impl Status {
    /// The exit status of the program.
    pub fn code(&self) -> u8
        ensures { result ≡ status_code self.now }
    {
        match self {
            Status::Done => 0,
            Status::Refused => 1,
            Status::Usage => 2,
            Status::ReadFault => 3,
            Status::WriteFault => 4,
            Status::Memory => 5,
            Status::Missed => 10,
            Status::Undecided => 11,
            Status::NotShown => 12,
        }
    }
}
