// How a call of the compiler ended.
ghost use Rattle.std.specs.Prelude.{◌≡◌};
ghost use Rattle.talc_core.specs.Status.{number_of};

use std::fmt;

/// How a call of the compiler ended (own choice).
#[derive(Clone, Copy, Debug, PartialEq, Eq, Drop)]
pub enum Status {
    /// The work is done.
    Done,
    /// The text that was read is refused by a rule of its language.
    Refused,
    /// The words are no command.
    Usage,
    /// The text that was read passes a limit.
    Limit,
    /// The turns or the instructions allowed are used up.
    Budget,
    /// A file could not be read.
    ReadFault,
    /// A file could not be written, or the output failed.
    WriteFault,
    /// Memory was wanted and not had.
    Memory,
}

impl Status {
    /// The status that the process ends with.
    pub fn number(self) -> u8
        ensures { result ≡ number_of self }
    {
        match self {
            Status::Done => 0,
            Status::Refused => 1,
            Status::Usage => 2,
            Status::Limit => 3,
            Status::Budget => 4,
            Status::ReadFault => 5,
            Status::WriteFault => 6,
            Status::Memory => 7,
        }
    }
}

impl fmt::Display for Status {
    ghost use Rattle.std.specs.Prelude.{Some};
    ghost use Rattle.talc_core.specs.Status.{status_words};

    ghost output = { λ s. Some (status_words s) };

    fn fmt<W: fmt::Write>(&self, f: &mut fmt::Formatter<W>) -> fmt::Result {
        match self {
            Status::Done => write!(f, "done"),
            Status::Refused => write!(f, "refused"),
            Status::Usage => write!(f, "no command"),
            Status::Limit => write!(f, "limit passed"),
            Status::Budget => write!(f, "budget used up"),
            Status::ReadFault => write!(f, "read fault"),
            Status::WriteFault => write!(f, "write fault"),
            Status::Memory => write!(f, "out of memory"),
        }
    }
}
