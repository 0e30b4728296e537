// What a command shows of a text.
ghost use Rattle.std.specs.Prelude.{◌≡◌};
ghost use Rattle.talc_core.specs.OnTexts.{status_at};

use crate::fault::Fault;
use crate::status::Status;

/// How a command ended that failed nowhere (own choice).
#[derive(Clone, Copy, Debug, PartialEq, Eq, Drop)]
pub enum Ending {
    /// The work is done.
    Ends,
    /// The turns or the instructions allowed are used up, and the program goes on.
    GoesOn,
}

impl Ending {
    /// The status of a call that ends so.
    pub fn status(self) -> Status
        ensures { result ≡ status_at self }
    {
        match self {
            Ending::Ends => Status::Done,
            Ending::GoesOn => Status::Budget,
        }
    }
}

/// What a command shows of a text (own choice).
#[derive(Debug, Drop)]
pub struct Reply {
    /// How the command ended.
    pub ending: Ending,
    /// The bytes of the line, or of the lines, each with its line end.
    pub line: Vec<u8>,
}

/// The listing of an assembly text, or up to its first fault (own choice).
#[derive(Debug, Drop)]
pub struct TextListing {
    /// The first fault of the text, where it has one.
    pub fault: Option<Fault>,
    /// The listing; where the text has a fault, up to its place, and then the page of the fault.
    pub shown: Vec<u8>,
}

// The rows of a listing: of the whole program, or up to the first fault of the text.
#[derive(Drop)]
pub(crate) enum RowsMade {
    Whole(Vec<u8>),
    UpTo(Fault, Vec<u8>),
}
