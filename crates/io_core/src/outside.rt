// The two traits by which the compiler reaches the outside.
ghost use Rattle.std.specs.Prelude.{◌≡◌};
ghost use Rattle.io_core.specs.Outside.{FilesState, SinkState, IsRead, IsWrite, IsPut};
ghost use Rattle.io_core.specs.declared.outside.Stop.TheVariants.{Memory};

use std::alloc::{AllocError, Global};
use std::error::Error;
use std::fmt;

/// Why a call of the outside did not do its work.
#[derive(Clone, Copy, Debug, PartialEq, Eq, Drop)]
pub enum Stop {
    /// Memory was wanted and not had, which a sink has counted; nothing else has changed.
    Memory,
    /// The outside failed, which it has counted, or the file to read is not there.
    Failed,
}

impl fmt::Display for Stop {
    ghost use Rattle.std.specs.Prelude.{Some};
    ghost use Rattle.io_core.specs.Stops.{stop_words};

    ghost output = { λ s. Some (stop_words s) };

    fn fmt<W: fmt::Write>(&self, f: &mut fmt::Formatter<W>) -> fmt::Result {
        match self {
            Stop::Memory => write!(f, "out of memory"),
            Stop::Failed => write!(f, "the outside failed"),
        }
    }
}

impl Error for Stop {}

impl From<AllocError> for Stop {
    ghost from_gives = { λ _ e. e ≡ Memory };

    fn from(_: AllocError) -> Stop {
        Stop::Memory
    }
}

/// Files (own choice). Contracts see what each name holds and which calls were made, where an implementation tells
/// it, and how many reads and how many writes have failed so far; a read leaves the number of writes alone, and a write
/// that of reads, and neither number ever falls. `Failed` is answered only where the number of the call's kind went up
/// or can go no higher, or where a file to read is not there. A call that wants memory is none of those that were made.
pub trait Files {
    ghost state: { Self → FilesState };

    /// The whole content of a name. The files stay as they are.
    fn read_all(&mut self, alloc: Global, name: &str) -> Result<Vec<u8>, Stop>
        ensures read { IsRead (state self.old) (state self.new) name.now result };

    /// Sets a name to these bytes; it is made where it was absent. Where it fails, the name may hold anything or
    /// be absent, and every other name is as before.
    fn write_all(&mut self, alloc: Global, name: &str, bytes: &[u8]) -> Result<(), Stop>
        ensures written { IsWrite (state self.old) (state self.new) name.now bytes.now result };
}

/// A sink (own choice). Contracts see the bytes taken, where an implementation tells them, and how many puts have
/// failed and how many have wanted memory so far; neither number ever falls. A put that wants memory takes nothing.
pub trait Sink {
    ghost state: { Self → SinkState };

    /// Takes the whole piece. `Failed` comes only where the count rose or stands at its last value, and some first
    /// part of the piece is taken then.
    fn put(&mut self, alloc: Global, bytes: &[u8]) -> Result<(), Stop>
        ensures put { IsPut (state self.old) (state self.new) bytes.now result };
}
