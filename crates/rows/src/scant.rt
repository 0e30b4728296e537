// Files and outputs in memory that find no memory where a row says so.
use io_core::{Files, MemFiles, MemSink, Sink, Stop};
use std::alloc::Global;

/// Files in memory. Where they are scant no call finds memory.
#[derive(Drop)]
pub struct RowFiles {
    pub files: MemFiles,
    pub scant: bool,
}

impl Files for RowFiles {
    ghost use Rattle.io_core.specs.MemFiles.{files_state};

    ghost state = { λ f. files_state f.files };

    fn read_all(&mut self, alloc: Global, name: &str) -> Result<Vec<u8>, Stop> {
        if self.scant {
            return Err(Stop::Memory);
        }
        self.files.read_all(alloc, name)
    }

    fn write_all(&mut self, alloc: Global, name: &str, bytes: &[u8]) -> Result<(), Stop> {
        if self.scant {
            return Err(Stop::Memory);
        }
        self.files.write_all(alloc, name, bytes)
    }
}

/// An output in memory. Where it is scant its next put finds no memory, and later ones do. It counts the puts that
/// wanted memory.
#[derive(Drop)]
pub struct RowSink {
    pub sink: MemSink,
    pub scant: bool,
    pub wants: u64,
}

impl Sink for RowSink {
    ghost use Rattle.std.specs.Prelude.{Some};

    ghost state = { λ s. record { taken = Some s.sink.taken; faults = s.sink.faults; wants = s.wants } };

    fn put(&mut self, alloc: Global, bytes: &[u8]) -> Result<(), Stop> {
        if self.scant {
            self.scant = false;
            self.wants = self.wants.saturating_add(1);
            return Err(Stop::Memory);
        }
        match self.sink.put(alloc, bytes) {
            Ok(()) => Ok(()),
            Err(Stop::Failed) => Err(Stop::Failed),
            Err(Stop::Memory) => {
                self.wants = self.wants.saturating_add(1);
                Err(Stop::Memory)
            }
        }
    }
}
