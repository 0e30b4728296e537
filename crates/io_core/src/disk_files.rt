// Files of the disk. No clause knows what the disk holds, so they tell no content, and count each fault.
ghost use Rattle.std.specs.Prelude.{◌≡◌};

use crate::outside::{Files, Stop};
use std::alloc::Global;
use std::fs;
use std::io::{ErrorKind, Read};
use std::marker::Model;
use std::rt::Files as HostFiles;

// How many read calls a file may take.
const MOST_READS: u64 = 4294967296;

/// Files of the disk, by way of the system's (own choice). They tell no content and no calls. Each fault of the
/// system is counted, an absent name's too, up to `u64::MAX`.
#[derive(Drop)]
pub struct DiskFiles<R> {
    host: R,
    reads: u64,
    writes: u64,
}

impl<R> Model for DiskFiles<R> {
    ghost use Rattle.std.specs.Prelude.{None};
    ghost use Rattle.io_core.specs.Outside.{FilesState, files_code};

    ghost Value = { FilesState };

    ghost coded = { files_code };

    ghost view = { λ d. record { told = None; reads = d.reads; writes = d.writes; calls = None } };
}

// Reads to the end of a file. A read call that a signal interrupts is made again, and counts.
fn read_file<R: HostFiles>(host: &R, alloc: Global, name: &str) -> Result<Vec<u8>, Stop> {
    let Ok(mut file) = fs::open(host, name) else {
        return Err(Stop::Failed);
    };
    let mut bytes = Vec::new(alloc);
    let mut buffer = [0u8; 4096];
    for _ in 0..MOST_READS {
        match file.read(&mut buffer) {
            Ok(0) => return Ok(bytes),
            Ok(count) => bytes.extend_from_slice(&buffer[..count])?,
            Err(error) if error.kind() == ErrorKind::Interrupted => {}
            Err(_) => return Err(Stop::Failed),
        }
    }
    Err(Stop::Failed)
}

impl<R> DiskFiles<R> {
    /// The files that the system hands out.
    pub fn new(host: R) -> DiskFiles<R>
        ensures { result ≡ record { told = None; reads = 0; writes = 0; calls = None } }
    {
        DiskFiles {
            host,
            reads: 0,
            writes: 0,
        }
    }

    /// How many reads, and how many writes, have failed.
    pub fn faults(&self) -> (u64, u64)
        ensures { result ≡ (self.now.reads, self.now.writes) }
    {
        (self.reads, self.writes)
    }
}

impl<R: HostFiles> Files for DiskFiles<R> {
    ghost state = { λ d. d };

    /// A file that 4294967296 read calls do not exhaust is a fault, which is counted.
    fn read_all(&mut self, alloc: Global, name: &str) -> Result<Vec<u8>, Stop> {
        match read_file(&self.host, alloc, name) {
            Ok(bytes) => Ok(bytes),
            Err(Stop::Memory) => Err(Stop::Memory),
            Err(Stop::Failed) => {
                self.reads = self.reads.saturating_add(1);
                Err(Stop::Failed)
            }
        }
    }

    fn write_all(&mut self, _alloc: Global, name: &str, bytes: &[u8]) -> Result<(), Stop> {
        match fs::write(&self.host, name, bytes) {
            Ok(()) => Ok(()),
            Err(_) => {
                self.writes = self.writes.saturating_add(1);
                Err(Stop::Failed)
            }
        }
    }
}
