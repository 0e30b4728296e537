// A stream of the system, as the standard output. No clause knows what the system shows, so it tells no content, and
// counts each fault. It never wants memory.
ghost use Rattle.std.specs.Prelude.{◌≡◌};

use crate::outside::{Sink, Stop};
use std::alloc::Global;
use std::io::Write;
use std::marker::Model;

/// A stream of the system as a sink (own choice). It tells no content. Each fault of the system is counted, up to
/// `u64::MAX`; to take no byte of what is still left to write is one.
#[derive(Drop)]
pub struct OutSink<W> {
    writer: W,
    faults: u64,
}

impl<W> Model for OutSink<W> {
    ghost use Rattle.std.specs.Prelude.{None};
    ghost use Rattle.io_core.specs.Outside.{SinkState};

    ghost Value = { SinkState };

    ghost view = { λ s. record { taken = None; faults = s.faults; wants = 0 } };
}

impl<W> OutSink<W> {
    /// A sink that writes each piece at once.
    pub fn new(writer: W) -> OutSink<W>
        ensures { result ≡ record { taken = None; faults = 0; wants = 0 } }
    {
        OutSink { writer, faults: 0 }
    }

    /// How many puts have failed.
    pub fn faults(&self) -> u64
        ensures { result ≡ self.now.faults }
    {
        self.faults
    }
}

impl<W: Write> Sink for OutSink<W> {
    ghost state = { λ s. s };

    fn put(&mut self, _alloc: Global, bytes: &[u8]) -> Result<(), Stop> {
        match self.writer.write_all(bytes) {
            Ok(()) => Ok(()),
            Err(_) => {
                self.faults = self.faults.saturating_add(1);
                Err(Stop::Failed)
            }
        }
    }
}
