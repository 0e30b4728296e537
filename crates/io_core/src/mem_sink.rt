// A sink in memory, with puts that fail where a list says so.
ghost use Rattle.std.specs.Prelude.{◌≡◌, ◌++◌, MatchResult};
ghost use Rattle.io_core.specs.declared.outside.Stop.TheVariants.{Memory};
ghost use Rattle.io_core.specs.Failing.{counted};
ghost use Rattle.io_core.specs.Outside.{IsPut};
ghost use Rattle.io_core.specs.MemSink.{sink_state, fresh_sink, called, MemPuts};

use crate::failing::{failing_at, first_bytes};
use crate::outside::{Sink, Stop};
use std::alloc::Global;
use std::marker::Model;

/// A sink in memory (own choice). Puts are numbered and fail by a list as the calls of `MemFiles` do; a failing put
/// takes as many first bytes of its piece as the pair's second number says, or all where there are fewer.
#[derive(Drop)]
pub struct MemSink {
    taken: Vec<u8>,
    failing: Vec<(u64, u64)>,
    next: u64,
    faults: u64,
    wants: u64,
}

impl Model for MemSink {
    ghost use Rattle.io_core.specs.MemSink.{MemSinkState};

    ghost Value = { MemSinkState };

    ghost view = { λ s. record {
      taken = s.taken.items;
      failing = s.failing.items;
      next = s.next;
      faults = s.faults;
      wants = s.wants;
    } };
}

impl MemSink {
    /// A sink that has taken nothing. `failing` has the numbers of the puts that fail, each with the number of
    /// bytes that the put takes then.
    pub fn new(alloc: Global, failing: Vec<(u64, u64)>) -> MemSink
        ensures { result ≡ fresh_sink failing.items }
    {
        MemSink {
            taken: Vec::new(alloc),
            failing,
            next: 0,
            faults: 0,
            wants: 0,
        }
    }

    // Takes bytes, or counts that memory was wanted.
    fn take(&mut self, bytes: &[u8]) -> Result<(), Stop>
        ensures { MatchResult result
            (λ _. self.new ≡ record (called self.old) { taken = self.old.taken ++ bytes.now })
            (λ why. (why ≡ Memory) × (self.new ≡ record self.old { wants = counted self.old.wants })) }
    {
        match self.taken.extend_from_slice(bytes) {
            Ok(()) => {
                self.next = self.next.saturating_add(1);
                Ok(())
            }
            Err(_) => {
                self.wants = self.wants.saturating_add(1);
                Err(Stop::Memory)
            }
        }
    }

    /// The bytes taken so far.
    pub fn taken(&self) -> &Vec<u8>
        ensures { result.now.items ≡ self.now.taken }
    {
        &self.taken
    }

    /// How many puts have failed by the list.
    pub fn faults(&self) -> u64
        ensures { result ≡ self.now.faults }
    {
        self.faults
    }
}

impl Sink for MemSink {
    ghost state = { sink_state };

    fn put(&mut self, _alloc: Global, bytes: &[u8]) -> Result<(), Stop>
        ensures put { IsPut (sink_state self.old) (sink_state self.new) bytes.now result }
        ensures rules { MemPuts self.old self.new bytes.now result }
    {
        match failing_at(&self.failing, self.next) {
            Some(most) => {
                self.take(first_bytes(bytes, most))?;
                self.faults = self.faults.saturating_add(1);
                Err(Stop::Failed)
            }
            None => {
                self.take(bytes)?;
                Ok(())
            }
        }
    }
}
