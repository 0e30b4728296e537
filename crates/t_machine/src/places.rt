// Places of registers.
ghost use Rattle.std.specs.Prelude.{◌≡◌, Some, IfOk, OnOk, length, []};
ghost use Rattle.t_machine.specs.Places.{PlaceList, register_place, ArePlaces, Extends};
ghost use Rattle.t_machine.specs.Laid.{Adds};

use idx_core::OutOfMemory;
use std::alloc::Global;
use std::collections::BTreeMap;
use std::marker::Model;

/// A place for the word of each register that a program names, whatever the register's number. The places count from 0,
/// and are 32 bits each: for more than 2^32 registers memory is wanted. Contracts see it as the list of the registers,
/// each with its place.
#[derive(Drop)]
pub(crate) struct Places {
    map: BTreeMap<u64, u32>,
}

impl Model for Places {
    ghost use Rattle.t_machine.specs.Places.{PlaceList, ArePlaces};

    ghost Value = { PlaceList };

    ghost view = { λ s. s.map.entries };

    ghost invariant = { λ s. ArePlaces s.map.entries };
}

impl Places {
    pub(crate) fn new(alloc: Global) -> Places
        ensures { result ≡ [] }
    {
        Places {
            map: BTreeMap::new(alloc),
        }
    }

    // How many places there are.
    pub(crate) fn len(&self) -> usize
        ensures len { result ≡ length self.now }
        ensures places { ArePlaces self.now }
    {
        self.map.len()
    }

    // The place of a register, where it has one.
    pub(crate) fn find(&self, register: u64) -> Option<u32>
        ensures { result ≡ register_place self.now register }
    {
        self.map.get(&register).copied()
    }

    // The place of a register, a new one where it has none yet.
    pub(crate) fn place(&mut self, register: u64) -> Result<u32, OutOfMemory>
        ensures place { IfOk result (λ k. register_place self.new register ≡ Some k) }
        ensures kept { OnOk result (Extends self.old self.new) }
        ensures only { OnOk result (Adds self.old self.new (λ r. r ≡ register)) }
    {
        if let Some(place) = self.map.get(&register) {
            return Ok(*place);
        }
        let count = self.map.len();
        if count > u32::MAX as usize {
            return Err(OutOfMemory);
        }
        let place = count as u32;
        self.map.insert(register, place)?;
        Ok(place)
    }
}
