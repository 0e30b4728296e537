// A guest: a program that is loaded once and run a slice at a time.
ghost use Rattle.std.specs.Prelude.{◌≡◌};
ghost use Rattle.tal_c.specs.Guests.{empty, LoadTold, GuestRun, GuestReserve, GuestCollect, GuestWithin};
ghost use Rattle.tal_c.specs.Guests.{GuestReg, GuestField, GuestKept, GuestPlace};

use crate::answer::{
    Answer, DONE, HostWord, Position, USAGE, bare, no_place, no_word, of_fault, of_run, of_taken,
    place_at, word_of,
};
use crate::texts::load_text;
use std::alloc::Global;
use t_machine::Machine;

/// A program that is loaded and stands after some of its instructions, or none.
#[derive(Drop)]
pub struct Guest {
    pub(crate) machine: Option<Machine>,
}

/// A guest with no program.
pub(crate) fn no_guest() -> Guest
    ensures { result ≡ empty }
{
    Guest { machine: None }
}

/// Lets go of the guest's program.
pub(crate) fn clear(guest: &mut Guest)
    ensures { guest.new ≡ empty }
{
    guest.machine = None;
}

/// Loads the program of the text, accepted, in the place of the one that is there.
pub(crate) fn load_into(alloc: Global, guest: &mut Guest, text: &[u8]) -> Answer
    ensures { LoadTold text.now guest.new result }
{
    guest.machine = None;
    match load_text(alloc, text) {
        Ok(machine) => {
            guest.machine = Some(machine);
            bare(DONE)
        }
        Err(fault) => of_fault(fault),
    }
}

/// Runs the guest's program on for at most so many instructions.
pub(crate) fn run_on(guest: &mut Guest, fuel: u64) -> Answer
    ensures { GuestRun fuel guest.old guest.new result }
{
    match &mut guest.machine {
        Some(machine) => of_run(fuel, machine.run(fuel)),
        None => bare(USAGE),
    }
}

/// Takes memory in advance: for so many tuples, and for so many fields of all of them together.
pub(crate) fn reserve_in(guest: &mut Guest, tuples: u64, fields: u64) -> Answer
    ensures { GuestReserve tuples fields guest.old guest.new result }
{
    match &mut guest.machine {
        Some(machine) => of_taken(machine.reserve(tuples, fields)),
        None => bare(USAGE),
    }
}

/// Drops the tuples of the guest that it cannot reach any more.
pub(crate) fn collect_in(guest: &mut Guest) -> Answer
    ensures { GuestCollect guest.old guest.new result }
{
    match &mut guest.machine {
        Some(machine) => of_taken(machine.collect()),
        None => bare(USAGE),
    }
}

/// Sets what the guest may keep: so many tuples, and so many fields of all of them together.
pub(crate) fn cap(guest: &mut Guest, tuples: u64, fields: u64) -> Answer
    ensures { GuestWithin tuples fields guest.old guest.new result }
{
    match &mut guest.machine {
        Some(machine) => {
            machine.within(tuples, fields);
            bare(DONE)
        }
        None => bare(USAGE),
    }
}

/// The word of a register of the guest. (It is lent whole, as for the other calls, and stays as it is.)
pub(crate) fn reg_in(guest: &mut Guest, register: u64) -> HostWord
    ensures { GuestReg register guest.old guest.new result }
{
    match &guest.machine {
        Some(machine) => word_of(machine.reg(register)),
        None => no_word(),
    }
}

/// The word of a field of a tuple of the guest.
pub(crate) fn field_in(guest: &mut Guest, tuple: u64, field: u64) -> HostWord
    ensures { GuestField tuple field guest.old guest.new result }
{
    match &guest.machine {
        Some(machine) => word_of(machine.field(tuple, field)),
        None => no_word(),
    }
}

/// How many tuples the guest keeps.
pub(crate) fn kept_in(guest: &mut Guest) -> u64
    ensures { GuestKept guest.old guest.new result }
{
    match &guest.machine {
        Some(machine) => machine.kept(),
        None => 0,
    }
}

/// The place at which the guest stands.
pub(crate) fn place_in(guest: &mut Guest) -> Position
    ensures { GuestPlace guest.old guest.new result }
{
    match &guest.machine {
        Some(machine) => {
            let (block, index) = machine.place();
            place_at(block, index)
        }
        None => no_place(),
    }
}
