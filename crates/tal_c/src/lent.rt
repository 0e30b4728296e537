// The exports on a guest in memory of the host. Each lends the guest to a call of `guest`, and gives it back.
ghost use types.Logic.{sem};
ghost use Rattle.tal_c.specs.declared.guest.Guest as guests;
ghost use Rattle.tal_c.specs.Guests.{empty, LoadTold, GuestRun, GuestReserve, GuestCollect, GuestWithin};
ghost use Rattle.tal_c.specs.Guests.{GuestReg, GuestField, GuestKept, GuestPlace};
ghost use Rattle.tal_c.specs.Places.{room_for_guest, guest_at, some_guest_at};

use crate::answer::{Answer, HostWord, Position};
use crate::guest::{
    Guest, cap, clear, collect_in, field_in, kept_in, load_into, no_guest, place_in, reg_in,
    reserve_in, run_on,
};
use std::alloc::Global;

/// Makes a guest with no program of room for one.
#[unsafe(no_mangle)]
pub unsafe extern "C" fn talc_guest_init(at: *mut u8)
    requires* { sem 𝓛 (room_for_guest at) }
    ensures* { sem 𝓛 (guest_at at empty) }
{
    let guest = at as *mut Guest;
    guest.write(no_guest());
}

/// Lets go of the guest's program. The memory is then the host's to use again.
#[unsafe(no_mangle)]
pub unsafe extern "C" fn talc_guest_clear(at: *mut u8)
    ghost old: { guests.Guest }
    requires* { sem 𝓛 (guest_at at old) }
    ensures* { sem 𝓛 (guest_at at empty) }
{
    let guest = at as *mut Guest;
    clear(&mut *guest);
}

/// Loads the program of the text, accepted, in the place of the one that is there.
#[unsafe(no_mangle)]
pub unsafe extern "C" fn talc_guest_load(alloc: Global, at: *mut u8, text: &[u8]) -> Answer
    ghost old: { guests.Guest }
    requires* { sem 𝓛 (guest_at at old) }
    ensures* { sem 𝓛 (some_guest_at at (λ new. LoadTold text.now new result)) }
{
    let guest = at as *mut Guest;
    load_into(alloc, &mut *guest, text)
}

/// Runs the guest's program on for at most so many instructions.
#[unsafe(no_mangle)]
pub unsafe extern "C" fn talc_guest_run(at: *mut u8, fuel: u64) -> Answer
    ghost old: { guests.Guest }
    requires* { sem 𝓛 (guest_at at old) }
    ensures* { sem 𝓛 (some_guest_at at (λ new. GuestRun fuel old new result)) }
{
    let guest = at as *mut Guest;
    run_on(&mut *guest, fuel)
}

/// Takes memory in advance: for so many tuples, and for so many fields of all of them together.
#[unsafe(no_mangle)]
pub unsafe extern "C" fn talc_guest_reserve(at: *mut u8, tuples: u64, fields: u64) -> Answer
    ghost old: { guests.Guest }
    requires* { sem 𝓛 (guest_at at old) }
    ensures* { sem 𝓛 (some_guest_at at (λ new. GuestReserve tuples fields old new result)) }
{
    let guest = at as *mut Guest;
    reserve_in(&mut *guest, tuples, fields)
}

/// Drops the tuples of the guest that it cannot reach any more.
#[unsafe(no_mangle)]
pub unsafe extern "C" fn talc_guest_collect(at: *mut u8) -> Answer
    ghost old: { guests.Guest }
    requires* { sem 𝓛 (guest_at at old) }
    ensures* { sem 𝓛 (some_guest_at at (λ new. GuestCollect old new result)) }
{
    let guest = at as *mut Guest;
    collect_in(&mut *guest)
}

/// Sets what the guest may keep from now on: never more than so many tuples, nor more than so many fields of all of
/// them together, with the data of its program; or no more than it keeps now, where that is more.
#[unsafe(no_mangle)]
pub unsafe extern "C" fn talc_guest_within(at: *mut u8, tuples: u64, fields: u64) -> Answer
    ghost old: { guests.Guest }
    requires* { sem 𝓛 (guest_at at old) }
    ensures* { sem 𝓛 (some_guest_at at (λ new. GuestWithin tuples fields old new result)) }
{
    let guest = at as *mut Guest;
    cap(&mut *guest, tuples, fields)
}

/// The word of a register of the guest.
#[unsafe(no_mangle)]
pub unsafe extern "C" fn talc_guest_reg(at: *mut u8, register: u64) -> HostWord
    ghost old: { guests.Guest }
    requires* { sem 𝓛 (guest_at at old) }
    ensures* { sem 𝓛 (some_guest_at at (λ new. GuestReg register old new result)) }
{
    let guest = at as *mut Guest;
    reg_in(&mut *guest, register)
}

/// The word of a field, from 0, of the tuple of a number, by which registers and fields show it.
#[unsafe(no_mangle)]
pub unsafe extern "C" fn talc_guest_field(at: *mut u8, tuple: u64, field: u64) -> HostWord
    ghost old: { guests.Guest }
    requires* { sem 𝓛 (guest_at at old) }
    ensures* { sem 𝓛 (some_guest_at at (λ new. GuestField tuple field old new result)) }
{
    let guest = at as *mut Guest;
    field_in(&mut *guest, tuple, field)
}

/// How many tuples the guest keeps, with the data of its program.
#[unsafe(no_mangle)]
pub unsafe extern "C" fn talc_guest_kept(at: *mut u8) -> u64
    ghost old: { guests.Guest }
    requires* { sem 𝓛 (guest_at at old) }
    ensures* { sem 𝓛 (some_guest_at at (λ new. GuestKept old new result)) }
{
    let guest = at as *mut Guest;
    kept_in(&mut *guest)
}

/// The place at which the guest stands.
#[unsafe(no_mangle)]
pub unsafe extern "C" fn talc_guest_place(at: *mut u8) -> Position
    ghost old: { guests.Guest }
    requires* { sem 𝓛 (guest_at at old) }
    ensures* { sem 𝓛 (some_guest_at at (λ new. GuestPlace old new result)) }
{
    let guest = at as *mut Guest;
    place_in(&mut *guest)
}
