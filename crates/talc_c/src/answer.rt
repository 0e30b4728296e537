// What is told a host.
ghost use Rattle.std.specs.Prelude.{◌≡◌};
ghost use Rattle.talc_c.specs.Answers.{put, fault_place, of_fault};

use crate::codes::code_number;
use idx_core::Span;
use talc_core::Fault;

/// What is told a host, in C `talc_made`: how a call ended, and what else there is to tell. What there is not is 0.
#[repr(C)]
#[derive(Clone, Copy, Drop)]
pub struct Made {
    /// The status, as the program's: 0 done, 1 refused, 2 no such form or too few registers, 3 a limit of the text, 4
    /// the turns are used up, 7 want of memory; and 8 where the host's memory is too small.
    pub status: u32,
    /// The number of the fault's code: that of `E07` is 307, that of `L1` is 401.
    pub code: u32,
    /// The place of the fault: its first byte in the text, from 0.
    pub start: u64,
    /// The byte after its last.
    pub end: u64,
    /// How many bytes what is made has.
    pub length: u64,
}

pub(crate) const USAGE: u32 = 2;

pub(crate) const MEMORY: u32 = 7;

pub(crate) const SMALL: u32 = 8;

/// What is told where no fault is: a status, and how many bytes what is made has.
pub(crate) fn put(status: u32, length: u64) -> Made
    ensures { result ≡ put status length }
{
    Made {
        status,
        code: 0,
        start: 0,
        end: 0,
        length,
    }
}

fn fault_place(fault: Fault) -> Span
    ensures { result ≡ fault_place fault }
{
    match fault {
        Fault::Source(_, span) => span,
        Fault::Tal(_, span) => span,
    }
}

/// What is told of a fault.
pub(crate) fn of_fault(fault: Fault) -> Made
    ensures { result ≡ of_fault fault }
{
    let place = fault_place(fault);
    Made {
        status: u32::from(fault.status().number()),
        code: code_number(fault),
        start: place.start,
        end: place.end,
        length: 0,
    }
}
