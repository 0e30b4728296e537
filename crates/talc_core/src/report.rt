// Why a command did not do its work, and how that is told.
ghost use Rattle.std.specs.Prelude.{◌≡◌};
ghost use Rattle.talc_core.specs.declared.report.Failure.TheVariants as failure;
ghost use Rattle.talc_core.specs.Failures.{failure_of};
ghost use Rattle.talc_core.specs.Steps.{Reports, ShowsFor};

use crate::fault::Fault;
use crate::lines::fault_line;
use crate::refusal::Refusal;
use crate::status::Status;
use idx_core::OutOfMemory;
use io_core::{Sink, Stop};
use std::alloc::Global;

// Why a command did not do its work.
#[derive(Clone, Copy, Debug, PartialEq, Eq, Drop)]
pub(crate) enum Failure {
    // The text that was read has this first fault.
    Refused(Fault),
    // The input could not be read.
    Read,
    // The output could not be written.
    Write,
    // Memory was wanted and not had.
    Memory,
}

impl From<Refusal> for Failure {
    ghost from_gives = { λ r e. e ≡ failure_of r };

    fn from(why: Refusal) -> Failure {
        match why {
            Refusal::Fault(fault) => Failure::Refused(fault),
            Refusal::Memory => Failure::Memory,
        }
    }
}

impl From<OutOfMemory> for Failure {
    ghost from_gives = { λ _ e. e ≡ failure.Memory };

    fn from(_: OutOfMemory) -> Failure {
        Failure::Memory
    }
}

// Puts a line, and gives the status, or `Memory` where the put found none.
pub(crate) fn show<E: Sink>(alloc: Global, err: &mut E, line: &[u8], status: Status) -> Status
    ensures { ShowsFor line.now status (E.state err.old) (E.state err.new) result }
{
    match err.put(alloc, line) {
        Ok(()) => status,
        Err(Stop::Failed) => status,
        Err(Stop::Memory) => Status::Memory,
    }
}

// Puts the line of a failure, and gives its status.
pub(crate) fn report<E: Sink>(alloc: Global, err: &mut E, failure: Failure) -> Status
    ensures { Reports failure (E.state err.old) (E.state err.new) result }
{
    match failure {
        Failure::Refused(fault) => match fault_line(alloc, &fault) {
            Ok(line) => show(alloc, err, &line, fault.status()),
            Err(_) => show(alloc, err, b"out of memory\n", Status::Memory),
        },
        Failure::Read => show(alloc, err, b"read fault\n", Status::ReadFault),
        Failure::Write => {
            let _ = err.put(alloc, b"write fault\n");
            Status::WriteFault
        }
        Failure::Memory => show(alloc, err, b"out of memory\n", Status::Memory),
    }
}
