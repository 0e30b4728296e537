// How the outcome of a call on bytes is told, and what is made put into memory of the host.
ghost use Rattle.std.specs.Prelude.{◌≡◌};
ghost use Rattle.talc_core.specs.Status.{number_of};
ghost use Rattle.talc_c.specs.Told.{IsPut, Tells, made_as, form_at};

use crate::answer::{MEMORY, Made, SMALL, of_fault, put};
use talc_core::{Ending, Refusal, Reply, Status};
use talc_words::Form;

// Puts what is made into the host's memory, where there is room for all of it.
fn put_into(room: &mut [u8], made: &[u8], status: Status) -> Made
    ensures { IsPut (number_of status) made.now room.old room.new result }
{
    let length = made.len();
    if length <= room.len() {
        room[..length].copy_from_slice(made);
        put(u32::from(status.number()), length as u64)
    } else {
        put(SMALL, length as u64)
    }
}

/// Tells the outcome of a call, and puts what is made into the host's memory.
pub(crate) fn tell(room: &mut [u8], outcome: Result<Reply, Refusal>) -> Made
    ensures { Tells outcome room.old room.new result }
{
    match outcome {
        Ok(reply) => put_into(room, &reply.line, reply.ending.status()),
        Err(Refusal::Fault(fault)) => of_fault(fault),
        Err(Refusal::Memory) => put(MEMORY, 0),
    }
}

/// The outcome of a call that makes a text.
pub(crate) fn made_as(made: Result<Vec<u8>, Refusal>) -> Result<Reply, Refusal>
    ensures { result ≡ made_as made }
{
    match made {
        Ok(line) => Ok(Reply {
            ending: Ending::Ends,
            line,
        }),
        Err(why) => Err(why),
    }
}

/// The form of a number.
pub(crate) fn form_at(number: u32) -> Option<Form>
    ensures { result ≡ form_at number }
{
    match number {
        0 => Some(Form::Source),
        1 => Some(Form::Cps { typed: false }),
        2 => Some(Form::Closed { typed: false }),
        3 => Some(Form::Hoisted { typed: false }),
        4 => Some(Form::Allocated { typed: false }),
        5 => Some(Form::Assembly),
        _ => None,
    }
}
