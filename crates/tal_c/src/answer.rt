// What is told a host.
ghost use Rattle.std.specs.Prelude.{◌≡◌};
ghost use Rattle.tal_c.specs.Answers.{bare, ran, of_fault, of_run, of_taken, code_number, code_status};
ghost use Rattle.tal_c.specs.Answers.{no_word, told_word, word_of, no_place, place_at};

use idx_core::OutOfMemory;
use t_machine::Ran;
use t_terms::{Shown, TCode, TFault};

/// What is told a host, in C `talc_answer`: how a call ended, and what else there is to tell. What there is not is 0.
#[repr(C)]
#[derive(Clone, Copy, Drop)]
pub struct Answer {
    /// The status, as the program's: 0 done, 1 refused, 2 an empty guest, 3 a limit of the text, 4 the budget is used
    /// up, 7 want of memory.
    pub status: u32,
    /// The number of the fault's code: that of `T07` is 107, that of `M1` is 201.
    pub code: u32,
    /// The place of the fault: its first byte in the text, from 0.
    pub start: u64,
    /// The byte after its last.
    pub end: u64,
    /// The integer of a program that halted.
    pub value: i64,
    /// How many instructions the call made.
    pub made: u64,
}

/// The word of a register or of a field, in C `talc_word`.
#[repr(C)]
#[derive(Clone, Copy, Drop)]
pub struct HostWord {
    /// What it is: 0 none, 1 an integer, 2 a tuple, 3 a block.
    pub kind: u32,
    /// The number of the tuple or of the block, else 0.
    pub number: u64,
    /// The integer, else 0.
    pub value: i64,
}

/// The place at which a guest stands, in C `talc_place`.
#[repr(C)]
#[derive(Clone, Copy, Drop)]
pub struct Position {
    /// 0; or 2 of an empty guest.
    pub status: u32,
    /// The block of the program, from 0.
    pub block: u64,
    /// The instruction of the block, from 0, or its end.
    pub index: u64,
}

/// The status of a text that is accepted, and of a program that halted.
pub(crate) const DONE: u32 = 0;

/// The status of a call on an empty guest.
pub(crate) const USAGE: u32 = 2;

const BUDGET: u32 = 4;

const MEMORY: u32 = 7;

/// A status, with nothing else to tell.
pub(crate) fn bare(status: u32) -> Answer
    ensures { result ≡ bare status }
{
    ran(status, 0, 0)
}

fn ran(status: u32, value: i64, made: u64) -> Answer
    ensures { result ≡ ran status value made }
{
    Answer {
        status,
        code: 0,
        start: 0,
        end: 0,
        value,
        made,
    }
}

/// What is told of a run that was allowed so many instructions.
pub(crate) fn of_run(fuel: u64, run: Ran) -> Answer
    ensures { result ≡ of_run fuel run }
{
    match run {
        Ran::Halted { value, made } => ran(DONE, value, made),
        Ran::Spent => ran(BUDGET, 0, fuel),
        Ran::NoMemory { made } => ran(MEMORY, 0, made),
    }
}

/// What is told where memory was to be taken.
pub(crate) fn of_taken(taken: Result<(), OutOfMemory>) -> Answer
    ensures { result ≡ of_taken taken }
{
    match taken {
        Ok(()) => bare(DONE),
        Err(_) => bare(MEMORY),
    }
}

/// The word of a register or a field that has none, or of an empty guest.
pub(crate) fn no_word() -> HostWord
    ensures { result ≡ no_word }
{
    told_word(0, 0, 0)
}

fn told_word(kind: u32, number: u64, value: i64) -> HostWord
    ensures { result ≡ told_word kind number value }
{
    HostWord {
        kind,
        number,
        value,
    }
}

/// The word of a register or of a field, if it has one.
pub(crate) fn word_of(shown: Option<Shown>) -> HostWord
    ensures { result ≡ word_of shown }
{
    match shown {
        None => no_word(),
        Some(Shown::Int(value)) => told_word(1, 0, value),
        Some(Shown::Tuple(number)) => told_word(2, number, 0),
        Some(Shown::Label(number)) => told_word(3, number, 0),
    }
}

/// The place of an empty guest.
pub(crate) fn no_place() -> Position
    ensures { result ≡ no_place }
{
    Position {
        status: USAGE,
        block: 0,
        index: 0,
    }
}

/// The place of a guest that has a program.
pub(crate) fn place_at(block: u64, index: u64) -> Position
    ensures { result ≡ place_at block index }
{
    Position {
        status: DONE,
        block,
        index,
    }
}

/// What is told of a fault.
pub(crate) fn of_fault(fault: TFault) -> Answer
    ensures { result ≡ of_fault fault }
{
    match fault {
        TFault::Memory => bare(MEMORY),
        TFault::Refused { code, span } => Answer {
            status: code_status(code),
            code: code_number(code),
            start: span.start,
            end: span.end,
            value: 0,
            made: 0,
        },
    }
}

fn code_status(code: TCode) -> u32
    ensures { result ≡ code_status code }
{
    match code {
        TCode::M1 => 3,
        _ => 1,
    }
}

fn code_number(code: TCode) -> u32
    ensures { result ≡ code_number code }
{
    match code {
        TCode::T01 => 101,
        TCode::T02 => 102,
        TCode::T03 => 103,
        TCode::T04 => 104,
        TCode::T05 => 105,
        TCode::T06 => 106,
        TCode::T07 => 107,
        TCode::T08 => 108,
        TCode::T09 => 109,
        TCode::T10 => 110,
        TCode::T11 => 111,
        TCode::T12 => 112,
        TCode::T13 => 113,
        TCode::T14 => 114,
        TCode::T15 => 115,
        TCode::T16 => 116,
        TCode::T17 => 117,
        TCode::T18 => 118,
        TCode::T19 => 119,
        TCode::T20 => 120,
        TCode::M1 => 201,
    }
}
