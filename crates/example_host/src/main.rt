//! A host program that runs assembly texts of others: it puts two blocks of its own in front of each text, checks the
//! whole, and runs it with so many instructions, and with so much of the heap, taken in advance, and no more.
#![tactic(auto)]

use io_core::{DiskFiles, Files, OutSink, Sink};
use std::alloc::{AllocError, Global};
use std::process::ExitCode;
use t_check::check;
use t_machine::{Machine, Ran, load};
use t_reader::read;
use t_terms::{Shown, TCode, TFault};

// The host's blocks. The first has the words that a guest is given, and enters it: 20 in r1, and in r2 where to go back
// to. The second is where a guest goes back to, with its answer in r1, and in r3, where it has more to say, a pair.
const HOST: &str = "tal 2
host: code[]{}. mov r1, 20 mov r2, back jmp guest
back: code[]{r1: int}. halt[int]
";

const GUESTS: [&str; 9] = [
    "doubles.tal",
    "pairs.tal",
    "endless.tal",
    "greedy.tal",
    "hoards.tal",
    "garbled.tal",
    "forged.tal",
    "unset.tal",
    "curious.tal",
];

// A longer text is not read.
const MOST_BYTES: usize = 100_000;

// A guest may make so many instructions, a slice at a time. Between two slices the host could do other work.
const SLICES: u64 = 10;

const SLICE: u64 = 100;

// What a guest may keep: so many tuples, with its data, and so many fields of all of them together.
const TUPLES: u64 = 100;

const FIELDS: u64 = 200;

// What came of a guest.
enum Outcome {
    // With an integer, and the pair that it hands out beside it.
    Answered(i64, Option<(i64, i64)>),
    StillRunning,
    // It would keep more than it may; so many tuples are kept.
    AtCap(u64),
    TooLong,
    Refused { code: TCode, start: u64, end: u64 },
    OutOfMemory,
}

// The text of the host and that of a guest behind it.
fn joined(alloc: Global, guest: &[u8]) -> Result<Vec<u8>, AllocError> {
    let mut text = Vec::new(alloc);
    text.extend_from_slice(HOST.as_bytes())?;
    text.extend_from_slice(guest)?;
    Ok(text)
}

// The two integers of the tuple in a register, where there is such a tuple.
fn pair_in(machine: &Machine, register: u64) -> Option<(i64, i64)> {
    let Some(Shown::Tuple(number)) = machine.reg(register) else {
        return None;
    };
    match (machine.field(number, 0), machine.field(number, 1)) {
        (Some(Shown::Int(first)), Some(Shown::Int(second))) => Some((first, second)),
        _ => None,
    }
}

// Reads, checks, loads and runs a text. An error is a fault of the text, or want of memory.
fn run_text(alloc: Global, text: &[u8]) -> Result<Outcome, TFault> {
    let program = read(alloc, text)?;
    let checked = match check(alloc, program) {
        Ok(checked) => checked,
        Err((_, fault)) => return Err(fault),
    };
    let mut machine = load(alloc, &checked)?;
    machine.reserve(TUPLES, FIELDS)?;
    machine.within(TUPLES, FIELDS);
    for _ in 0..SLICES {
        match machine.run(SLICE) {
            Ran::Halted { value, .. } => return Ok(Outcome::Answered(value, pair_in(&machine, 3))),
            Ran::NoMemory { .. } => return Ok(Outcome::AtCap(machine.kept())),
            Ran::Spent => (),
        }
    }
    Ok(Outcome::StillRunning)
}

fn what_comes_of(alloc: Global, guest: &[u8]) -> Outcome {
    if guest.len() > MOST_BYTES {
        return Outcome::TooLong;
    }
    let Ok(text) = joined(alloc, guest) else {
        return Outcome::OutOfMemory;
    };
    match run_text(alloc, &text) {
        Ok(outcome) => outcome,
        Err(TFault::Memory) => Outcome::OutOfMemory,
        Err(TFault::Refused { code, span }) => Outcome::Refused {
            code,
            start: span.start,
            end: span.end,
        },
    }
}

// A line on a guest.
fn line(alloc: Global, name: &str, outcome: Outcome) -> Result<String, AllocError> {
    match outcome {
        Outcome::Answered(value, None) => format!(in alloc; "{name}: answered {value}\n"),
        Outcome::Answered(value, Some((first, second))) => {
            format!(in alloc; "{name}: answered {value}, with {first} and {second}\n")
        }
        Outcome::StillRunning => format!(in alloc; "{name}: still running\n"),
        Outcome::AtCap(kept) => format!(in alloc; "{name}: stopped with {kept} tuples\n"),
        Outcome::TooLong => format!(in alloc; "{name}: too long\n"),
        Outcome::Refused { code, start, end } => {
            format!(in alloc; "{name}: refused by {code:?} at {start}..{end}\n")
        }
        Outcome::OutOfMemory => format!(in alloc; "{name}: out of memory\n"),
    }
}

fn show_all<F: Files, O: Sink>(alloc: Global, files: &mut F, out: &mut O) -> Option<()> {
    for name in &GUESTS {
        let guest = files.read_all(alloc, name).ok()?;
        let shown = line(alloc, name, what_comes_of(alloc, &guest)).ok()?;
        out.put(alloc, shown.as_bytes()).ok()?;
    }
    Some(())
}

fn main(rt: HostRuntime) -> ExitCode {
    let alloc = rt.alloc();
    let mut out = OutSink::new(rt.stdout());
    let mut files = DiskFiles::new(rt);
    match show_all(alloc, &mut files, &mut out) {
        Some(()) => ExitCode::SUCCESS,
        None => ExitCode::FAILURE,
    }
}
