// The programs of texts, and what becomes of these.
use idx_core::OutOfMemory;
use std::alloc::Global;
use std::test::Fail;
use t_check::{Checked, check};
use t_machine::{Machine, Ran, load};
use t_reader::read;
use t_terms::{TFault, TProgram};

fn refusal(refused: (TProgram, TFault)) -> TFault {
    refused.1
}

/// The program, if the checker accepts it.
pub fn accepted(alloc: Global, program: TProgram) -> Result<Checked, TFault> {
    check(alloc, program).map_err(refusal)
}

/// The accepted program of a text, loaded.
pub fn loaded(alloc: Global, text: &str) -> Result<Machine, Fail> {
    let program = read(alloc, text.as_bytes())?;
    let checked = accepted(alloc, program)?;
    Ok(load(alloc, &checked)?)
}

/// How the first run of so many instructions ends.
pub fn first_run(alloc: Global, program: &Checked, fuel: u64) -> Result<Ran, OutOfMemory> {
    let mut machine = load(alloc, program)?;
    Ok(machine.run(fuel))
}

/// The integer with which a run ended.
pub fn value_of(ran: Ran) -> Option<i64> {
    match ran {
        Ran::Halted { value, .. } => Some(value),
        Ran::Spent | Ran::NoMemory { .. } => None,
    }
}
