// Calls on a text.
ghost use Rattle.std.specs.Prelude.{◌≡◌, MatchResult};
ghost use Rattle.tal_c.specs.Answers.{bare, done};
ghost use Rattle.tal_c.specs.Texts.{ChecksText, IsLoaded, IsFaultOf, CheckTold, TextRunTold};

use crate::answer::{Answer, DONE, bare, of_fault, of_run};
use std::alloc::Global;
use t_check::{Checked, check_salted};
use t_machine::{Machine, load};
use t_reader::{read_salted, salt_of};
use t_rules::accepted_programs_are_never_stuck;
use t_terms::TFault;

/// The program of the text, accepted.
fn check_text(alloc: Global, text: &[u8]) -> Result<Checked, TFault>
    ensures { ChecksText text.now result }
{
    let salt = salt_of(text);
    match read_salted(alloc, text, salt) {
        Ok(program) => match check_salted(alloc, program, salt) {
            Ok(checked) => Ok(checked),
            Err((_, fault)) => Err(fault),
        },
        Err(fault) => Err(fault),
    }
}

/// A machine at the start of the program of the text.
pub(crate) fn load_text(alloc: Global, text: &[u8]) -> Result<Machine, TFault>
    ensures { MatchResult result (IsLoaded text.now) (IsFaultOf text.now) }
{
    match check_text(alloc, text) {
        Ok(checked) => match load(alloc, &checked) {
            Ok(machine) => Ok(machine),
            Err(_) => Err(TFault::Memory),
        },
        Err(fault) => Err(fault),
    }
}

/// Whether the text stands for a program that the typing rules accept, or its first fault.
#[unsafe(no_mangle)]
pub extern "C" fn talc_check(alloc: Global, text: &[u8]) -> Answer
    ensures { CheckTold text.now result }
{
    accepted_programs_are_never_stuck();
    match check_text(alloc, text) {
        Ok(checked) => accept(checked),
        Err(fault) => of_fault(fault),
    }
}

// What is told of a program that is accepted, and let go.
fn accept(checked: Checked) -> Answer
    ensures { result ≡ bare done }
{
    drop(checked);
    bare(DONE)
}

/// Runs the program of the text, accepted, for at most so many instructions.
#[unsafe(no_mangle)]
pub extern "C" fn talc_run(alloc: Global, text: &[u8], fuel: u64) -> Answer
    ensures { TextRunTold fuel text.now result }
{
    match load_text(alloc, text) {
        Ok(mut machine) => of_run(fuel, machine.run(fuel)),
        Err(fault) => of_fault(fault),
    }
}
