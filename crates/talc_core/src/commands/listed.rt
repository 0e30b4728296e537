// The command `listing`.
ghost use Rattle.std.specs.Prelude.{◌≡◌, IfOk};
ghost use Rattle.t_terms.specs.ReadProgram.{spanned_program};
ghost use Rattle.t_text.specs.Text.{IsFirstFault};
ghost use Rattle.t_rules.specs.Faults.{ProgramFault};
ghost use Rattle.t_check.specs.Verdict.{Says};
ghost use Rattle.talc_core.specs.declared.fault.Fault as fault;
ghost use Rattle.talc_core.specs.FirstFault.{AnAssembly, FirstFault, IsAssembly};
ghost use Rattle.talc_core.specs.Listed.{ShowsListing};
ghost use Rattle.talc_core.specs.OnTexts.{ShowsText};
ghost use Rattle.talc_core.specs.Steps.{AreRows, IsFaultPage, IsListed, ListsFile, PutsLine, ended_by};

use crate::assembly::check_assembly;
use crate::commands::explain::explain_fault;
use crate::fault::Fault;
use crate::finding::{Finding, find_in_assembly};
use crate::laws::texts_keep_laws;
use crate::outside::{put_line, read_input};
use crate::refusal::Refusal;
use crate::reply::{Ending, Reply, RowsMade, TextListing};
use crate::report::Failure;
use idx_core::OutOfMemory;
use io_core::{Files, Sink};
use listing::{listing_of, listing_to};
use std::alloc::Global;
use t_check::check_salted;
use t_reader::{read_salted, salt_of};
use t_terms::{TFault, TProgram};

/// What `listing` shows of an assembly text (own choice): the listing of its accepted program, by `listing_of` of the
/// crate `listing`. Refuses a text by its first fault, or for want of memory.
pub fn listing_text(alloc: Global, text: &[u8]) -> Result<Reply, Refusal>
    ensures { ShowsText ShowsListing AnAssembly text.now result }
{
    let program = check_assembly(alloc, text)?;
    let line = listing_of(alloc, text, &program)?;
    Ok(Reply {
        ending: Ending::Ends,
        line,
    })
}

// There are no rows of a text that is not read.
fn no_rows(alloc: Global, text: &[u8], fault: TFault) -> Result<RowsMade, OutOfMemory>
    requires { IsFirstFault text.now fault }
    ensures { IfOk result (AreRows text.now) }
{
    let rows = Vec::new(alloc);
    match fault {
        TFault::Refused { code, span } => Ok(RowsMade::UpTo(Fault::Tal(code, span), rows)),
        TFault::Memory => Err(OutOfMemory),
    }
}

// The rows of a program that is refused.
fn rows_of_refused(
    alloc: Global,
    text: &[u8],
    refused: (TProgram, TFault),
) -> Result<RowsMade, OutOfMemory>
    requires read { IsAssembly text.now (spanned_program refused.0) }
    requires fault { Says refused.1 (ProgramFault (spanned_program refused.0)) }
    ensures { IfOk result (AreRows text.now) }
{
    let (program, fault) = refused;
    match fault {
        TFault::Refused { code, span } => {
            let rows = listing_to(alloc, text, program, span)?;
            Ok(RowsMade::UpTo(Fault::Tal(code, span), rows))
        }
        TFault::Memory => Err(OutOfMemory),
    }
}

// The rows of a program that is read.
fn rows_of_program(alloc: Global, text: &[u8], program: TProgram) -> Result<RowsMade, OutOfMemory>
    requires { IsAssembly text.now (spanned_program program) }
    ensures { IfOk result (AreRows text.now) }
{
    match check_salted(alloc, program, salt_of(text)) {
        Ok(checked) => {
            let rows = listing_of(alloc, text, &checked)?;
            Ok(RowsMade::Whole(rows))
        }
        Err(refused) => rows_of_refused(alloc, text, refused),
    }
}

// The rows of a text.
fn rows_of(alloc: Global, text: &[u8]) -> Result<RowsMade, OutOfMemory>
    ensures { IfOk result (AreRows text.now) }
{
    match read_salted(alloc, text, salt_of(text)) {
        Ok(program) => rows_of_program(alloc, text, program),
        Err(fault) => no_rows(alloc, text, fault),
    }
}

// The page of the first fault of a text, which is looked for once more.
fn page_of_fault(alloc: Global, name: &[u8], text: &[u8]) -> Result<Vec<u8>, OutOfMemory>
    requires { (f : fault.Fault) × FirstFault AnAssembly text.now f }
    ensures { IfOk result (λ page. IsFaultPage name.now text.now page.items) }
{
    texts_keep_laws();
    match find_in_assembly(alloc, text)? {
        Finding::NoFault => unreachable!(),
        Finding::Fault(fault, told) => {
            let page = explain_fault(alloc, name, text, fault, &told)?;
            Ok(page)
        }
    }
}

/// What `listing` shows of an assembly text of this name (own choice): the listing of its accepted program; or, where
/// the text has a first fault, the listing up to the place of the fault, as far as it stands for a program, and then
/// the page that `explain` has of the fault. Only want of memory is an error.
pub fn listed_text(alloc: Global, name: &[u8], text: &[u8]) -> Result<TextListing, OutOfMemory>
    ensures { IfOk result (IsListed name.now text.now) }
{
    texts_keep_laws();
    match rows_of(alloc, text)? {
        RowsMade::Whole(shown) => Ok(TextListing { fault: None, shown }),
        RowsMade::UpTo(fault, rows) => {
            let page = page_of_fault(alloc, name, text)?;
            let mut shown = rows;
            shown.extend_from_slice(&page)?;
            Ok(TextListing {
                fault: Some(fault),
                shown,
            })
        }
    }
}

// What is shown of the text of a file of this name.
fn listing_at(alloc: Global, input: &str, text: &Vec<u8>) -> Result<TextListing, OutOfMemory>
    ensures { IfOk result (IsListed input.now text.now.items) }
{
    let listed = listed_text(alloc, input.as_bytes(), text)?;
    Ok(listed)
}

// Puts a listing on the output.
fn put_listing<O: Sink>(alloc: Global, out: &mut O, listed: &TextListing) -> Result<(), Failure>
    ensures { PutsLine listed.now.shown.items (O.state out.old) (O.state out.new) result }
{
    put_line(alloc, out, &listed.shown)?;
    Ok(())
}

// How the command ends once the listing is shown: a text with a fault is refused.
fn ended(fault: Option<Fault>) -> Result<Ending, Failure>
    ensures { result ≡ ended_by fault }
{
    match fault {
        Some(fault) => Err(Failure::Refused(fault)),
        None => Ok(Ending::Ends),
    }
}

// Shows the listing of the assembly text of a file, also where it has a fault.
pub(crate) fn show_listing<F: Files, O: Sink>(
    alloc: Global,
    files: &mut F,
    out: &mut O,
    input: &str,
) -> Result<Ending, Failure>
    ensures { ListsFile input.now (F.state files.old) (F.state files.new)
        (O.state out.old) (O.state out.new) result }
{
    let text = read_input(alloc, files, input)?;
    let listed = listing_at(alloc, input, &text)?;
    match put_listing(alloc, out, &listed) {
        Ok(()) => ended(listed.fault),
        Err(failure) => Err(failure),
    }
}
