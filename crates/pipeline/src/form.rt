// The text of each form.
ghost use Rattle.std.specs.Prelude.{◌≡◌, IfOk};
ghost use Rattle.f_terms.specs.ReadTerm.{term_of};
ghost use Rattle.f_check.specs.Typed.{program_term};
ghost use Rattle.talc_words.specs.declared.form.Form.TheVariants as form;
ghost use Rattle.pipeline.specs.Forms.{form_text};

use crate::compile;
use crate::passes::{allocated, closed, hoisted};
use a_notation::write_allocated;
use f_check::Program;
use f_writer::write_term;
use h_notation::write_hoisted;
use idx_core::OutOfMemory;
use k_pass::cps;
use kc_notation::{write_closed, write_cps};
use std::alloc::Global;
use t_writer::write2;
use talc_words::Form;

fn converted_text(alloc: Global, program: &Program, typed: bool) -> Result<Vec<u8>, OutOfMemory>
    ensures { IfOk result (λ text. text.items ≡ form_text (form.Cps typed) (term_of (program_term program.now))) }
{
    let converted = cps(alloc, program)?;
    let text = write_cps(alloc, &converted, typed)?;
    Ok(text)
}

fn closed_text(alloc: Global, program: &Program, typed: bool) -> Result<Vec<u8>, OutOfMemory>
    ensures { IfOk result (λ text. text.items ≡ form_text (form.Closed typed) (term_of (program_term program.now))) }
{
    let closed = closed(alloc, program)?;
    let text = write_closed(alloc, &closed, typed)?;
    Ok(text)
}

fn hoisted_text(alloc: Global, program: &Program, typed: bool) -> Result<Vec<u8>, OutOfMemory>
    ensures { IfOk result (λ text. text.items ≡ form_text (form.Hoisted typed) (term_of (program_term program.now))) }
{
    let hoisted = hoisted(alloc, program)?;
    let text = write_hoisted(alloc, &hoisted, typed)?;
    Ok(text)
}

fn allocated_text(alloc: Global, program: &Program, typed: bool) -> Result<Vec<u8>, OutOfMemory>
    ensures { IfOk result (λ text. text.items ≡ form_text (form.Allocated typed) (term_of (program_term program.now))) }
{
    let allocated = allocated(alloc, program)?;
    let text = write_allocated(alloc, &allocated, typed)?;
    Ok(text)
}

fn assembly_text(alloc: Global, program: &Program) -> Result<Vec<u8>, OutOfMemory>
    ensures { IfOk result (λ text. text.items ≡ form_text form.Assembly (term_of (program_term program.now))) }
{
    let compiled = compile(alloc, program)?;
    let text = write2(alloc, compiled.program())?;
    Ok(text)
}

/// A form of a program as a text (own choice): the source in its canonical notation, the program that the passes so far
/// make of it in the notation of its calculus, with types if the form says so, or the assembly program as it is
/// written. Answers want of memory alone.
pub fn form_of(alloc: Global, program: &Program, form: Form) -> Result<Vec<u8>, OutOfMemory>
    ensures { IfOk result (λ text. text.items ≡ form_text form (term_of (program_term program.now))) }
{
    match form {
        Form::Source => write_term(alloc, program.term()),
        Form::Cps { typed } => converted_text(alloc, program, typed),
        Form::Closed { typed } => closed_text(alloc, program, typed),
        Form::Hoisted { typed } => hoisted_text(alloc, program, typed),
        Form::Allocated { typed } => allocated_text(alloc, program, typed),
        Form::Assembly => assembly_text(alloc, program),
    }
}
