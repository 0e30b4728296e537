// The command `compile`.
ghost use Rattle.std.specs.Prelude.{◌≤◌};
ghost use Rattle.talc_core.specs.FirstFault.{AProgram};
ghost use Rattle.talc_core.specs.CompiledText.{CompiledText, CompiledTextWithin};
ghost use Rattle.talc_core.specs.OnTexts.{MakesText};
ghost use Rattle.talc_core.specs.Steps.{MakesFile};

use crate::outside::{read_input, write_output};
use crate::refusal::Refusal;
use crate::reply::Ending;
use crate::report::Failure;
use crate::source::read_program;
use io_core::Files;
use pipeline::{compile, compile_within};
use std::alloc::Global;
use t_writer::write2;

/// The assembly text that a source text is compiled to: the text of an accepted program that means the same, and comes
/// of the source by the passes in turn (those of the paper of 1999). Refuses a text by its first fault, or for want of
/// memory.
pub fn compile_text(alloc: Global, source: &[u8]) -> Result<Vec<u8>, Refusal>
    ensures { MakesText CompiledText AProgram source.now result }
{
    let program = read_program(alloc, source)?;
    let compiled = compile(alloc, &program)?;
    let target = write2(alloc, compiled.program())?;
    Ok(target)
}

// Compiles the source text of one file into the assembly text of another. The input is read wholly before the output is
// written, and the output is written once.
pub(crate) fn compile_file<F: Files>(
    alloc: Global,
    files: &mut F,
    input: &str,
    output: &str,
) -> Result<Ending, Failure>
    ensures { MakesFile CompiledText AProgram input.now output.now (F.state files.old) (F.state files.new) result }
{
    let source = read_input(alloc, files, input)?;
    let target = compile_text(alloc, &source)?;
    write_output(alloc, files, output, &target)?;
    Ok(Ending::Ends)
}

/// The same within registers 1 to `registers` (own choice): a program that names a register above that is spilled.
pub fn compile_text_within(alloc: Global, source: &[u8], registers: u64) -> Result<Vec<u8>, Refusal>
    requires { 8 ≤ registers }
    ensures { MakesText (CompiledTextWithin registers) AProgram source.now result }
{
    let program = read_program(alloc, source)?;
    let bounded = compile_within(alloc, &program, registers)?;
    let target = write2(alloc, bounded.program())?;
    Ok(target)
}

// Compiles the source text of one file into the assembly text of another, within registers 1 to `registers`.
pub(crate) fn compile_file_within<F: Files>(
    alloc: Global,
    files: &mut F,
    input: &str,
    output: &str,
    registers: u64,
) -> Result<Ending, Failure>
    requires { 8 ≤ registers }
    ensures { MakesFile (CompiledTextWithin registers) AProgram input.now output.now
        (F.state files.old) (F.state files.new) result }
{
    let source = read_input(alloc, files, input)?;
    let target = compile_text_within(alloc, &source, registers)?;
    write_output(alloc, files, output, &target)?;
    Ok(Ending::Ends)
}
