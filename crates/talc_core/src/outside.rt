// The calls of the outside: the one read of a command, the one write of a text, and the one put of a line.
ghost use Rattle.talc_core.specs.Steps.{ReadsInput, WritesOutput, PutsLine};

use crate::report::Failure;
use io_core::{Files, Sink, Stop};
use std::alloc::Global;

// The whole content of the input.
pub(crate) fn read_input<F: Files>(
    alloc: Global,
    files: &mut F,
    input: &str,
) -> Result<Vec<u8>, Failure>
    ensures { ReadsInput input.now (F.state files.old) (F.state files.new) result }
{
    match files.read_all(alloc, input) {
        Ok(text) => Ok(text),
        Err(Stop::Failed) => Err(Failure::Read),
        Err(Stop::Memory) => Err(Failure::Memory),
    }
}

// Sets the output to a text.
pub(crate) fn write_output<F: Files>(
    alloc: Global,
    files: &mut F,
    output: &str,
    text: &[u8],
) -> Result<(), Failure>
    ensures { WritesOutput output.now text.now (F.state files.old) (F.state files.new) result }
{
    match files.write_all(alloc, output, text) {
        Ok(()) => Ok(()),
        Err(Stop::Failed) => Err(Failure::Write),
        Err(Stop::Memory) => Err(Failure::Memory),
    }
}

// Puts a line on the output.
pub(crate) fn put_line<O: Sink>(alloc: Global, out: &mut O, line: &[u8]) -> Result<(), Failure>
    ensures { PutsLine line.now (O.state out.old) (O.state out.new) result }
{
    match out.put(alloc, line) {
        Ok(()) => Ok(()),
        Err(Stop::Failed) => Err(Failure::Write),
        Err(Stop::Memory) => Err(Failure::Memory),
    }
}
