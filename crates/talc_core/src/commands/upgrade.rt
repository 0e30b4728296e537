// The command `upgrade`.
ghost use Rattle.talc_core.specs.FirstFault.{AnAssembly};
ghost use Rattle.talc_core.specs.Upgraded.{IsUpgraded};
ghost use Rattle.talc_core.specs.OnTexts.{MakesText};
ghost use Rattle.talc_core.specs.Steps.{MakesFile};

use crate::assembly::check_assembly;
use crate::outside::{read_input, write_output};
use crate::refusal::Refusal;
use crate::reply::Ending;
use crate::report::Failure;
use io_core::Files;
use std::alloc::Global;
use t_text::keeps_by_nesting;
use t_writer::write2;

/// The accepted program of an assembly text as a text in the newest version of the language (own choice). Refuses a
/// text by its first fault, or for want of memory.
pub fn upgrade_text(alloc: Global, text: &[u8]) -> Result<Vec<u8>, Refusal>
    ensures { MakesText IsUpgraded AnAssembly text.now result }
{
    keeps_by_nesting();
    let checked = check_assembly(alloc, text)?;
    let upgraded = write2(alloc, checked.program())?;
    Ok(upgraded)
}

// Writes the program of the assembly text of one file to another in the newest version of the language. The input is
// read wholly before the output is written, and the output is written once.
pub(crate) fn upgrade_file<F: Files>(
    alloc: Global,
    files: &mut F,
    input: &str,
    output: &str,
) -> Result<Ending, Failure>
    ensures { MakesFile IsUpgraded AnAssembly input.now output.now (F.state files.old) (F.state files.new) result }
{
    let text = read_input(alloc, files, input)?;
    let upgraded = upgrade_text(alloc, &text)?;
    write_output(alloc, files, output, &upgraded)?;
    Ok(Ending::Ends)
}
