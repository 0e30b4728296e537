// From an assembly text to its program, accepted.
ghost use Rattle.talc_core.specs.Steps.{ChecksAssembly};

use crate::refusal::Refusal;
use std::alloc::Global;
use t_check::{Checked, check_salted};
use t_reader::{read_salted, salt_of};

// The program of the text, accepted.
pub(crate) fn check_assembly(alloc: Global, text: &[u8]) -> Result<Checked, Refusal>
    ensures { ChecksAssembly text.now result }
{
    let salt = salt_of(text);
    let program = read_salted(alloc, text, salt)?;
    let checked = check_salted(alloc, program, salt)?;
    Ok(checked)
}
