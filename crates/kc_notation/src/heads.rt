// The first lines of codes.
ghost use Rattle.std.specs.Prelude.{◌≡◌, ◌++◌, codes, OnOk, IfOk};
ghost use Rattle.calc_core.specs.Read.{all_trees};
ghost use Rattle.page_core.specs.Names.{type_names, value_name};
ghost use Rattle.kc_notation.specs.Heads.{arguments_text};

use calc_core::CoreType;
use idx_core::{OutOfMemory, sum};
use let_types::write_any;
use page_core::{write_separator, write_type_names, write_value_name};
use std::alloc::Global;

// Arguments with commas between them. The first has `first` value names around it.
pub(crate) fn write_arguments(
    text: &mut Vec<u8>,
    ts: &[CoreType],
    depth: u64,
    first: u64,
    closures: bool,
) -> Result<(), OutOfMemory>
    ensures { OnOk result (text.new.items ≡
        text.old.items ++ arguments_text closures depth first 0 (all_trees ts.now)) }
{
    for (i, t) in ts.iter().enumerate() {
        let around = sum(first, i as u64)?;
        write_separator(text, i as u64)?;
        write_value_name(text, around)?;
        text.extend_from_slice(b": ")?;
        write_any(text, t, depth, closures)?;
    }
    Ok(())
}

// What the first line of a code begins with, inside so many type names and value names.
pub(crate) fn begin_code(
    alloc: Global,
    types: u64,
    names: u64,
    owes: u64,
) -> Result<Vec<u8>, OutOfMemory>
    ensures { IfOk result (λ text. text.items ≡
        codes "code " ++ value_name names ++ type_names types owes ++ codes "(") }
{
    let mut text = Vec::new(alloc);
    text.extend_from_slice(b"code ")?;
    write_value_name(&mut text, names)?;
    write_type_names(&mut text, types, owes)?;
    text.extend_from_slice(b"(")?;
    Ok(text)
}
