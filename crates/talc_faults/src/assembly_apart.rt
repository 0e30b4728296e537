// The line on the first place at which a type that is found in an assembly text does not fit the one that was wanted.
ghost use Rattle.std.specs.Prelude.{◌≡◌, ◌≤◌, ◌++◌, Some, codes, length, IfOk, OnOk};
ghost use Rattle.t_types.specs.Read.{tree};
ghost use Rattle.t_trace.specs.Line.{text_at, flag_text};
ghost use Rattle.t_known.specs.ReadMismatch.{mismatch as mismatch_tree, mismatch_or_none};
ghost use Rattle.type_path.specs.Paths.{path_of};
ghost use Rattle.talc_faults.specs.Line.{assembly_line};
ghost use Rattle.talc_faults.specs.Apart.{assembly_part_at, assembly_below};
ghost use Rattle.talc_faults.specs.Apart.{mismatch_below, assembly_lines};

use crate::assembly::assembly_line;
use crate::steps::write_path;
use idx_core::OutOfMemory;
use std::alloc::Global;
use t_known::Mismatch;
use t_trace::write_type;
use t_types::TType;
use type_path::{Part, Step, assembly_bound, assembly_misfit, assembly_part};

// A flag of a field.
fn write_flag(text: &mut Vec<u8>, flag: bool) -> Result<(), OutOfMemory>
    ensures { OnOk result (text.new.items ≡ text.old.items ++ flag_text flag) }
{
    if flag {
        text.extend_from_slice(b"^1")?;
    } else {
        text.extend_from_slice(b"^0")?;
    }
    Ok(())
}

// What a type has at a path, or that it has nothing there. The whole type stands in the text already, with each name
// that is bound around the part: they are no more than the text has bytes.
fn write_part(text: &mut Vec<u8>, ty: &TType, path: &[Step], names: u64) -> Result<(), OutOfMemory>
    requires { length (text_at names 0 (tree ty.now)) ≤ length text.old.items }
    ensures { OnOk result (text.new.items
        ≡ text.old.items ++ assembly_part_at names (tree ty.now) (path_of path.now)) }
{
    let depth = assembly_bound(ty, path)?;
    match assembly_part(ty, path) {
        Some(Part::Ty(part)) => write_type(text, part, names, depth),
        Some(Part::Flag(flag)) => write_flag(text, flag),
        None => {
            text.extend_from_slice(b"nothing")?;
            Ok(())
        }
    }
}

// What was wanted at a path.
fn write_wanted_part(
    text: &mut Vec<u8>,
    ty: &TType,
    path: &[Step],
    names: u64,
) -> Result<(), OutOfMemory>
    requires { length (text_at names 0 (tree ty.now)) ≤ length text.old.items }
    ensures { OnOk result (text.new.items ≡ text.old.items
        ++ (codes ": " ++ (codes "wanted " ++ assembly_part_at names (tree ty.now) (path_of path.now)))) }
{
    text.extend_from_slice(b": ")?;
    text.extend_from_slice(b"wanted ")?;
    write_part(text, ty, path, names)
}

// The line below that of two types, or nothing.
fn write_below(
    alloc: Global,
    lines: &mut Vec<u8>,
    wanted: &TType,
    found: &TType,
    names: u64,
) -> Result<(), OutOfMemory>
    requires wanted { length (text_at names 0 (tree wanted.now)) ≤ length lines.old.items }
    requires found { length (text_at names 0 (tree found.now)) ≤ length lines.old.items }
    ensures { OnOk result (lines.new.items
        ≡ lines.old.items ++ assembly_below names (tree wanted.now) (tree found.now)) }
{
    match assembly_misfit(alloc, wanted, found)? {
        Some(path) => {
            if path.is_empty() {
                return Ok(());
            }
            write_path(alloc, lines, &path)?;
            write_wanted_part(lines, wanted, &path, names)?;
            lines.extend_from_slice(b", found ")?;
            write_part(lines, found, &path, names)
        }
        None => Ok(()),
    }
}

// The line below that of what is at odds, or nothing.
fn write_mismatch_below(
    alloc: Global,
    lines: &mut Vec<u8>,
    mismatch: &Mismatch,
) -> Result<(), OutOfMemory>
    requires { lines.old.items ≡ assembly_line (Some (mismatch_tree mismatch.now)) }
    ensures { OnOk result (lines.new.items
        ≡ lines.old.items ++ mismatch_below (mismatch_tree mismatch.now)) }
{
    match mismatch {
        Mismatch::Types {
            wanted,
            found,
            names,
        } => write_below(alloc, lines, wanted, found, *names),
        Mismatch::Register {
            wanted,
            found: Some(found),
            names,
            ..
        } => write_below(alloc, lines, wanted, found, *names),
        Mismatch::Register { found: None, .. } => Ok(()),
        Mismatch::NoPackage { .. } => Ok(()),
    }
}

/// The lines on the types that are at odds in a fault of an assembly text (own choice), without the last one's end:
/// which these are, and where the one that is found first does not fit; nothing where no types are. An error is want of
/// memory.
pub fn assembly_lines(alloc: Global, mismatch: &Option<Mismatch>) -> Result<Vec<u8>, OutOfMemory>
    ensures { IfOk result (λ made. made.items ≡ assembly_lines (mismatch_or_none mismatch.now)) }
{
    let mut lines = assembly_line(alloc, mismatch)?;
    match mismatch {
        Some(mismatch) => {
            write_mismatch_below(alloc, &mut lines, mismatch)?;
            Ok(lines)
        }
        None => Ok(lines),
    }
}
