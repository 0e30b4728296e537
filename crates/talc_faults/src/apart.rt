// The line on where two types of a source first differ.
ghost use Rattle.std.specs.Prelude.{◌≡◌, ◌++◌, codes, IfOk, OnOk};
ghost use Rattle.f_terms.specs.Read.{tree};
ghost use Rattle.f_check.specs.Told.{wish, read};
ghost use Rattle.type_path.specs.Paths.{path_of};
ghost use Rattle.type_path.specs.Source.{part};
ghost use Rattle.talc_faults.specs.Apart.{names_inside, names_at, part_text, source_below};
ghost use Rattle.talc_faults.specs.Apart.{wanted_below, source_lines};

use crate::source::source_line;
use crate::steps::write_path;
use f_check::{Mismatch, Wanted};
use f_terms::FType;
use f_writer::type_at;
use idx_core::{OutOfMemory, sum};
use std::alloc::Global;
use type_path::{Step, source_difference, source_part};

// How many type names are bound behind a step.
fn inside(names: u64, step: Step) -> Result<u64, OutOfMemory>
    ensures { IfOk result (λ n. n ≡ names_inside names step) }
{
    match step {
        Step::Body => sum(names, 1),
        _ => Ok(names),
    }
}

// How many type names are bound at the end of a path, where so many are around the whole.
fn names_at(names: u64, path: &[Step]) -> Result<u64, OutOfMemory>
    ensures { IfOk result (λ n. n ≡ names_at names (path_of path.now)) }
{
    let mut inner = names;
    let mut at = path.len();
    while at > 0 {
        at -= 1;
        inner = inside(inner, path[at])?;
    }
    Ok(inner)
}

// What a type has at a path, inside so many type names, or that it has nothing there.
fn write_part(
    alloc: Global,
    text: &mut Vec<u8>,
    ty: &FType,
    path: &[Step],
    names: u64,
) -> Result<(), OutOfMemory>
    ensures { OnOk result (text.new.items
        ≡ text.old.items ++ part_text names (part (path_of path.now) (tree ty.now))) }
{
    match source_part(ty, path) {
        Some(part) => {
            let words = type_at(alloc, part, names)?;
            text.extend_from_slice(&words)?;
            Ok(())
        }
        None => {
            text.extend_from_slice(b"nothing")?;
            Ok(())
        }
    }
}

// What was wanted at a path.
fn write_wanted_part(
    alloc: Global,
    text: &mut Vec<u8>,
    ty: &FType,
    path: &[Step],
    names: u64,
) -> Result<(), OutOfMemory>
    ensures { OnOk result (text.new.items ≡ text.old.items
        ++ (codes ": " ++ (codes "wanted " ++ part_text names (part (path_of path.now) (tree ty.now))))) }
{
    text.extend_from_slice(b": ")?;
    text.extend_from_slice(b"wanted ")?;
    write_part(alloc, text, ty, path, names)
}

// The line below that of two types, or nothing.
fn write_below(
    alloc: Global,
    lines: &mut Vec<u8>,
    wanted: &FType,
    found: &FType,
    names: u64,
) -> Result<(), OutOfMemory>
    ensures { OnOk result (lines.new.items
        ≡ lines.old.items ++ source_below names (tree wanted.now) (tree found.now)) }
{
    match source_difference(alloc, wanted, found)? {
        Some(path) => {
            if path.is_empty() {
                return Ok(());
            }
            let inner = names_at(names, &path)?;
            write_path(alloc, lines, &path)?;
            write_wanted_part(alloc, lines, wanted, &path, inner)?;
            lines.extend_from_slice(b", found ")?;
            write_part(alloc, lines, found, &path, inner)
        }
        None => Ok(()),
    }
}

// The line below that of what was wanted and a type that is found, or nothing.
fn write_wanted_below(
    alloc: Global,
    lines: &mut Vec<u8>,
    wanted: &Wanted,
    found: &FType,
    names: u64,
) -> Result<(), OutOfMemory>
    ensures { OnOk result (lines.new.items
        ≡ lines.old.items ++ wanted_below names (wish wanted.now) (tree found.now)) }
{
    match wanted {
        Wanted::Exactly(ty) => write_below(alloc, lines, ty, found, names),
        _ => Ok(()),
    }
}

/// The lines on the types that are at odds in a fault of a source text (own choice), without the last one's end: which
/// these are, and where they first differ; nothing where no types are. An error is want of memory.
pub fn source_lines(alloc: Global, mismatch: &Option<Mismatch>) -> Result<Vec<u8>, OutOfMemory>
    ensures { IfOk result (λ made. made.items ≡ source_lines (read mismatch.now)) }
{
    let mut lines = source_line(alloc, mismatch)?;
    match mismatch {
        Some(mismatch) => {
            write_wanted_below(
                alloc,
                &mut lines,
                &mismatch.wanted,
                &mismatch.found,
                mismatch.names,
            )?;
            Ok(lines)
        }
        None => Ok(lines),
    }
}
