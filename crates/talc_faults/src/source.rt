// The line of a fault of a source text.
ghost use Rattle.std.specs.Prelude.{◌≡◌, ◌++◌, IfOk, OnOk};
ghost use Rattle.f_terms.specs.Read.{tree};
ghost use Rattle.f_terms.specs.Text.{text_at};
ghost use Rattle.f_check.specs.Told.{wish, read};
ghost use Rattle.f_terms.specs.Mismatch.{WOutside};
ghost use Rattle.talc_faults.specs.Line.{line, wanted_text, source_line, not_int_line};

use f_check::{Mismatch, Wanted};
use f_terms::FType;
use f_writer::type_at;
use idx_core::OutOfMemory;
use std::alloc::Global;

// A type inside so many type names, at the end of a line.
fn write_type(alloc: Global, line: &mut Vec<u8>, ty: &FType, names: u64) -> Result<(), OutOfMemory>
    ensures { OnOk result (line.new.items ≡ line.old.items ++ text_at names (tree ty.now)) }
{
    let text = type_at(alloc, ty, names)?;
    line.extend_from_slice(&text)?;
    Ok(())
}

// Some words at the end of a line.
pub(crate) fn write_words(line: &mut Vec<u8>, words: &[u8]) -> Result<(), OutOfMemory>
    ensures { OnOk result (line.new.items ≡ line.old.items ++ words.now) }
{
    line.extend_from_slice(words)?;
    Ok(())
}

// A type that lacks the last of so many type names.
fn write_outside(alloc: Global, line: &mut Vec<u8>, names: u64) -> Result<(), OutOfMemory>
    ensures { OnOk result (line.new.items ≡ line.old.items ++ wanted_text names WOutside) }
{
    write_words(line, b"a type without ")?;
    write_type(alloc, line, &FType::Var(0), names)
}

// What a type had to be.
fn write_wanted(
    alloc: Global,
    line: &mut Vec<u8>,
    wanted: &Wanted,
    names: u64,
) -> Result<(), OutOfMemory>
    ensures { OnOk result (line.new.items ≡ line.old.items ++ wanted_text names (wish wanted.now)) }
{
    match wanted {
        Wanted::Exactly(ty) => write_type(alloc, line, ty, names),
        Wanted::Function => write_words(line, b"T1 -> T2"),
        Wanted::Polymorphic => write_words(line, b"all a. T"),
        Wanted::Tuple => write_words(line, b"<T1, .., Tn>"),
        Wanted::Field => write_words(line, b"a tuple with this field"),
        Wanted::Package => write_words(line, b"some a. T"),
        Wanted::Reference => write_words(line, b"ref T"),
        Wanted::Outside => write_outside(alloc, line, names),
    }
}

// The line on the types that are at odds in a fault of a source text, without its end; nothing where no types are.
pub(crate) fn source_line(
    alloc: Global,
    mismatch: &Option<Mismatch>,
) -> Result<Vec<u8>, OutOfMemory>
    ensures { IfOk result (λ made. made.items ≡ source_line (read mismatch.now)) }
{
    let mut line = Vec::new(alloc);
    if let Some(mismatch) = mismatch {
        write_words(&mut line, b"wanted ")?;
        write_wanted(alloc, &mut line, &mismatch.wanted, mismatch.names)?;
        write_words(&mut line, b", found ")?;
        write_type(alloc, &mut line, &mismatch.found, mismatch.names)?;
    }
    Ok(line)
}

/// The line of a whole that is no program, since it has this type and not `int` (own choice), without its end. An error
/// is want of memory.
pub fn not_int_line(alloc: Global, found: &FType) -> Result<Vec<u8>, OutOfMemory>
    ensures { IfOk result (λ made. made.items ≡ not_int_line (tree found.now)) }
{
    let mut line = Vec::new(alloc);
    write_words(&mut line, b"wanted int, found ")?;
    write_type(alloc, &mut line, found, 0)?;
    Ok(line)
}
