// The line of a fault of an assembly text.
ghost use Rattle.std.specs.Prelude.{◌≡◌, ◌++◌, IfOk, OnOk, option_map, codes};
ghost use Rattle.t_types.specs.Read.{tree};
ghost use Rattle.t_trace.specs.Line.{text_at};
ghost use Rattle.t_known.specs.ReadMismatch.{mismatch_or_none};
ghost use Rattle.talc_faults.specs.Line.{line, assembly_line, known_text, register_text};

use idx_core::OutOfMemory;
use itoa::Buffer;
use std::alloc::Global;
use t_known::Mismatch;
use t_trace::type_at;
use t_types::TType;

// A type where so many type names are in scope, at the end of a line.
fn write_type(alloc: Global, line: &mut Vec<u8>, ty: &TType, names: u64) -> Result<(), OutOfMemory>
    ensures { OnOk result (line.new.items ≡ line.old.items ++ text_at names 0 (tree ty.now)) }
{
    let text = type_at(alloc, ty, names)?;
    line.extend_from_slice(&text)?;
    Ok(())
}

// A register and its type.
fn write_register(
    alloc: Global,
    line: &mut Vec<u8>,
    register: u64,
    ty: &TType,
    names: u64,
) -> Result<(), OutOfMemory>
    ensures { OnOk result (line.new.items ≡ line.old.items ++ register_text names register (tree ty.now)) }
{
    let mut digits = Buffer::new();
    line.extend_from_slice(b"r")?;
    line.extend_from_slice(digits.format(register).as_bytes())?;
    line.extend_from_slice(b":")?;
    write_type(alloc, line, ty, names)
}

// What was found of a register.
fn write_known(
    alloc: Global,
    line: &mut Vec<u8>,
    register: u64,
    found: &Option<TType>,
    names: u64,
) -> Result<(), OutOfMemory>
    ensures { OnOk result (line.new.items
        ≡ line.old.items ++ known_text names register (option_map tree found.now)) }
{
    match found {
        Some(ty) => write_register(alloc, line, register, ty, names),
        None => {
            line.extend_from_slice(b"nothing")?;
            Ok(())
        }
    }
}

// A type that was wanted, and one that was found.
fn types_line(
    alloc: Global,
    wanted: &TType,
    found: &TType,
    names: u64,
) -> Result<Vec<u8>, OutOfMemory>
    ensures { IfOk result (λ made. made.items
        ≡ line (text_at names 0 (tree wanted.now)) (text_at names 0 (tree found.now))) }
{
    let mut line = Vec::from_slice(alloc, b"wanted ")?;
    write_type(alloc, &mut line, wanted, names)?;
    line.extend_from_slice(b", found ")?;
    write_type(alloc, &mut line, found, names)?;
    Ok(line)
}

// A package type was wanted.
fn package_line(alloc: Global, found: &TType, names: u64) -> Result<Vec<u8>, OutOfMemory>
    ensures { IfOk result (λ made. made.items ≡ line (codes "some a. T") (text_at names 0 (tree found.now))) }
{
    let mut line = Vec::from_slice(alloc, b"wanted some a. T, found ")?;
    write_type(alloc, &mut line, found, names)?;
    Ok(line)
}

// A register was wanted with a type.
fn register_line(
    alloc: Global,
    register: u64,
    wanted: &TType,
    found: &Option<TType>,
    names: u64,
) -> Result<Vec<u8>, OutOfMemory>
    ensures { IfOk result (λ made. made.items ≡ line (register_text names register (tree wanted.now))
        (known_text names register (option_map tree found.now))) }
{
    let mut line = Vec::from_slice(alloc, b"wanted ")?;
    write_register(alloc, &mut line, register, wanted, names)?;
    line.extend_from_slice(b", found ")?;
    write_known(alloc, &mut line, register, found, names)?;
    Ok(line)
}

// The line on the types that are at odds in a fault of an assembly text, without its end; nothing where no types are.
pub(crate) fn assembly_line(
    alloc: Global,
    mismatch: &Option<Mismatch>,
) -> Result<Vec<u8>, OutOfMemory>
    ensures { IfOk result (λ made. made.items ≡ assembly_line (mismatch_or_none mismatch.now)) }
{
    match mismatch {
        None => Ok(Vec::new(alloc)),
        Some(
            Mismatch::Types {
                wanted,
                found,
                names,
            },
        ) => types_line(alloc, wanted, found, *names),
        Some(Mismatch::NoPackage { found, names }) => package_line(alloc, found, *names),
        Some(
            Mismatch::Register {
                register,
                wanted,
                found,
                names,
            },
        ) => register_line(alloc, *register, wanted, found, *names),
    }
}
