// Types.
ghost use Rattle.std.specs.Prelude.{◌≡◌, ◌∷◌, ◌++◌, ◌+◌, ◌≤◌, codes, decimal, OnOk};
ghost use Rattle.t_types.specs.Read.{tree, file, types};
ghost use Rattle.t_types.specs.Read.{fields as fields_of};
ghost use Rattle.t_types.specs.WellFormed.{WellFormed, WellFormedFile, WellFormedFields, WellFormedTypes};
ghost use Rattle.t_writer.specs.Lexeme.{bytes, render};
ghost use Rattle.t_writer.specs.Written.{flag_written, type_written, file_written, fields_written, list_written};

use crate::names::{write_binds, write_name, write_separator};
use idx_core::OutOfMemory;
use t_types::TType;

// `some`, the name that it binds, and a dot.
fn write_some(text: &mut Vec<u8>, depth: u64) -> Result<(), OutOfMemory>
    ensures { OnOk result (text.new.items ≡ text.old.items ++ (codes "some T" ++ decimal depth ++ codes ". ")) }
{
    text.extend_from_slice(b"some ")?;
    write_name(text, b'T', depth)?;
    text.extend_from_slice(b". ")?;
    Ok(())
}

fn write_flag(text: &mut Vec<u8>, flag: bool) -> Result<(), OutOfMemory>
    ensures { OnOk result (text.new.items ≡ text.old.items ++ (94 ∷ bytes (flag_written flag))) }
{
    if flag {
        text.extend_from_slice(b"^1")?;
    } else {
        text.extend_from_slice(b"^0")?;
    }
    Ok(())
}

// A type inside `depth` type names.
#[cycle(types)]
pub(crate) fn write_type(text: &mut Vec<u8>, t: &TType, depth: u64) -> Result<(), OutOfMemory>
    requires { WellFormed depth (tree t.now) }
    ensures { OnOk result (text.new.items ≡ text.old.items ++ render (type_written depth (tree t.now))) }
{
    match t {
        TType::Int => {
            text.extend_from_slice(b"int")?;
            Ok(())
        }
        TType::Var(i) => write_name(text, b'T', depth - 1 - *i),
        TType::Code { owes, regs } => {
            text.extend_from_slice(b"all")?;
            write_binds(text, depth, *owes)?;
            write_file(text, &regs.regs, depth + *owes)?;
            Ok(())
        }
        TType::Exists(body) => {
            write_some(text, depth)?;
            write_type(text, body, depth + 1)
        }
        TType::Tuple(fields) => {
            text.push(b'<')?;
            write_fields(text, fields, depth)?;
            text.push(b'>')?;
            Ok(())
        }
    }
}

// A register file, in braces.
#[cycle(types)]
pub(crate) fn write_file(
    text: &mut Vec<u8>,
    regs: &[(u64, TType)],
    depth: u64,
) -> Result<(), OutOfMemory>
    requires { WellFormedFile depth (file regs.now) }
    ensures { OnOk result (text.new.items ≡ text.old.items ++ render (file_written depth (file regs.now))) }
{
    text.push(b'{')?;
    for (i, reg) in regs.iter().enumerate() {
        write_separator(text, i)?;
        write_name(text, b'r', reg.0)?;
        text.push(b':')?;
        write_type(text, &reg.1, depth)?;
    }
    text.push(b'}')?;
    Ok(())
}

// The fields of a tuple.
#[cycle(types)]
fn write_fields(text: &mut Vec<u8>, fields: &[(TType, bool)], depth: u64) -> Result<(), OutOfMemory>
    requires { WellFormedFields depth (fields_of fields.now) }
    ensures { OnOk result (text.new.items ≡ text.old.items ++ render (fields_written 0 depth (fields_of fields.now))) }
{
    for (i, field) in fields.iter().enumerate() {
        write_separator(text, i)?;
        write_type(text, &field.0, depth)?;
        write_flag(text, field.1)?;
    }
    Ok(())
}

// A list of types, in brackets.
pub(crate) fn write_list(text: &mut Vec<u8>, list: &[TType], depth: u64) -> Result<(), OutOfMemory>
    requires { WellFormedTypes depth (types list.now) }
    ensures { OnOk result (text.new.items ≡ text.old.items ++ render (list_written depth (types list.now))) }
{
    text.push(b'[')?;
    for (i, t) in list.iter().enumerate() {
        write_separator(text, i)?;
        write_type(text, t, depth)?;
    }
    text.push(b']')?;
    Ok(())
}
