// The texts of types.
ghost use Rattle.std.specs.Prelude.{◌≡◌, ◌+◌, ◌++◌, ◌≤◌, codes, decimal, length, IfOk, OnOk};
ghost use Rattle.t_types.specs.Read.{tree, file};
ghost use Rattle.t_types.specs.Read.{fields as fields_of};
ghost use Rattle.idx_core.specs.Separator.{separator};
ghost use Rattle.t_trace.specs.Line.{variable_text, names_text, flag_text, text_at, regs_text, fields_text};

use idx_core::OutOfMemory;
use std::alloc::Global;
use t_types::TType;
use t_writer::write_natural;

// Nothing before the first item of a list, and a comma and a space before each other.
pub(crate) fn write_separator(text: &mut Vec<u8>, before: usize) -> Result<(), OutOfMemory>
    ensures { OnOk result (text.new.items ≡ text.old.items ++ separator before) }
{
    if before == 0 {
        return Ok(());
    }
    text.extend_from_slice(b", ")?;
    Ok(())
}

// A letter and a number.
fn write_name(text: &mut Vec<u8>, letter: &[u8], number: u64) -> Result<(), OutOfMemory>
    ensures { OnOk result (text.new.items ≡ text.old.items ++ (letter.now ++ decimal number)) }
{
    text.extend_from_slice(letter)?;
    write_natural(text, number)
}

// A variable, by its number from the outermost name on: of those in scope at the place, or of those that the type
// binds.
fn write_variable(text: &mut Vec<u8>, i: u64, vars: u64, depth: u64) -> Result<(), OutOfMemory>
    ensures { OnOk result (text.new.items ≡ text.old.items ++ variable_text vars depth i) }
{
    if i < depth {
        write_name(text, b"t", depth - 1 - i)
    } else {
        write_name(text, b"a", vars.saturating_sub(1).saturating_sub(i - depth))
    }
}

fn write_flag(text: &mut Vec<u8>, flag: bool) -> Result<(), OutOfMemory>
    ensures { OnOk result (text.new.items ≡ text.old.items ++ flag_text flag) }
{
    if flag {
        text.extend_from_slice(b"^1")?;
    } else {
        text.extend_from_slice(b"^0")?;
    }
    Ok(())
}

// The names that code binds where `depth` are bound around it. Each takes some bytes, so that they are no more than the
// text is long.
fn write_names(text: &mut Vec<u8>, depth: u64, count: u64) -> Result<(), OutOfMemory>
    requires { depth ≤ length text.old.items }
    ensures written { OnOk result (text.new.items ≡ text.old.items ++ names_text 0 depth count) }
    ensures room { OnOk result (depth + count ≤ length text.new.items) }
{
    for i in 0..count {
        // a length is a number of 64 bits, and so is one name more
        let _length = text.len();
        write_separator(text, i as usize)?;
        write_name(text, b"t", depth + i)?;
    }
    Ok(())
}

// `some`, the name that it binds, and a dot.
fn write_some(text: &mut Vec<u8>, depth: u64) -> Result<(), OutOfMemory>
    ensures { OnOk result (text.new.items ≡ text.old.items ++ (codes "some t" ++ (decimal depth ++ codes ". "))) }
{
    write_name(text, b"some t", depth)?;
    text.extend_from_slice(b". ")?;
    Ok(())
}

/// The text of a type as lines show it, where so many type names are in scope. An error is want of memory.
pub fn type_at(alloc: Global, t: &TType, names: u64) -> Result<Vec<u8>, OutOfMemory>
    ensures { IfOk result (λ text. text.items ≡ text_at names 0 (tree t.now)) }
{
    let mut text = Vec::new(alloc);
    write_type(&mut text, t, names, 0)?;
    Ok(text)
}

/// Puts the text of a part of a type (own choice) at the end of a text, under `vars` names of the place and `depth`
/// names that are bound around it in the whole. Each of the latter has taken some bytes of the text. An error is want
/// of memory.
#[cycle(types)]
pub fn write_type(text: &mut Vec<u8>, t: &TType, vars: u64, depth: u64) -> Result<(), OutOfMemory>
    requires room { depth ≤ length text.old.items }
    ensures { OnOk result (text.new.items ≡ text.old.items ++ text_at vars depth (tree t.now)) }
{
    match t {
        TType::Int => {
            text.extend_from_slice(b"int")?;
            Ok(())
        }
        TType::Var(i) => write_variable(text, *i, vars, depth),
        TType::Code { owes, regs } => {
            text.extend_from_slice(b"all[")?;
            write_names(text, depth, *owes)?;
            // a length is a number of 64 bits
            let _length = text.len();
            text.extend_from_slice(b"]{")?;
            write_regs(text, &regs.regs, vars, depth + *owes)?;
            text.extend_from_slice(b"}")?;
            Ok(())
        }
        TType::Exists(body) => {
            write_some(text, depth)?;
            // a length is a number of 64 bits, and so is one name more
            let _length = text.len();
            write_type(text, body, vars, depth + 1)
        }
        TType::Tuple(fields) => {
            text.extend_from_slice(b"<")?;
            write_fields(text, fields, vars, depth)?;
            text.extend_from_slice(b">")?;
            Ok(())
        }
    }
}

// The registers of a file.
#[cycle(types)]
fn write_regs(
    text: &mut Vec<u8>,
    regs: &[(u64, TType)],
    vars: u64,
    depth: u64,
) -> Result<(), OutOfMemory>
    requires room { depth ≤ length text.old.items }
    ensures { OnOk result (text.new.items ≡ text.old.items ++ regs_text vars depth 0 (file regs.now)) }
{
    for (i, reg) in regs.iter().enumerate() {
        write_separator(text, i)?;
        write_name(text, b"r", reg.0)?;
        text.extend_from_slice(b":")?;
        write_type(text, &reg.1, vars, depth)?;
    }
    Ok(())
}

// The fields of a tuple.
#[cycle(types)]
fn write_fields(
    text: &mut Vec<u8>,
    fields: &[(TType, bool)],
    vars: u64,
    depth: u64,
) -> Result<(), OutOfMemory>
    requires room { depth ≤ length text.old.items }
    ensures { OnOk result (text.new.items ≡ text.old.items ++ fields_text vars depth 0 (fields_of fields.now)) }
{
    for (i, field) in fields.iter().enumerate() {
        write_separator(text, i)?;
        write_type(text, &field.0, vars, depth)?;
        write_flag(text, field.1)?;
    }
    Ok(())
}
