// Programs.
ghost use Rattle.std.specs.Prelude.{◌≡◌, ◌++◌, [], IfOk, OnOk, length};
ghost use Rattle.a_scope.specs.Scope.{scope, Under};
ghost use Rattle.a_terms.specs.Arity.{ARow, ARows};
ghost use Rattle.a_terms.specs.NodeTrees.{a_block, a_blocks, a_consts, a_data};
ghost use Rattle.a_terms.specs.Program.{main_in, program_in};
ghost use Rattle.a_terms.specs.Read.{atrees};
ghost use Rattle.a_terms.specs.Tree.{arity};
ghost use Rattle.a_terms.specs.Typing.{types_of};
ghost use Rattle.a_notation.specs.Notation.{a_text, args_text, block_text, blocks_text, data_text, head_text};
ghost use Rattle.a_notation.specs.Notation.{tuple_text, tuples_text};

use crate::scope::Source;
use crate::terms::write_term;
use crate::types::write_type;
use crate::values::write_consts;
use a_scope::{Entry, noted_lent};
use a_terms::{ABlock, AData, AProgram, AType};
use idx_core::OutOfMemory;
use page_core::{write_natural, write_separator, write_type_names, write_value_name};
use std::alloc::Global;

// Arguments with their types, inside so many type names.
fn write_args(text: &mut Vec<u8>, args: &[AType], types: u64) -> Result<(), OutOfMemory>
    ensures { OnOk result (text.new.items ≡ text.old.items ++ args_text 0 types (atrees args.now)) }
{
    for (i, arg) in args.iter().enumerate() {
        write_separator(text, i as u64)?;
        write_value_name(text, i as u64)?;
        text.extend_from_slice(b": ")?;
        write_type(text, arg, types)?;
    }
    Ok(())
}

// What stands before the body of a block.
fn write_head(text: &mut Vec<u8>, label: u64, owes: u64, args: &[AType]) -> Result<(), OutOfMemory>
    ensures { OnOk result (text.new.items ≡ text.old.items ++ head_text label owes (atrees args.now)) }
{
    text.extend_from_slice(b"L")?;
    write_natural(text, label)?;
    text.extend_from_slice(b": code")?;
    write_type_names(text, 0, owes)?;
    text.extend_from_slice(b"(")?;
    write_args(text, args, owes)?;
    text.extend_from_slice(b").\n")?;
    Ok(())
}

// The variables of a block's arguments.
fn arguments<'a>(alloc: Global, owes: u64, args: &'a [AType]) -> Result<Vec<Entry<'a>>, OutOfMemory>
    ensures scope { IfOk result (λ r. scope owes r.items ≡ types_of (atrees args.now) []) }
    ensures under { IfOk result (λ r. Under owes r.items) }
    ensures long { IfOk result (λ r. length r.items ≡ arity (atrees args.now)) }
{
    let mut vars = Vec::new(alloc);
    for t in args {
        vars.push(noted_lent(t, owes))?;
    }
    Ok(vars)
}

// A block, and an empty line.
fn write_block<'a>(
    of: Source<'a>,
    text: &mut Vec<u8>,
    label: u64,
    block: &'a ABlock,
) -> Result<(), OutOfMemory>
    requires { ARow block.now.body.items 1 }
    ensures { OnOk result (text.new.items ≡ text.old.items
        ++ block_text of.entry.typed (program_in of.entry.program.now) label (a_block block.now)) }
{
    write_head(text, label, block.owes, &block.args)?;
    let vars = arguments(of.alloc, block.owes, &block.args)?;
    write_term(of, text, &block.body, block.owes, vars)?;
    text.extend_from_slice(b"\n")?;
    Ok(())
}

fn write_blocks<'a>(
    of: Source<'a>,
    text: &mut Vec<u8>,
    blocks: &'a [ABlock],
) -> Result<(), OutOfMemory>
    requires { ARows blocks.now }
    ensures { OnOk result (text.new.items ≡ text.old.items
        ++ blocks_text of.entry.typed (program_in of.entry.program.now) 0 (a_blocks blocks.now)) }
{
    for (label, block) in blocks.iter().enumerate() {
        write_block(of, text, label as u64, block)?;
    }
    Ok(())
}

fn write_tuple(text: &mut Vec<u8>, number: u64, tuple: &AData) -> Result<(), OutOfMemory>
    ensures { OnOk result (text.new.items ≡ text.old.items ++ tuple_text number (a_consts tuple.now.fields.items)) }
{
    text.extend_from_slice(b"D")?;
    write_natural(text, number)?;
    text.extend_from_slice(b": <")?;
    write_consts(text, &tuple.fields)?;
    text.extend_from_slice(b">\n")?;
    Ok(())
}

fn write_tuples(text: &mut Vec<u8>, tuples: &[AData]) -> Result<(), OutOfMemory>
    ensures { OnOk result (text.new.items ≡ text.old.items ++ tuples_text 0 (a_data tuples.now)) }
{
    for (number, tuple) in tuples.iter().enumerate() {
        write_tuple(text, number as u64, tuple)?;
    }
    Ok(())
}

// The data tuples, and an empty line where there are any.
fn write_data(text: &mut Vec<u8>, tuples: &[AData]) -> Result<(), OutOfMemory>
    ensures { OnOk result (text.new.items ≡ text.old.items ++ data_text (a_data tuples.now)) }
{
    if tuples.is_empty() {
        return Ok(());
    }
    write_tuples(text, tuples)?;
    text.extend_from_slice(b"\n")?;
    Ok(())
}

/// The text of an allocated program: its blocks, its data tuples and its main term, in the notation that `a_text`
/// defines (own choice), with the type of what each `let` binds if `typed`. One program has one text. An error is want
/// of memory.
pub fn write_allocated(
    alloc: Global,
    program: &AProgram,
    typed: bool,
) -> Result<Vec<u8>, OutOfMemory>
    ensures { IfOk result (λ text. text.items ≡ a_text typed (program_in program.now) (main_in program.now)) }
{
    let of = Source {
        alloc,
        program,
        typed,
    };
    let mut text = Vec::new(alloc);
    write_blocks(of, &mut text, program.blocks())?;
    write_data(&mut text, program.data())?;
    text.extend_from_slice(b"main:\n")?;
    write_term(of, &mut text, program.main(), 0, Vec::new(alloc))?;
    Ok(text)
}
