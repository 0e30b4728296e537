// Programs.
ghost use Rattle.std.specs.Prelude.{◌≡◌, ◌≤◌, ◌++◌, [], IfOk, OnOk, length, true};
ghost use Rattle.c_terms.specs.C.{ccount};
ghost use Rattle.c_terms.specs.Read.{ctree, ctys};
ghost use Rattle.c_terms.specs.Typing.{cargs_onto};
ghost use Rattle.h_terms.specs.Nodes.{h_block, h_blocks, HRow, HRows};
ghost use Rattle.h_terms.specs.Program.{blocks_in, main_in};
ghost use Rattle.let_types.specs.Names.{scope, shown, Under};
ghost use Rattle.h_notation.specs.Notation.{args_text, block_text, blocks_text, h_text, head_text};

use crate::scope::Source;
use crate::terms::write_term;
use c_terms::CType;
use calc_core::copy;
use h_terms::{HBlock, HProgram};
use idx_core::OutOfMemory;
use let_types::{Named, write_type};
use page_core::{write_natural, write_separator, write_type_names, write_value_name};
use std::alloc::Global;

// Arguments with their types, inside so many type names.
fn write_args(text: &mut Vec<u8>, args: &[CType], types: u64) -> Result<(), OutOfMemory>
    ensures { OnOk result (text.new.items ≡ text.old.items ++ args_text 0 types (ctys args.now)) }
{
    for (i, arg) in args.iter().enumerate() {
        write_separator(text, i as u64)?;
        write_value_name(text, i as u64)?;
        text.extend_from_slice(b": ")?;
        write_type(text, arg, types)?;
    }
    Ok(())
}

// What stands before the body of a block.
fn write_head(text: &mut Vec<u8>, label: u64, owes: u64, args: &[CType]) -> Result<(), OutOfMemory>
    ensures { OnOk result (text.new.items ≡ text.old.items ++ head_text label owes (ctys args.now)) }
{
    text.extend_from_slice(b"L")?;
    write_natural(text, label)?;
    text.extend_from_slice(b": code")?;
    write_type_names(text, 0, owes)?;
    text.extend_from_slice(b"(")?;
    write_args(text, args, owes)?;
    text.extend_from_slice(b").\n")?;
    Ok(())
}

// The name of an argument, with its type if types are shown.
fn argument(of: Source, owes: u64, t: &CType) -> Result<Named, OutOfMemory>
    ensures under { IfOk result (λ e. e.types ≤ owes) }
    ensures shown { IfOk result (λ e. of.entry.typed ≡ true → shown owes e ≡ ctree t.now) }
{
    if of.typed {
        let ty = copy(of.alloc, t)?;
        return Ok(Named { ty, types: owes });
    }
    Ok(Named {
        ty: CType::Int,
        types: 0,
    })
}

// The names of a block's arguments.
fn arguments(of: Source, owes: u64, args: &[CType]) -> Result<Vec<Named>, OutOfMemory>
    ensures scope { IfOk result (λ r. of.entry.typed ≡ true → scope owes r.items ≡ cargs_onto (ctys args.now) []) }
    ensures under { IfOk result (λ r. Under owes r.items) }
    ensures long { IfOk result (λ r. length r.items ≡ ccount (ctys args.now)) }
{
    let mut names = Vec::new(of.alloc);
    for t in args {
        let name = argument(of, owes, t)?;
        names.push(name)?;
    }
    Ok(names)
}

// A block, and an empty line.
fn write_block(
    of: Source,
    text: &mut Vec<u8>,
    label: u64,
    block: &HBlock,
) -> Result<(), OutOfMemory>
    requires { HRow block.now.body.items 1 }
    ensures { OnOk result (text.new.items ≡ text.old.items
        ++ block_text of.entry.typed (h_blocks of.entry.blocks.now) label (h_block block.now)) }
{
    write_head(text, label, block.owes, &block.args)?;
    let names = arguments(of, block.owes, &block.args)?;
    write_term(of, text, &block.body, block.owes, names)?;
    text.extend_from_slice(b"\n")?;
    Ok(())
}

fn write_blocks(of: Source, text: &mut Vec<u8>, blocks: &[HBlock]) -> Result<(), OutOfMemory>
    requires { HRows blocks.now }
    ensures { OnOk result (text.new.items ≡ text.old.items
        ++ blocks_text of.entry.typed (h_blocks of.entry.blocks.now) 0 (h_blocks blocks.now)) }
{
    for (label, block) in blocks.iter().enumerate() {
        write_block(of, text, label as u64, block)?;
    }
    Ok(())
}

/// The text of a hoisted program: its blocks and its main term, in the notation that `h_text` defines (own choice),
/// with the type of what each `let` binds if `typed`. One program has one text. An error is want of memory.
pub fn write_hoisted(alloc: Global, program: &HProgram, typed: bool) -> Result<Vec<u8>, OutOfMemory>
    ensures { IfOk result (λ text. text.items ≡ h_text typed (blocks_in program.now) (main_in program.now)) }
{
    let blocks = program.blocks();
    let of = Source {
        alloc,
        blocks,
        typed,
    };
    let mut text = Vec::new(alloc);
    write_blocks(of, &mut text, blocks)?;
    text.extend_from_slice(b"main:\n")?;
    write_term(of, &mut text, program.main(), 0, Vec::new(alloc))?;
    Ok(text)
}
