// Blocks, data, and the whole program.
ghost use Rattle.std.specs.Prelude.{◌≡◌, ◌↔◌, ◌≤◌, IsTrue, IfOk};
ghost use Rattle.t_types.specs.Read.{file};
ghost use Rattle.t_types.specs.Tree.{NoRegs, CodeTy};
ghost use Rattle.t_types.specs.WellFormed.{max_names, WellFormedFile};
ghost use Rattle.t_terms.specs.Read.{block as block_tree, datum, data_fields, spanned, spanned_blocks, spanned_heap};
ghost use Rattle.t_terms.specs.ReadProgram.{program as program_of, spanned_program};
ghost use Rattle.t_intern.specs.Grown.{Grown, IsNumber};
ghost use Rattle.t_known.specs.Known.{IsEmpty, IsOfBlock};
ghost use Rattle.t_check.specs.Verdict.{program_in, FormedBlock, FormedDatum, FormedData, KnowsByNumber, IsBlock};
ghost use Rattle.t_check.specs.Verdict.{AreBlocks};
ghost use Rattle.t_check.specs.Verdict.{IsDatum, IsData, AreTuples, IsLabelled, IsProgram};

use crate::checker::{Checker, Labelled};
use idx_core::{OutOfMemory, Span};
use std::alloc::Global;
use t_intern::Types;
use t_known::{Labels, Odds, Refusal, Registers, at_odds, code_parts, refused};
use t_terms::{Block, Data, TCode, TProgram, Value};
use t_types::TType;

// The first block takes nothing, and then each data tuple and each block. The table is the caller's, who may ask what
// is at odds.
pub(crate) fn check_program(
    alloc: Global,
    types: &mut Types,
    program: &TProgram,
) -> Result<(), Refusal>
    ensures { IsProgram (spanned_program program.now) types.new result }
{
    let first = &program.blocks[0];
    if !takes_nothing(first) {
        return refused(TCode::T20, first.name);
    }
    let labels = Labels::of_program(alloc, types, program)?;
    let of = Labelled {
        alloc,
        program,
        labels: &labels,
    };
    check_heap(&of, types, &program.heap)?;
    check_blocks(&of, types, &program.blocks)
}

fn takes_nothing(block: &Block) -> bool
    ensures { IsTrue result ↔ ((block_tree block.now).owes ≡ 0) × ((block_tree block.now).file ≡ NoRegs) }
{
    block.owes == 0 && block.regs.regs.is_empty()
}

// The data in order, each tuple under no type names and no registers.
fn check_heap(of: &Labelled, types: &mut Types, heap: &[Data]) -> Result<(), Refusal>
    requires heap { heap.now ≡ of.now.program.now.heap.items }
    requires labels { IsLabelled types.old of.now }
    ensures grown { Grown types.old types.new }
    ensures heap { AreTuples (program_of of.now.program.now) types.new (spanned_heap heap.now) result }
{
    let checker = Checker {
        alloc: of.alloc,
        program: of.program,
        labels: of.labels,
        registers: Registers::none(of.alloc, 0),
    };
    for tuple in heap {
        checker.check_data(types, &tuple.fields)?;
    }
    Ok(())
}

// The blocks in order.
fn check_blocks(of: &Labelled, types: &mut Types, blocks: &[Block]) -> Result<(), Refusal>
    requires blocks { blocks.now ≡ of.now.program.now.blocks.items }
    requires labels { IsLabelled types.old of.now }
    ensures { AreBlocks (program_of of.now.program.now) types.new (spanned_blocks blocks.now) result }
{
    for i in 0..blocks.len() {
        check_block(of, types, &blocks[i], of.labels.blocks[i])?;
    }
    Ok(())
}

// A block under its own file: its instructions in order, and its end. Its code type has the number `code`.
fn check_block(of: &Labelled, types: &mut Types, block: &Block, code: u64) -> Result<(), Refusal>
    requires formed { FormedBlock of.now.program.now (block_tree block.now) }
    requires labels { IsLabelled types.old of.now }
    requires code { IsNumber types.old (CodeTy block.now.owes (file block.now.regs.regs.items)) code }
    ensures grown { Grown types.old types.new }
    ensures block { IsBlock (program_of of.now.program.now) types.new (spanned block.now) result }
{
    let registers = header(of.alloc, types, block, code)?;
    let mut checker = Checker {
        alloc: of.alloc,
        program: of.program,
        labels: of.labels,
        registers,
    };
    for step in &block.body {
        checker.check_instr(types, &step.0, step.1)?;
    }
    checker.check_end(types, &block.end, block.end_span)
}

// What a block's header says of the registers.
pub(crate) fn header(
    alloc: Global,
    types: &Types,
    block: &Block,
    code: u64,
) -> Result<Registers, OutOfMemory>
    requires few { block.now.owes ≤ max_names }
    requires file { WellFormedFile block.now.owes (file block.now.regs.regs.items) }
    requires code { IsNumber types.now (CodeTy block.now.owes (file block.now.regs.regs.items)) code }
    ensures { IfOk result (IsOfBlock types.now block.now.owes (file block.now.regs.regs.items)) }
{
    match code_parts(types, code)? {
        Some(parts) => Registers::of_block(alloc, block.owes, &parts.regs),
        None => unreachable!(),
    }
}

impl Checker<'_> {
    // The words of a data tuple in order, where nothing is known of the registers.
    fn check_data(&self, types: &mut Types, fields: &[(Value, TType, Span)]) -> Result<(), Refusal>
        requires place { KnowsByNumber types.old self.now }
        requires empty { IsEmpty self.now.registers }
        requires names { self.now.registers.names ≡ 0 }
        requires formed { FormedData self.now.program.now (data_fields fields.now) }
        ensures grown { Grown types.old types.new }
        ensures words { IsData (program_in self.now) types.new (data_fields fields.now) result }
    {
        for field in fields {
            self.check_datum(types, field)?;
        }
        Ok(())
    }

    // A word of data.
    fn check_datum(&self, types: &mut Types, field: &(Value, TType, Span)) -> Result<(), Refusal>
        requires place { KnowsByNumber types.old self.now }
        requires empty { IsEmpty self.now.registers }
        requires names { self.now.registers.names ≡ 0 }
        requires formed { FormedDatum self.now.program.now (datum field.now) }
        ensures grown { Grown types.old types.new }
        ensures word { IsDatum (program_in self.now) types.new (datum field.now) result }
    {
        let found = self.type_of_value(types, &field.0, field.2)?;
        let wanted = types.number(&field.1)?;
        if types.fits_once(found, wanted) {
            return Ok(());
        }
        let names = 0;
        let odds = Odds::Types {
            wanted,
            found,
            names,
        };
        at_odds(TCode::T13, field.2, odds)
    }
}
