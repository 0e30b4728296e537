// Shift, put and below of values, instructions, ends and blocks.
ghost use Rattle.t_types.specs.Read.{tree};
ghost use Rattle.t_types.specs.Tree.{Ty, VarTy, over, each};
ghost use Rattle.t_types.specs.TreeLaws.{types_part};
ghost use Rattle.t_terms.specs.Read.{value, instr, end_of, spanned};
ghost use Rattle.t_terms.specs.Spanned.{SBlock, over_spanned, each_spanned};
ghost use Rattle.t_terms.specs.SpannedLaws.{spanned_over, spanned_is_below};
ghost use Rattle.t_terms.specs.Tree.{TValue, TInstr, TEnd, over_value, over_instr, over_end, each_value, each_instr};
ghost use Rattle.t_terms.specs.Tree.{each_end};
ghost use Rattle.t_terms.specs.TreeLaws.{value_over, instr_over, end_over, value_is_below, instr_is_below};
ghost use Rattle.t_terms.specs.TreeLaws.{end_is_below};

use crate::block::Block;
use crate::bodies::{block_below, put_block, shift_block};
use crate::instr::{End, Instr};
use crate::value::Value;
use crate::walks::{
    end_below, instr_below, put_end, put_instr, put_value, shift_end, shift_instr, shift_value,
    value_below,
};
use idx_core::{OutOfMemory, Scoped};
use std::alloc::Global;
use t_types::TType;

impl Scoped for Value {
    type Part = TType;

    ghost Tree = { TValue };

    ghost PartTree = { Ty };

    ghost tree = { value };

    ghost part_tree = { tree };

    ghost var = { VarTy };

    ghost over_part = { over };

    ghost over = { over_value };

    ghost each_part = { each };

    ghost each = { each_value };

    fn shift(&self, alloc: Global, by: u64, cut: u64) -> Result<Value, OutOfMemory> {
        shift_value(alloc, self, by, cut)
    }

    fn put(&self, alloc: Global, at: u64, what: &TType) -> Result<Value, OutOfMemory> {
        put_value(alloc, self, at, at, what)
    }

    fn below(&self, n: u64) -> bool {
        value_below(self, Some(n))
    }

    ghost is_part = { types_part };

    ghost is_over = { value_over };

    ghost below_is = { value_is_below };
}

impl Scoped for Instr {
    type Part = TType;

    ghost Tree = { TInstr };

    ghost PartTree = { Ty };

    ghost tree = { instr };

    ghost part_tree = { tree };

    ghost var = { VarTy };

    ghost over_part = { over };

    ghost over = { over_instr };

    ghost each_part = { each };

    ghost each = { each_instr };

    fn shift(&self, alloc: Global, by: u64, cut: u64) -> Result<Instr, OutOfMemory> {
        shift_instr(alloc, self, by, cut)
    }

    fn put(&self, alloc: Global, at: u64, what: &TType) -> Result<Instr, OutOfMemory> {
        put_instr(alloc, self, at, at, what)
    }

    fn below(&self, n: u64) -> bool {
        instr_below(self, Some(n))
    }

    ghost is_part = { types_part };

    ghost is_over = { instr_over };

    ghost below_is = { instr_is_below };
}

impl Scoped for End {
    type Part = TType;

    ghost Tree = { TEnd };

    ghost PartTree = { Ty };

    ghost tree = { end_of };

    ghost part_tree = { tree };

    ghost var = { VarTy };

    ghost over_part = { over };

    ghost over = { over_end };

    ghost each_part = { each };

    ghost each = { each_end };

    fn shift(&self, alloc: Global, by: u64, cut: u64) -> Result<End, OutOfMemory> {
        shift_end(alloc, self, by, cut)
    }

    fn put(&self, alloc: Global, at: u64, what: &TType) -> Result<End, OutOfMemory> {
        put_end(alloc, self, at, at, what)
    }

    fn below(&self, n: u64) -> bool {
        end_below(self, Some(n))
    }

    ghost is_part = { types_part };

    ghost is_over = { end_over };

    ghost below_is = { end_is_below };
}

impl Scoped for Block {
    type Part = TType;

    ghost Tree = { SBlock };

    ghost PartTree = { Ty };

    ghost tree = { spanned };

    ghost part_tree = { tree };

    ghost var = { VarTy };

    ghost over_part = { over };

    ghost over = { over_spanned };

    ghost each_part = { each };

    ghost each = { each_spanned };

    fn shift(&self, alloc: Global, by: u64, cut: u64) -> Result<Block, OutOfMemory> {
        shift_block(alloc, self, by, cut)
    }

    fn put(&self, alloc: Global, at: u64, what: &TType) -> Result<Block, OutOfMemory> {
        put_block(alloc, self, at, what)
    }

    fn below(&self, n: u64) -> bool {
        block_below(self, n)
    }

    ghost is_part = { types_part };

    ghost is_over = { spanned_over };

    ghost below_is = { spanned_is_below };
}
