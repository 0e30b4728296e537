// The types of hoisted values, part by part.
ghost use Rattle.std.specs.Prelude.{◌≡◌, ◌∷◌, ◌++◌, [], List, IfOk, OnOk};
ghost use Rattle.c_terms.specs.C.{CTy};
ghost use Rattle.c_terms.specs.Read.{ctree, ctys};
ghost use Rattle.h_terms.specs.H.{HApply, HBlks, HPack, HVal, block_at};
ghost use Rattle.h_terms.specs.Nodes.{at_last, h_blocks, more, reads, tupled};
ghost use Rattle.calc_core.specs.Read.{tree};
ghost use Rattle.let_types.specs.Hoisted.{code_type, value_type, AreOf};
ghost use Rattle.let_types.specs.Names.{scope};

use crate::named::{Named, variable};
use crate::walks::apply_type;
use c_terms::CType;
use calc_core::{copy, copy_all};
use h_terms::{HBlock, HPart};
use idx_core::OutOfMemory;
use std::alloc::Global;

// The blocks of a program, whose labels have types.
#[derive(Clone, Copy)]
pub(crate) struct Labels<'a> {
    pub(crate) alloc: Global,
    pub(crate) blocks: &'a [HBlock],
}

// The type of the code at a label.
fn code_at(alloc: Global, blocks: &[HBlock], label: u64) -> Result<CType, OutOfMemory>
    ensures { IfOk result (λ t. ctree t ≡ code_type (block_at (h_blocks blocks.now) label)) }
{
    if label < blocks.len() as u64 {
        let block = &blocks[label as usize];
        let args = copy_all(alloc, &block.args)?;
        Ok(CType::Code {
            owes: block.owes,
            args,
        })
    } else {
        Ok(CType::Int)
    }
}

// One more value.
fn put(stack: &mut Vec<CType>, t: CType) -> Result<(), OutOfMemory>
    ensures { OnOk result ((ks : HBlks) (g : List CTy) (vs : List HVal) (v : HVal) →
        ctree t ≡ value_type ks g v → AreOf ks g stack.old.items vs →
        AreOf ks g stack.new.items (vs ++ v ∷ [])) }
{
    stack.push(t)?;
    Ok(())
}

// The last so many values become a tuple.
fn tuple(alloc: Global, stack: &mut Vec<CType>, count: u64) -> Result<(), OutOfMemory>
    ensures { OnOk result ((ks : HBlks) (g : List CTy) (vs : List HVal) → AreOf ks g stack.old.items vs →
        AreOf ks g stack.new.items (tupled count vs)) }
{
    let from = stack.len().saturating_sub(count as usize);
    let fields = copy_all(alloc, &stack[from..])?;
    stack.truncate(from);
    stack.push(CType::Tuple(fields))?;
    Ok(())
}

// The last value is applied to types.
fn apply(alloc: Global, stack: &mut Vec<CType>, types: &[CType]) -> Result<(), OutOfMemory>
    ensures { OnOk result ((ks : HBlks) (g : List CTy) (vs : List HVal) → AreOf ks g stack.old.items vs →
        AreOf ks g stack.new.items (at_last (λ v. HApply v (ctys types.now)) vs)) }
{
    match stack.pop() {
        None => Ok(()),
        Some(code) => {
            let made = apply_type(alloc, &code, types)?;
            stack.push(made)?;
            Ok(())
        }
    }
}

// The last value becomes a package.
fn pack(
    alloc: Global,
    stack: &mut Vec<CType>,
    hidden: &CType,
    shape: &CType,
) -> Result<(), OutOfMemory>
    ensures { OnOk result ((ks : HBlks) (g : List CTy) (vs : List HVal) → AreOf ks g stack.old.items vs →
        AreOf ks g stack.new.items (at_last (λ v. HPack (ctree hidden.now) v (ctree shape.now)) vs)) }
{
    match stack.pop() {
        None => Ok(()),
        Some(inner) => {
            let _ = inner;
            let made = copy(alloc, shape)?;
            stack.push(made)?;
            Ok(())
        }
    }
}

// One more part of a value.
fn put_part(
    of: Labels,
    names: &[Named],
    types: u64,
    stack: &mut Vec<CType>,
    part: &HPart,
) -> Result<(), OutOfMemory>
    ensures { OnOk result ((vs : List HVal) →
        AreOf (h_blocks of.entry.blocks.now) (scope types names.now) stack.old.items vs →
        AreOf (h_blocks of.entry.blocks.now) (scope types names.now) stack.new.items (more part.now vs)) }
{
    match part {
        HPart::Var(i) => {
            let t = variable(of.alloc, names, types, *i)?;
            put(stack, t)?;
            Ok(())
        }
        HPart::Int(_) => {
            put(stack, CType::Int)?;
            Ok(())
        }
        HPart::Label(label) => {
            let t = code_at(of.alloc, of.blocks, *label)?;
            put(stack, t)?;
            Ok(())
        }
        HPart::Tuple(count) => {
            tuple(of.alloc, stack, *count)?;
            Ok(())
        }
        HPart::Apply(ts) => {
            apply(of.alloc, stack, ts)?;
            Ok(())
        }
        HPart::Pack { hidden, shape } => {
            pack(of.alloc, stack, hidden, shape)?;
            Ok(())
        }
    }
}

/// The types of the values that these parts make, the last one last. An error is want of memory.
pub fn types_of_parts(
    alloc: Global,
    blocks: &[HBlock],
    names: &[Named],
    types: u64,
    parts: &[HPart],
) -> Result<Vec<CType>, OutOfMemory>
    ensures { IfOk result (λ r. AreOf (h_blocks blocks.now) (scope types names.now) r.items (reads [] parts.now)) }
{
    let of = Labels { alloc, blocks };
    let mut stack = Vec::new(alloc);
    for part in parts {
        put_part(of, names, types, &mut stack, part)?;
    }
    Ok(stack)
}
