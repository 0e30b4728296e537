// The header of a third part.
ghost use Rattle.std.specs.Prelude.{◌≡◌, ◌+◌, ◌<◌, ◌^◌, ◌++◌, ◌∷◌, [], ℕ, Bool, suc, length, slice_get, IfOk, OnOk};
ghost use Rattle.t_types.specs.Read.{tree, file as file_tree, types as type_trees};
ghost use Rattle.t_terms.specs.Tree.{TSeq, Then, Bnz, Plain, Label};
ghost use Rattle.t_terms.specs.Read.{blocks_of};
ghost use Rattle.t_emit.specs.Code.{Grows, Listed, chosen, with_type, test_by, third_block};
ghost use Rattle.t_gen_rules.specs.Gen.{ty, place, insert, tvars};
ghost use Rattle.a_terms.specs.NodeTrees.{a_value};
ghost use Rattle.a_scope.specs.Scope.{shown, scope, homes};

use crate::blocks::reserve;
use crate::code::put;
use crate::emitter::Emitter;
use crate::types::written;
use crate::values::emit_settled;
use a_scope::{Entry, show};
use a_terms::AValue;
use idx_core::{OutOfMemory, Span};
use std::alloc::Global;
use std::collections::BTreeMap;
use t_terms::{Base, Block, Instr, Value};
use t_types::TType;

/// The type names in scope, as arguments. An error is want of memory.
pub fn names_in_scope(alloc: Global, names: u64) -> Result<Vec<TType>, OutOfMemory>
    ensures { IfOk result (λ r. type_trees r.items ≡ tvars names) }
{
    let mut types = Vec::new(alloc);
    let mut left = names;
    while left > 0 {
        left -= 1;
        types.push(TType::Var(left))?;
    }
    Ok(types)
}

// The map's entries, in order.
fn entries(alloc: Global, map: BTreeMap<u64, TType>) -> Result<Vec<(u64, TType)>, OutOfMemory>
    ensures { IfOk result (λ r. r.items ≡ map.entries) }
{
    let mut left = map;
    let mut regs = Vec::new(alloc);
    while let Some(entry) = left.pop_first() {
        regs.push(entry)?;
    }
    Ok(regs)
}

// A register's type is put into the map.
fn put_type(map: &mut BTreeMap<u64, TType>, r: u64, t: TType) -> Result<(), OutOfMemory>
    ensures { OnOk result (file_tree map.new.entries ≡ insert r (tree t) (file_tree map.old.entries)) }
{
    map.insert(r, t)?;
    Ok(())
}

// A variable's register and type are put into the map.
fn put_entry(
    alloc: Global,
    map: &mut BTreeMap<u64, TType>,
    entry: &Entry,
    names: u64,
) -> Result<(), OutOfMemory>
    ensures { OnOk result (file_tree map.new.entries
        ≡ insert entry.now.register (ty (shown names entry.now)) (file_tree map.old.entries)) }
{
    let shown = show(alloc, entry, names)?;
    let ty = written(alloc, &shown)?;
    put_type(map, entry.register, ty)?;
    Ok(())
}

// The register and type of variable n, if it is in scope, are put into the map.
fn put_variable(
    alloc: Global,
    map: &mut BTreeMap<u64, TType>,
    vars: &[Entry],
    names: u64,
    n: u64,
) -> Result<(), OutOfMemory>
    ensures { OnOk result (file_tree map.new.entries
        ≡ with_type (place (homes vars.now) n) (slice_get (scope names vars.now) n) (file_tree map.old.entries)) }
{
    let count = vars.len();
    if n < count as u64 {
        put_entry(alloc, map, &vars[count - 1 - n as usize], names)?;
        return Ok(());
    }
    Ok(())
}

/// The registers of these variables, in ascending order, with their types. An error is want of memory.
pub fn header(
    alloc: Global,
    vars: &[Entry],
    names: u64,
    third: &[u64],
) -> Result<Vec<(u64, TType)>, OutOfMemory>
    ensures { IfOk result (λ r. file_tree r.items ≡ chosen third.now (homes vars.now) (scope names vars.now)) }
{
    let mut map = BTreeMap::new(alloc);
    let mut left = third.len();
    while left > 0 {
        left -= 1;
        put_variable(alloc, &mut map, vars, names, third[left])?;
    }
    let regs = entries(alloc, map)?;
    Ok(regs)
}

/// The third part of an `if0`: how many type names are in scope, and which variables it uses, in ascending order.
#[derive(Clone, Copy, Drop)]
pub struct Third<'t> {
    pub names: u64,
    pub used: &'t [u64],
}

/// The instructions of an `if0` up to its second part; the block of its third part is reserved at the end. An error is
/// want of memory.
pub fn emit_if0(
    emitter: &Emitter,
    out: &mut Vec<Block>,
    code: &mut Vec<(Instr, Span)>,
    third: &Third,
    v: &AValue,
) -> Result<(), OutOfMemory>
    ensures code { OnOk result (Grows code.old.items code.new.items
        (test_by emitter.now third.now (a_value v.now) (length out.old.items))) }
    ensures out { OnOk result ((u : ℕ → Bool) → Listed u 0 third.now.used.now
        → blocks_of out.new.items ≡ blocks_of out.old.items ++ third_block emitter.now third.now u ∷ []) }
{
    let block = out.len() as u64;
    let r = emit_settled(emitter, code, v)?;
    let types = names_in_scope(emitter.alloc, third.names)?;
    let target = Value::Plain {
        base: Base::Label(block),
        types,
    };
    put(code, Instr::Bnz { r, v: target })?;
    let registers = header(emitter.alloc, emitter.vars, third.names, third.used)?;
    reserve(emitter.alloc, out, third.names, registers)?;
    Ok(())
}
