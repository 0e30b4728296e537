// What stands for a variable and a label, and the types of values.
ghost use Rattle.std.specs.Prelude.{◌≡◌, ◌≤◌, ℕ, List, IfOk, MatchOption, Some, None, map, slice_get};
ghost use Rattle.h_terms.specs.H.{block_at};
ghost use Rattle.h_terms.specs.Nodes.{h_block, h_blocks};
ghost use Rattle.a_terms.specs.Tree as a;
ghost use Rattle.a_terms.specs.Read.{atree, atrees, afields};
ghost use Rattle.a_terms.specs.NodeTrees as tree;
ghost use Rattle.a_terms.specs.NodeTrees.{a_value};
ghost use Rattle.a_terms.specs.Typing.{aset, or_int};
ghost use Rattle.a_terms.specs.Tree.{ashift};
ghost use Rattle.a_laws.specs.Allocate.{Known, var_of, h_code, level_of, named};
ghost use Rattle.a_pass.specs.Scope.{value_at, base_at, constant_in, knowns, known_name, scope, type_in, type_of};
ghost use Rattle.a_pass.specs.Scope.{all_of, kept, typed, Under};

use crate::state::{ConstantOf, Kept, Leaf, Name, Seen, TypeOf};
use crate::types::{a_type, a_type_under, a_types};
use a_terms::walks::{copy, shift_type};
use a_terms::{ABase, AType, AValue};
use h_terms::HBlock;
use idx_core::OutOfMemory;
use std::alloc::Global;

pub(crate) fn plain(alloc: Global, base: ABase) -> AValue
    ensures value { (d : ℕ) → value_at d result ≡ base_at d base }
    ensures whole { a_value result ≡ tree.base base }
{
    AValue {
        base,
        wraps: Vec::new(alloc),
    }
}

// Name i, 0 the innermost.
pub(crate) fn name_at<'b, 'a>(names: &'b [Name<'a>], i: u64) -> Option<&'b Name<'a>>
    ensures known { MatchOption result (slice_get (knowns names.now) i ≡ None)
        (λ n. slice_get (knowns names.now) i ≡ Some (known_name n.now)) }
    ensures ty { MatchOption result ((b : ℕ) → slice_get (scope b names.now) i ≡ None)
        (λ n. (b : ℕ) → slice_get (scope b names.now) i ≡ Some (typed b n.now)) }
    ensures under { MatchOption result (Unit {0}) (λ n. (b : ℕ) → Under b names.now → n.now.under ≤ b) }
{
    let count = names.len();
    if i < count as u64 {
        Some(&names[count - 1 - i as usize])
    } else {
        None
    }
}

// The variable that stands for name i; a number where there is no such name.
fn variable(alloc: Global, names: &[Name], i: u64) -> AValue
    ensures { (d : ℕ) → value_at d result ≡ var_of d (level_of (slice_get (knowns names.now) i)) }
{
    match name_at(names, i) {
        Some(name) => plain(alloc, ABase::Var(name.level)),
        None => plain(alloc, ABase::Int(0)),
    }
}

// Name i as a value.
pub(crate) fn variable_leaf<'a>(alloc: Global, names: &[Name], i: u64) -> Leaf<'a>
    ensures value { (d : ℕ) → value_at d result.value ≡ var_of d (level_of (slice_get (knowns names.now) i)) }
    ensures ty { (g : List a.ATy) → type_in g result.seen ≡ or_int (slice_get g i) }
    ensures constant { (ls : List Known) → constant_in ls result.seen ≡ named (slice_get ls i) }
{
    let value = variable(alloc, names, i);
    let seen = Seen {
        ty: TypeOf::Name(i),
        constant: ConstantOf::Name(i),
    };
    Leaf { value, seen }
}

// An integer as a value.
pub(crate) fn int_leaf<'a>(alloc: Global, n: i64) -> Leaf<'a>
    ensures value { (d : ℕ) → value_at d result.value ≡ a.Num n }
    ensures ty { (g : List a.ATy) → type_in g result.seen ≡ a.AInt }
    ensures constant { (ls : List Known) → constant_in ls result.seen ≡ Some (a.Num n) }
{
    let value = plain(alloc, ABase::Int(n));
    let seen = Seen {
        ty: TypeOf::Own(AType::Int),
        constant: ConstantOf::Own(plain(alloc, ABase::Int(n))),
    };
    Leaf { value, seen }
}

pub(crate) fn label<'a>(alloc: Global, blocks: &'a [HBlock], l: u64) -> Leaf<'a>
    ensures value { (d : ℕ) → value_at d result.value ≡ a.Lab l }
    ensures ty { (g : List a.ATy) → type_in g result.seen ≡ h_code (block_at (h_blocks blocks.now) l) }
    ensures constant { (ls : List Known) → constant_in ls result.seen ≡ Some (a.Lab l) }
{
    let value = plain(alloc, ABase::Label(l));
    let ty = type_at(blocks, l);
    let constant = ConstantOf::Own(plain(alloc, ABase::Label(l)));
    let seen = Seen { ty, constant };
    Leaf { value, seen }
}

// The type of the code at a label.
fn type_at<'a>(blocks: &'a [HBlock], l: u64) -> TypeOf<'a>
    ensures { (g : List a.ATy) → type_of g result ≡ h_code (block_at (h_blocks blocks.now) l) }
{
    if l < blocks.len() as u64 {
        TypeOf::Code(&blocks[l as usize])
    } else {
        TypeOf::Own(AType::Int)
    }
}

// The type of a block's code.
fn code_type(alloc: Global, block: &HBlock) -> Result<AType, OutOfMemory>
    ensures { IfOk result (λ r. atree r ≡ h_code (Some (h_block block.now))) }
{
    let args = a_types(alloc, &block.args)?;
    Ok(AType::Code {
        owes: block.owes,
        args,
    })
}

// The type of a name, under `by` more names.
fn shown_kept(alloc: Global, ty: &Kept, by: u64) -> Result<AType, OutOfMemory>
    ensures { IfOk result (λ r. atree r ≡ ashift by 0 (kept ty.now)) }
{
    match ty {
        Kept::Made(t) => {
            let made = shift_type(alloc, t, by, 0)?;
            Ok(made)
        }
        Kept::Lent(t) => {
            let made = a_type_under(alloc, t, by, 0)?;
            Ok(made)
        }
    }
}

// The type of name i.
fn shown(alloc: Global, names: &[Name], binders: u64, i: u64) -> Result<AType, OutOfMemory>
    ensures { IfOk result (λ r. atree r ≡ or_int (slice_get (scope binders names.now) i)) }
{
    match name_at(names, i) {
        Some(name) => {
            let by = binders.saturating_sub(name.under);
            let made = shown_kept(alloc, &name.ty, by)?;
            Ok(made)
        }
        None => Ok(AType::Int),
    }
}

// The type itself.
#[cycle(owning)]
pub(crate) fn own(
    alloc: Global,
    names: &[Name],
    binders: u64,
    ty: &TypeOf,
) -> Result<AType, OutOfMemory>
    ensures { IfOk result (λ r. atree r ≡ type_of (scope binders names.now) ty.now) }
{
    match ty {
        TypeOf::Own(t) => {
            let made = copy(alloc, t)?;
            Ok(made)
        }
        TypeOf::Name(i) => {
            let made = shown(alloc, names, binders, *i)?;
            Ok(made)
        }
        TypeOf::Lent(t) => {
            let made = a_type(alloc, t)?;
            Ok(made)
        }
        TypeOf::Code(block) => {
            let made = code_type(alloc, block)?;
            Ok(made)
        }
        TypeOf::Tuple(kinds) => {
            let fields = own_fields(alloc, names, binders, kinds)?;
            Ok(AType::Tuple(fields))
        }
    }
}

// The fields of a tuple of these types, all initialised.
#[cycle(owning)]
fn own_fields(
    alloc: Global,
    names: &[Name],
    binders: u64,
    kinds: &[TypeOf],
) -> Result<Vec<(AType, bool)>, OutOfMemory>
    ensures { IfOk result (λ r. afields r.items ≡ aset (all_of (scope binders names.now) kinds.now)) }
{
    let mut made = Vec::with_capacity(alloc, kinds.len())?;
    for kind in kinds {
        let one = own(alloc, names, binders, kind)?;
        made.push((one, true))?;
    }
    Ok(made)
}

// Types themselves.
pub(crate) fn own_all(
    alloc: Global,
    names: &[Name],
    binders: u64,
    kinds: &[TypeOf],
) -> Result<Vec<AType>, OutOfMemory>
    ensures { IfOk result (λ r. atrees r.items ≡ all_of (scope binders names.now) kinds.now) }
{
    let mut made = Vec::with_capacity(alloc, kinds.len())?;
    for kind in kinds {
        let one = own(alloc, names, binders, kind)?;
        made.push(one)?;
    }
    Ok(made)
}

fn kind_of(seen: Seen) -> TypeOf
    ensures { (g : List a.ATy) → type_of g result ≡ type_in g seen.entry }
{
    let Seen { ty, .. } = seen;
    ty
}

// The types of what is known.
pub(crate) fn kinds_of<'a>(
    alloc: Global,
    types: Vec<Seen<'a>>,
) -> Result<Vec<TypeOf<'a>>, OutOfMemory>
    ensures { IfOk result (λ r. (g : List a.ATy) → map (type_of g) r.items ≡ map (type_in g) types.entry.items) }
{
    let mut made = Vec::with_capacity(alloc, types.len())?;
    for ty in types {
        made.push(kind_of(ty))?;
    }
    Ok(made)
}
