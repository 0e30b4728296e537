// The types of what hoisted declarations name.
ghost use Rattle.std.specs.Prelude.{◌≡◌, ◌≤◌, ◌++◌, ◌∷◌, ℕ, List, [], true, IfOk, OnOk, MatchOption};
ghost use Rattle.c_terms.specs.C.{TCRef};
ghost use Rattle.c_terms.specs.Read.{ctree};
ghost use Rattle.h_terms.specs.H.{HBlks, HVal};
ghost use Rattle.h_terms.specs.Nodes.{h_blocks, reads, values};
ghost use Rattle.h_terms.specs.declared.node.HPart.TheVariants.{Var};
ghost use Rattle.let_types.specs.Hoisted.{decl_of, decl_type, first_type, is_decl, names_behind, types_behind};
ghost use Rattle.let_types.specs.Names.{scope, shown, Under};
ghost use Rattle.let_types.specs.Parts.{field_type, held_type, opened_type};
ghost use Rattle.let_types.specs.declared.named.Named.{Named as TheNamed};

use crate::hoisted::{Labels, types_of_parts};
use crate::named::{Named, field_of_name, held_of_name, opened_of_name};
use c_terms::CType;
use h_terms::{HBlock, HForm, HNode, HPart};
use idx_core::{OutOfMemory, sum};
use std::alloc::Global;

// The variable that these parts are, if they are no more than that.
fn bare_variable(parts: &[HPart]) -> Option<u64>
    ensures { MatchOption result (Unit {0}) (λ i. parts.now ≡ Var i ∷ []) }
{
    if parts.len() != 1 {
        return None;
    }
    match &parts[0] {
        HPart::Var(i) => Some(*i),
        _ => None,
    }
}

// The name that these parts are, if they are no more than that.
fn bare_name<'a>(names: &'a [Named], parts: &[HPart]) -> Option<&'a Named>
    ensures { MatchOption result (Unit {0}) (λ e. (ks : HBlks) (k : ℕ) →
        shown k e.now ≡ first_type ks (scope k names.now) (reads [] parts.now)) }
{
    let i = bare_variable(parts)?;
    let count = names.len();
    if i < count as u64 {
        Some(&names[count - 1 - i as usize])
    } else {
        None
    }
}

// The type of the first of the values that these parts make.
fn first_of_parts(
    of: Labels,
    names: &[Named],
    types: u64,
    parts: &[HPart],
) -> Result<CType, OutOfMemory>
    ensures { IfOk result (λ t.
        ctree t ≡ first_type (h_blocks of.entry.blocks.now) (scope types names.now) (reads [] parts.now)) }
{
    let mut made = types_of_parts(of.alloc, of.blocks, names, types, parts)?;
    made.truncate(1);
    match made.pop() {
        Some(t) => Ok(t),
        None => Ok(CType::Int),
    }
}

// A name of its own for that value.
fn first_named(
    of: Labels,
    names: &[Named],
    types: u64,
    parts: &[HPart],
) -> Result<Named, OutOfMemory>
    ensures { IfOk result (λ e.
        shown types e ≡ first_type (h_blocks of.entry.blocks.now) (scope types names.now) (reads [] parts.now)) }
{
    let ty = first_of_parts(of, names, types, parts)?;
    Ok(Named { ty, types })
}

// The type of a field of the first value.
fn projected(
    of: Labels,
    names: &[Named],
    types: u64,
    parts: &[HPart],
    field: u64,
) -> Result<CType, OutOfMemory>
    ensures { IfOk result (λ t. ctree t ≡ field_type field
        (first_type (h_blocks of.entry.blocks.now) (scope types names.now) (reads [] parts.now))) }
{
    match bare_name(names, parts) {
        Some(name) => {
            let t = field_of_name(of.alloc, name, types, field)?;
            Ok(t)
        }
        None => {
            let own = first_named(of, names, types, parts)?;
            let t = field_of_name(of.alloc, &own, types, field)?;
            Ok(t)
        }
    }
}

// The type of what the first value, a package, holds, under its type name too.
fn opened(of: Labels, names: &[Named], types: u64, parts: &[HPart]) -> Result<CType, OutOfMemory>
    ensures { IfOk result (λ t. ctree t ≡ opened_type
        (first_type (h_blocks of.entry.blocks.now) (scope types names.now) (reads [] parts.now))) }
{
    match bare_name(names, parts) {
        Some(name) => {
            let t = opened_of_name(of.alloc, name, types)?;
            Ok(t)
        }
        None => {
            let own = first_named(of, names, types, parts)?;
            let t = opened_of_name(of.alloc, &own, types)?;
            Ok(t)
        }
    }
}

// The type of what the first value, a cell, holds.
fn held(of: Labels, names: &[Named], types: u64, parts: &[HPart]) -> Result<CType, OutOfMemory>
    ensures { IfOk result (λ t. ctree t ≡ held_type
        (first_type (h_blocks of.entry.blocks.now) (scope types names.now) (reads [] parts.now))) }
{
    match bare_name(names, parts) {
        Some(name) => {
            let t = held_of_name(of.alloc, name, types)?;
            Ok(t)
        }
        None => {
            let own = first_named(of, names, types, parts)?;
            let t = held_of_name(of.alloc, &own, types)?;
            Ok(t)
        }
    }
}

// The type of a cell that holds the first value.
fn cell_of(of: Labels, names: &[Named], types: u64, parts: &[HPart]) -> Result<CType, OutOfMemory>
    ensures { IfOk result (λ t. ctree t ≡ TCRef
        (first_type (h_blocks of.entry.blocks.now) (scope types names.now) (reads [] parts.now))) }
{
    let inner = first_of_parts(of, names, types, parts)?;
    Ok(CType::Ref(Box::new(of.alloc, inner)?))
}

// The type of what a declaration names.
fn declared_type(
    of: Labels,
    names: &[Named],
    types: u64,
    form: &HForm,
    parts: &[HPart],
) -> Result<CType, OutOfMemory>
    requires { is_decl form.now ≡ true }
    ensures { IfOk result (λ t. ctree t ≡ decl_type (h_blocks of.entry.blocks.now) (scope types names.now)
        (decl_of form.now (reads [] parts.now))) }
{
    match form {
        HForm::Name => first_of_parts(of, names, types, parts),
        HForm::Proj(field) => projected(of, names, types, parts, *field),
        HForm::Arith(_) => Ok(CType::Int),
        HForm::Unpack => opened(of, names, types, parts),
        HForm::Cell => cell_of(of, names, types, parts),
        HForm::Get => held(of, names, types, parts),
        HForm::Set => Ok(CType::Tuple(Vec::new(of.alloc))),
        _ => unreachable!(),
    }
}

/// The type names in scope behind a declaration. An error is a number past 64 bits, which it takes in no program.
pub fn types_after(form: &HForm, types: u64) -> Result<u64, OutOfMemory>
    ensures { IfOk result (λ r. (vs : List HVal) → r ≡ types_behind types (decl_of form.now vs)) }
{
    match form {
        HForm::Unpack => {
            let more = sum(types, 1)?;
            Ok(more)
        }
        _ => Ok(types),
    }
}

/// One more name, that of a declaration, with its type: the type names in scope then. An error is want of memory.
pub fn declare(
    alloc: Global,
    blocks: &[HBlock],
    names: &mut Vec<Named>,
    types: u64,
    node: &HNode,
) -> Result<u64, OutOfMemory>
    requires form { is_decl node.now.form ≡ true }
    requires under { Under types names.old.items }
    ensures types { IfOk result (λ r. r ≡ types_behind types (decl_of node.now.form (values node.now))) }
    ensures scope { OnOk result (scope (types_behind types (decl_of node.now.form (values node.now))) names.new.items
        ≡ names_behind (h_blocks blocks.now) (scope types names.old.items)
        (decl_of node.now.form (values node.now))) }
    ensures more { OnOk result ((e : TheNamed)
        × (e.types ≤ types_behind types (decl_of node.now.form (values node.now)))
        × (names.new.items ≡ names.old.items ++ e ∷ [])) }
{
    let of = Labels { alloc, blocks };
    let after = types_after(&node.form, types)?;
    let ty = declared_type(of, names, types, &node.form, &node.values)?;
    names.push(Named { ty, types: after })?;
    Ok(after)
}
