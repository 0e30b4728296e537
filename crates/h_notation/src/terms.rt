// Terms, a line for each node.
ghost use Rattle.std.specs.Prelude.{◌≡◌, ◌+◌, ◌<◌, ◌≤◌, ◌∷◌, ◌++◌, [], IfOk, List, OnOk, length};
ghost use Rattle.std.specs.Prelude.{reverse, true, false};
ghost use Rattle.c_terms.specs.C.{CTy};
ghost use Rattle.h_terms.specs.Nodes.{h_blocks, h_build, h_kids, h_tree, values, HArity, HRow};
ghost use Rattle.h_terms.specs.H.{HTm};
ghost use Rattle.let_types.specs.Hoisted.{decl_of, is_decl, names_behind, types_behind};
ghost use Rattle.let_types.specs.Names.{scope, Under};
ghost use Rattle.let_types.specs.declared.named.Named.{Named as TheNamed};
ghost use Rattle.h_notation.specs.Notation.{note_text, term_text};
ghost use Rattle.h_notation.specs.Scopes.{behind, below, branch, h_let, node_text, opening, terms_text};
ghost use Rattle.h_notation.specs.Scopes.{Fit, Ready, Stepped};

use crate::lines::write_form;
use crate::parts::texts_of_parts;
use crate::scope::{Scope, Source, Walk};
use c_terms::CType;
use h_terms::{HForm, HNode};
use idx_core::{OutOfMemory, sum};
use let_types::{Named, declare, show, types_after, write_type};
use page_core::write_margin;
use std::alloc::Global;

// The line before the second branch of an `if0`.
fn write_opening(text: &mut Vec<u8>, scope: &Scope) -> Result<(), OutOfMemory>
    ensures { OnOk result (text.new.items ≡ text.old.items ++ opening scope.now) }
{
    if scope.second {
        write_margin(text, scope.level.saturating_sub(1))?;
        text.extend_from_slice(b"else\n")?;
    }
    Ok(())
}

// What stands behind the last name, where so many type names are in scope.
fn noted(alloc: Global, names: &[Named], types: u64) -> Result<Vec<u8>, OutOfMemory>
    requires { 0 < length names.now }
    ensures { IfOk result (λ note. (t : CTy) (g : List CTy) → scope types names.now ≡ t ∷ g →
        note.items ≡ note_text true types t) }
{
    let count = names.len();
    let t = show(alloc, &names[count - 1], types)?;
    let mut note = Vec::new(alloc);
    note.extend_from_slice(b": ")?;
    write_type(&mut note, &t, types)?;
    Ok(note)
}

// The same, if types are shown.
fn note_of_last(of: Source, names: &[Named], types: u64) -> Result<Vec<u8>, OutOfMemory>
    requires { 0 < length names.now }
    ensures { IfOk result (λ note. (t : CTy) (g : List CTy) → scope types names.now ≡ t ∷ g →
        note.items ≡ note_text of.entry.typed types t) }
{
    if of.typed {
        let note = noted(of.alloc, names, types)?;
        return Ok(note);
    }
    Ok(Vec::new(of.alloc))
}

// All that is written at a node, with a text behind the name that it gives.
fn write_node(
    alloc: Global,
    text: &mut Vec<u8>,
    node: &HNode,
    scope: &Scope,
    note: &[u8],
) -> Result<(), OutOfMemory>
    requires { HArity node.now.form (values node.now) }
    ensures { OnOk result (text.new.items ≡
        text.old.items ++ node_text scope.now note.now node.now.form (values node.now)) }
{
    write_opening(text, scope)?;
    write_margin(text, scope.level)?;
    let texts = texts_of_parts(alloc, &node.values, scope)?;
    write_form(text, &node.form, &texts, scope, note)?;
    text.extend_from_slice(b"\n")?;
    Ok(())
}

// The scope behind a declaration, with so many type names.
fn scope_behind(scope: &Scope, types: u64) -> Result<Scope, OutOfMemory>
    ensures { IfOk result (λ s. s ≡ behind types scope.now) }
{
    let names = sum(scope.names, 1)?;
    Ok(Scope {
        types,
        names,
        level: scope.level,
        second: false,
    })
}

// The scope of a branch.
fn scope_of_branch(scope: &Scope, second: bool) -> Result<Scope, OutOfMemory>
    ensures { IfOk result (λ s. s ≡ branch second scope.now) }
{
    let level = sum(scope.level, 1)?;
    Ok(Scope {
        types: scope.types,
        names: scope.names,
        level,
        second,
    })
}

// The scopes of both branches come next.
fn push_branches(scopes: &mut Vec<Scope>, scope: &Scope) -> Result<(), OutOfMemory>
    ensures { OnOk result (reverse scopes.new.items ≡
        branch false scope.now ∷ (branch true scope.now ∷ reverse scopes.old.items)) }
{
    let other = scope_of_branch(scope, true)?;
    let zero_part = scope_of_branch(scope, false)?;
    scopes.push(other)?;
    scopes.push(zero_part)?;
    Ok(())
}

// The scopes of the terms below a node that declares nothing come next, the first on top.
fn push_scopes(scopes: &mut Vec<Scope>, form: &HForm, scope: &Scope) -> Result<(), OutOfMemory>
    ensures { OnOk result (reverse scopes.new.items ≡ below form.now scope.now ++ reverse scopes.old.items) }
{
    match form {
        HForm::If0 => push_branches(scopes, scope),
        _ => Ok(()),
    }
}

// One more name, with its type if types are shown: the type names in scope then.
fn one_name(
    of: Source,
    names: &mut Vec<Named>,
    types: u64,
    node: &HNode,
) -> Result<u64, OutOfMemory>
    requires form { is_decl node.now.form ≡ true }
    requires under { Under types names.old.items }
    ensures types { IfOk result (λ r. r ≡ types_behind types (decl_of node.now.form (values node.now))) }
    ensures scope { OnOk result (of.entry.typed ≡ true →
        scope (types_behind types (decl_of node.now.form (values node.now))) names.new.items
        ≡ names_behind (h_blocks of.entry.blocks.now) (scope types names.old.items)
        (decl_of node.now.form (values node.now))) }
    ensures more { OnOk result ((e : TheNamed)
        × (e.types ≤ types_behind types (decl_of node.now.form (values node.now)))
        × (names.new.items ≡ names.old.items ++ e ∷ [])) }
{
    if of.typed {
        let after = declare(of.alloc, of.blocks, names, types, node)?;
        return Ok(after);
    }
    let after = types_after(&node.form, types)?;
    names.push(Named {
        ty: CType::Int,
        types: 0,
    })?;
    Ok(after)
}

// A declaration.
fn step_let(
    of: Source,
    text: &mut Vec<u8>,
    walk: &mut Walk,
    scope: Scope,
    node: &HNode,
) -> Result<(), OutOfMemory>
    requires form { is_decl node.now.form ≡ true }
    requires arity { HArity node.now.form (values node.now) }
    requires ready { Ready walk.old.names.items scope walk.old.scopes.items }
    ensures { OnOk result (Stepped of.entry.typed (h_blocks of.entry.blocks.now) scope
        (h_let (decl_of node.now.form (values node.now))) 1 walk.old.names.items walk.new.names.items
        walk.old.scopes.items walk.new.scopes.items text.old.items text.new.items) }
{
    let types = one_name(of, &mut walk.names, scope.types, node)?;
    let note = note_of_last(of, &walk.names, types)?;
    write_node(of.alloc, text, node, &scope, &note)?;
    let next = scope_behind(&scope, types)?;
    walk.scopes.push(next)?;
    Ok(())
}

// A node that declares nothing.
fn step_other(
    of: Source,
    text: &mut Vec<u8>,
    walk: &mut Walk,
    scope: Scope,
    node: &HNode,
) -> Result<(), OutOfMemory>
    requires form { is_decl node.now.form ≡ false }
    requires arity { HArity node.now.form (values node.now) }
    requires ready { Ready walk.old.names.items scope walk.old.scopes.items }
    ensures { OnOk result (Stepped of.entry.typed (h_blocks of.entry.blocks.now) scope
        (h_build node.now.form (values node.now)) (h_kids node.now.form)
        walk.old.names.items walk.new.names.items walk.old.scopes.items walk.new.scopes.items
        text.old.items text.new.items) }
{
    write_node(of.alloc, text, node, &scope, b"")?;
    push_scopes(&mut walk.scopes, &node.form, &scope)?;
    Ok(())
}

// Whether a node is a declaration.
fn declares(form: &HForm) -> bool
    ensures { result ≡ is_decl form.now }
{
    match form {
        HForm::Call(_) | HForm::If0 | HForm::Halt => false,
        HForm::Name | HForm::Proj(_) | HForm::Arith(_) | HForm::Unpack => true,
        HForm::Cell | HForm::Get | HForm::Set => true,
    }
}

// A node in its scope.
fn step_at(
    of: Source,
    text: &mut Vec<u8>,
    walk: &mut Walk,
    scope: Scope,
    node: &HNode,
) -> Result<(), OutOfMemory>
    requires arity { HArity node.now.form (values node.now) }
    requires ready { Ready walk.old.names.items scope walk.old.scopes.items }
    ensures { OnOk result (Stepped of.entry.typed (h_blocks of.entry.blocks.now) scope
        (h_build node.now.form (values node.now)) (h_kids node.now.form)
        walk.old.names.items walk.new.names.items walk.old.scopes.items walk.new.scopes.items
        text.old.items text.new.items) }
{
    if declares(&node.form) {
        step_let(of, text, walk, scope, node)?;
        return Ok(());
    }
    step_other(of, text, walk, scope, node)?;
    Ok(())
}

// Writes a node, the first of the term whose scope is on top. The terms below it come next.
fn step(of: Source, text: &mut Vec<u8>, walk: &mut Walk, node: &HNode) -> Result<(), OutOfMemory>
    requires arity { HArity node.now.form (values node.now) }
    requires some { 0 < length walk.old.scopes.items }
    requires fit { Fit walk.old.names.items (length walk.old.names.items) (reverse walk.old.scopes.items) }
    ensures written { OnOk result ((ts : List HTm) → text.new.items
        ++ terms_text of.entry.typed (h_blocks of.entry.blocks.now) walk.new.names.items
        (reverse walk.new.scopes.items) ts
        ≡ text.old.items ++ terms_text of.entry.typed (h_blocks of.entry.blocks.now) walk.old.names.items
        (reverse walk.old.scopes.items) (h_build node.now.form (values node.now) ts)) }
    ensures fit { OnOk result (Fit walk.new.names.items (length walk.new.names.items)
        (reverse walk.new.scopes.items)) }
    ensures count { OnOk result (length walk.new.scopes.items + 1
        ≡ h_kids node.now.form + length walk.old.scopes.items) }
{
    match walk.scopes.pop() {
        Some(scope) => {
            walk.names.truncate(scope.names as usize);
            step_at(of, text, walk, scope, node)?;
            Ok(())
        }
        None => unreachable!(),
    }
}

/// A term inside so many type names and these names, at the first level. An error is want of memory.
pub(crate) fn write_term(
    of: Source,
    text: &mut Vec<u8>,
    nodes: &[HNode],
    types: u64,
    names: Vec<Named>,
) -> Result<(), OutOfMemory>
    requires row { HRow nodes.now 1 }
    requires under { Under types names.items }
    ensures { OnOk result (text.new.items ≡ text.old.items
        ++ term_text of.entry.typed (h_blocks of.entry.blocks.now) (scope types names.items) types
        (length names.items) 1 (h_tree nodes.now)) }
{
    let count = names.len() as u64;
    let mut walk = Walk {
        names,
        scopes: Vec::new(of.alloc),
    };
    walk.scopes.push(Scope {
        types,
        names: count,
        level: 1,
        second: false,
    })?;
    for node in nodes {
        step(of, text, &mut walk, node)?;
    }
    Ok(())
}
