// Terms, a line for each node.
ghost use Rattle.std.specs.Prelude.{◌≡◌, ◌+◌, ◌<◌, ◌∷◌, ◌++◌, IfOk, List, OnOk, length};
ghost use Rattle.std.specs.Prelude.{reverse, true, false};
ghost use Rattle.a_scope.specs.Scope.{scope, Under};
ghost use Rattle.a_terms.specs.Arity.{AArity, ARow, a_kids};
ghost use Rattle.a_terms.specs.NodeTrees.{a_build, a_decl, a_let, a_tree, a_values, is_decl};
ghost use Rattle.a_terms.specs.Program.{program_in};
ghost use Rattle.a_terms.specs.Tree.{ATm, ATy};
ghost use Rattle.a_notation.specs.Notation.{note_text, term_text};
ghost use Rattle.a_notation.specs.Scopes.{behind, below, branch, node_text, opening, terms_text, Fit, Ready, Stepped};

use crate::lines::write_form;
use crate::scope::{Scope, Source, Walk};
use crate::types::write_type;
use a_scope::{Declaration, Entry, declare, show};
use a_terms::{AForm, ANode};
use idx_core::{OutOfMemory, sum};
use page_core::write_margin;
use std::alloc::Global;

// The line before the second branch of an `if0`.
fn write_opening(text: &mut Vec<u8>, scope: &Scope) -> Result<(), OutOfMemory>
    ensures { OnOk result (text.new.items ≡ text.old.items ++ opening scope.now) }
{
    if scope.second {
        write_margin(text, scope.level.saturating_sub(1))?;
        text.extend_from_slice(b"else\n")?;
    }
    Ok(())
}

// What stands behind the name of the last variable, where so many type names are in scope.
fn noted(alloc: Global, vars: &[Entry], types: u64) -> Result<Vec<u8>, OutOfMemory>
    requires { 0 < length vars.now }
    ensures { IfOk result (λ note. (t : ATy) (g : List ATy) → scope types vars.now ≡ t ∷ g →
        note.items ≡ note_text true types t) }
{
    let count = vars.len();
    let t = show(alloc, &vars[count - 1], types)?;
    let mut note = Vec::new(alloc);
    note.extend_from_slice(b": ")?;
    write_type(&mut note, &t, types)?;
    Ok(note)
}

// The same, if types are shown.
fn note_of_last(of: Source, vars: &[Entry], types: u64) -> Result<Vec<u8>, OutOfMemory>
    requires { 0 < length vars.now }
    ensures { IfOk result (λ note. (t : ATy) (g : List ATy) → scope types vars.now ≡ t ∷ g →
        note.items ≡ note_text of.entry.typed types t) }
{
    if of.typed {
        let note = noted(of.alloc, vars, types)?;
        return Ok(note);
    }
    Ok(Vec::new(of.alloc))
}

// All that is written at a node, with a text behind the name that it gives.
fn write_node(
    text: &mut Vec<u8>,
    node: &ANode,
    scope: &Scope,
    note: &[u8],
) -> Result<(), OutOfMemory>
    requires { AArity node.now.form (a_values node.now.values.items) }
    ensures { OnOk result (text.new.items ≡
        text.old.items ++ node_text scope.now note.now node.now.form (a_values node.now.values.items)) }
{
    write_opening(text, scope)?;
    write_margin(text, scope.level)?;
    write_form(text, &node.form, &node.values, scope, note)?;
    text.extend_from_slice(b"\n")?;
    Ok(())
}

// The scope behind a declaration, with so many type names.
fn scope_behind(scope: &Scope, types: u64) -> Result<Scope, OutOfMemory>
    ensures { IfOk result (λ s. s ≡ behind types scope.now) }
{
    let names = sum(scope.names, 1)?;
    Ok(Scope {
        types,
        names,
        level: scope.level,
        second: false,
    })
}

// The scope of a branch.
fn scope_of_branch(scope: &Scope, second: bool) -> Result<Scope, OutOfMemory>
    ensures { IfOk result (λ s. s ≡ branch second scope.now) }
{
    let level = sum(scope.level, 1)?;
    Ok(Scope {
        types: scope.types,
        names: scope.names,
        level,
        second,
    })
}

// The scopes of both branches come next.
fn push_branches(scopes: &mut Vec<Scope>, scope: &Scope) -> Result<(), OutOfMemory>
    ensures { OnOk result (reverse scopes.new.items ≡
        branch false scope.now ∷ (branch true scope.now ∷ reverse scopes.old.items)) }
{
    let other = scope_of_branch(scope, true)?;
    let zero_part = scope_of_branch(scope, false)?;
    scopes.push(other)?;
    scopes.push(zero_part)?;
    Ok(())
}

// The scopes of the terms below a node that declares nothing come next, the first on top.
fn push_scopes(scopes: &mut Vec<Scope>, form: &AForm, scope: &Scope) -> Result<(), OutOfMemory>
    ensures { OnOk result (reverse scopes.new.items ≡ below form.now scope.now ++ reverse scopes.old.items) }
{
    match form {
        AForm::If0 => push_branches(scopes, scope),
        _ => Ok(()),
    }
}

// A declaration.
fn step_let<'a>(
    of: Source<'a>,
    text: &mut Vec<u8>,
    walk: &mut Walk<'a>,
    scope: Scope,
    node: &'a ANode,
) -> Result<(), OutOfMemory>
    requires form { is_decl node.now.form ≡ true }
    requires arity { AArity node.now.form (a_values node.now.values.items) }
    requires ready { Ready walk.old.vars.items scope walk.old.scopes.items }
    ensures { OnOk result (Stepped of.entry.typed (program_in of.entry.program.now) scope
        (a_let (a_decl node.now.form (a_values node.now.values.items))) 1 walk.old.vars.items walk.new.vars.items
        walk.old.scopes.items walk.new.scopes.items text.old.items text.new.items) }
{
    let values = node.values.as_slice();
    let decl = Declaration {
        names: scope.types,
        form: &node.form,
        values,
        register: 0,
    };
    let types = declare(of.alloc, of.program, &mut walk.vars, &decl)?;
    let note = note_of_last(of, &walk.vars, types)?;
    write_node(text, node, &scope, &note)?;
    let next = scope_behind(&scope, types)?;
    walk.scopes.push(next)?;
    Ok(())
}

// A node that declares nothing.
fn step_other(
    of: Source,
    text: &mut Vec<u8>,
    walk: &mut Walk,
    scope: Scope,
    node: &ANode,
) -> Result<(), OutOfMemory>
    requires form { is_decl node.now.form ≡ false }
    requires arity { AArity node.now.form (a_values node.now.values.items) }
    requires ready { Ready walk.old.vars.items scope walk.old.scopes.items }
    ensures { OnOk result (Stepped of.entry.typed (program_in of.entry.program.now) scope
        (a_build node.now.form (a_values node.now.values.items)) (a_kids node.now.form)
        walk.old.vars.items walk.new.vars.items walk.old.scopes.items walk.new.scopes.items
        text.old.items text.new.items) }
{
    write_node(text, node, &scope, b"")?;
    push_scopes(&mut walk.scopes, &node.form, &scope)?;
    Ok(())
}

// Whether a node is a declaration.
fn declares(form: &AForm) -> bool
    ensures { result ≡ is_decl form.now }
{
    match form {
        AForm::Call(_) | AForm::If0 | AForm::Halt => false,
        AForm::Value | AForm::Proj(_) | AForm::Arith(_) => true,
        AForm::Unpack | AForm::Malloc(_) | AForm::Init(_) => true,
    }
}

// A node in its scope.
fn step_at<'a>(
    of: Source<'a>,
    text: &mut Vec<u8>,
    walk: &mut Walk<'a>,
    scope: Scope,
    node: &'a ANode,
) -> Result<(), OutOfMemory>
    requires arity { AArity node.now.form (a_values node.now.values.items) }
    requires ready { Ready walk.old.vars.items scope walk.old.scopes.items }
    ensures { OnOk result (Stepped of.entry.typed (program_in of.entry.program.now) scope
        (a_build node.now.form (a_values node.now.values.items)) (a_kids node.now.form)
        walk.old.vars.items walk.new.vars.items walk.old.scopes.items walk.new.scopes.items
        text.old.items text.new.items) }
{
    if declares(&node.form) {
        step_let(of, text, walk, scope, node)?;
        return Ok(());
    }
    step_other(of, text, walk, scope, node)?;
    Ok(())
}

// Writes a node, the first of the term whose scope is on top. The terms below it come next.
fn step<'a>(
    of: Source<'a>,
    text: &mut Vec<u8>,
    walk: &mut Walk<'a>,
    node: &'a ANode,
) -> Result<(), OutOfMemory>
    requires arity { AArity node.now.form (a_values node.now.values.items) }
    requires some { 0 < length walk.old.scopes.items }
    requires fit { Fit walk.old.vars.items (length walk.old.vars.items) (reverse walk.old.scopes.items) }
    ensures written { OnOk result ((ts : List ATm) → text.new.items
        ++ terms_text of.entry.typed (program_in of.entry.program.now) walk.new.vars.items
        (reverse walk.new.scopes.items) ts
        ≡ text.old.items ++ terms_text of.entry.typed (program_in of.entry.program.now) walk.old.vars.items
        (reverse walk.old.scopes.items) (a_build node.now.form (a_values node.now.values.items) ts)) }
    ensures fit { OnOk result (Fit walk.new.vars.items (length walk.new.vars.items)
        (reverse walk.new.scopes.items)) }
    ensures count { OnOk result (length walk.new.scopes.items + 1
        ≡ a_kids node.now.form + length walk.old.scopes.items) }
{
    match walk.scopes.pop() {
        Some(scope) => {
            walk.vars.truncate(scope.names as usize);
            step_at(of, text, walk, scope, node)?;
            Ok(())
        }
        None => unreachable!(),
    }
}

/// A term inside so many type names and these variables, at the first level. An error is want of memory.
pub(crate) fn write_term<'a>(
    of: Source<'a>,
    text: &mut Vec<u8>,
    nodes: &'a [ANode],
    types: u64,
    vars: Vec<Entry<'a>>,
) -> Result<(), OutOfMemory>
    requires row { ARow nodes.now 1 }
    requires under { Under types vars.items }
    ensures { OnOk result (text.new.items ≡ text.old.items
        ++ term_text of.entry.typed (program_in of.entry.program.now) (scope types vars.entry.items) types
        (length vars.entry.items) 1 (a_tree nodes.now)) }
{
    let names = vars.len() as u64;
    let mut walk = Walk {
        vars,
        scopes: Vec::new(of.alloc),
    };
    walk.scopes.push(Scope {
        types,
        names,
        level: 1,
        second: false,
    })?;
    for node in nodes {
        step(of, text, &mut walk, node)?;
    }
    Ok(())
}
