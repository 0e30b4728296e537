// The binding of names in a term, by a loop over what is still to be done.
ghost use Rattle.std.specs.Prelude.{◌≡◌, ℕ, List, ◌≤◌, ◌∷◌, [], length, MatchOption, MatchResult};
ghost use Rattle.idx_core.specs.Names.{Name};
ghost use Rattle.f_terms.specs.Tm.{Tm};
ghost use Rattle.f_terms.specs.Read.{place};
ghost use Rattle.f_terms.specs.ReadTerm.{spanned};
ghost use Rattle.f_terms.specs.Stacked.{arity, stacked, trees_of};
ghost use Rattle.f_grammar.specs.Term.{tree_of};
ghost use Rattle.f_parser.specs.Parts.{part_tree, part_trees};
ghost use Rattle.f_grammar.specs.Scope.{TermOf, IsBinder, IsLetOrOpen, IsPack, uses};
ghost use Rattle.f_parser.specs.Resolve.{StopsAt};
ghost use Rattle.f_parser.specs.Binding.{Bind, BindAll, Put, HasParts, todo, todos};
ghost use Rattle.f_parser.specs.Binding.{outer_values, outer_types, uses_of, Enough, stand, Steps, Goes};
ghost use Rattle.f_parser.specs.declared.resolve.Unresolved.TheVariants as stopped;
ghost use Rattle.f_parser.specs.declared.task.Leaves.TheVariants as leaves;

use crate::part::{Part, Parts};
use crate::parts::{child, children, node, split, whole};
use crate::resolve::{Unresolved, spelling, type_in_scope};
use crate::state::State;
use crate::task::{Leaves, Task};
use f_grammar::{RawShape, RawTerm};
use f_terms::{FStack, FStep, FTerm};
use idx_core::{Names, Span};
use std::alloc::Global;

// One task more, to be done next.
fn push<'a>(tasks: &mut Vec<Task<'a>>, task: Task<'a>) -> Result<(), Unresolved>
    ensures { MatchResult result
        (λ u. todos tasks.new.items ≡ todo task.entry ∷ todos tasks.old.items)
        (λ e. e ≡ stopped.Memory) }
{
    tasks.push(task)?;
    Ok(())
}

// The next task.
fn pop<'a>(tasks: &mut Vec<Task<'a>>) -> Option<Task<'a>>
    ensures { MatchOption result
        (todos tasks.old.items ≡ [])
        (λ t. todos tasks.old.items ≡ todo t ∷ todos tasks.new.items) }
{
    tasks.pop()
}

// A form of two parts is put after them.
fn push_two<'a>(
    tasks: &mut Vec<Task<'a>>,
    span: Span,
    step: FStep,
    a: Part<'a>,
    b: Part<'a>,
) -> Result<(), Unresolved>
    ensures { MatchResult result
        (λ u. todos tasks.new.items ≡
        Bind (part_tree a.entry) ∷ Bind (part_tree b.entry) ∷ Put span step leaves.Nothing ∷ todos tasks.old.items)
        (λ e. e ≡ stopped.Memory) }
{
    let names = Leaves::Nothing;
    push(tasks, Task::Form { span, step, names })?;
    push(tasks, Task::Term(b))?;
    push(tasks, Task::Term(a))
}

// A form of one part is put after it, and its names are left.
fn push_one<'a>(
    tasks: &mut Vec<Task<'a>>,
    span: Span,
    step: FStep,
    names: Leaves,
    a: Part<'a>,
) -> Result<(), Unresolved>
    ensures { MatchResult result
        (λ u. todos tasks.new.items ≡ Bind (part_tree a.entry) ∷ Put span step names ∷ todos tasks.old.items)
        (λ e. e ≡ stopped.Memory) }
{
    push(tasks, Task::Form { span, step, names })?;
    push(tasks, Task::Term(a))
}

// A form in the place of its parts.
fn put(alloc: Global, stack: &mut FStack, step: FStep, span: Span) -> Result<(), Unresolved>
    requires { arity step ≤ length (trees_of stack.old) }
    ensures { MatchResult result
        (λ u. trees_of stack.new ≡ stacked (place span) step (trees_of stack.old))
        (λ e. e ≡ stopped.Memory) }
{
    Ok(stack.put(alloc, step, span)?)
}

// The parts of a `let` or of an `open` are to be bound; the names that it binds come into scope between them.
fn open_names<'a>(tasks: &mut Vec<Task<'a>>, term: Part<'a>) -> Result<(), Unresolved>
    requires { IsLetOrOpen (part_tree term) }
    ensures { MatchResult result
        (λ u. (text : List ℕ) (v a : List Name) (ts : List Tm) → Steps text
        (stand (Bind (part_tree term.entry) ∷ todos tasks.old.items) v a ts)
        (stand (todos tasks.new.items) v a ts))
        (λ e. e ≡ stopped.Memory) }
{
    let node = node(term);
    let span = node.span;
    match &node.shape {
        RawShape::Let(name, a, b) => {
            push_one(tasks, span, FStep::Let, Leaves::Binding, child(term, *b))?;
            push(tasks, Task::Name(*name))?;
            push(tasks, Task::Term(child(term, *a)))
        }
        RawShape::Open(ty, name, a, b) => {
            let ty = *ty;
            let name = *name;
            push_one(tasks, span, FStep::Open, Leaves::Opening, child(term, *b))?;
            push(tasks, Task::Names { ty, name })?;
            push(tasks, Task::Term(child(term, *a)))
        }
        _ => unreachable!(),
    }
}

// The parts of a form that binds no names, and has no type before them, are to be bound.
fn open_parts<'a>(tasks: &mut Vec<Task<'a>>, term: Part<'a>) -> Result<(), Unresolved>
    requires { HasParts (part_tree term) }
    ensures { MatchResult result
        (λ u. (text : List ℕ) (v a : List Name) (ts : List Tm) → Steps text
        (stand (Bind (part_tree term.entry) ∷ todos tasks.old.items) v a ts)
        (stand (todos tasks.new.items) v a ts))
        (λ e. e ≡ stopped.Memory) }
{
    let node = node(term);
    let span = node.span;
    match &node.shape {
        RawShape::App(a, b) => {
            push_two(tasks, span, FStep::App, child(term, *a), child(term, *b))
        }
        RawShape::Arith(op, a, b) => {
            let step = FStep::Arith(*op);
            push_two(tasks, span, step, child(term, *a), child(term, *b))
        }
        RawShape::Proj(field, a) => {
            let step = FStep::Proj(*field);
            push_one(tasks, span, step, Leaves::Nothing, child(term, *a))
        }
        RawShape::Inst(a, ty) => {
            push(tasks, Task::Inst { span, ty })?;
            push(tasks, Task::Term(child(term, *a)))
        }
        RawShape::Tuple(parts) => {
            let step = FStep::Tuple(parts.len() as u64);
            let names = Leaves::Nothing;
            push(tasks, Task::Form { span, step, names })?;
            push(tasks, Task::Fields(children(term, parts)))
        }
        RawShape::If0(a, b, c) => {
            push_two(tasks, span, FStep::If0, child(term, *b), child(term, *c))?;
            push(tasks, Task::Term(child(term, *a)))
        }
        RawShape::Ref(a) => push_one(tasks, span, FStep::Ref, Leaves::Nothing, child(term, *a)),
        RawShape::Deref(a) => {
            push_one(tasks, span, FStep::Deref, Leaves::Nothing, child(term, *a))
        }
        RawShape::Assign(a, b) => {
            push_two(tasks, span, FStep::Assign, child(term, *a), child(term, *b))
        }
        _ => unreachable!(),
    }
}

// The hidden type of a pack is resolved, and its part is to be bound.
fn open_pack<'a>(
    alloc: Global,
    text: &[u8],
    state: &mut State<'a>,
    term: Part<'a>,
) -> Result<(), Unresolved>
    requires { IsPack (part_tree term) }
    ensures { Goes text.now (Bind (part_tree term.entry)) state.old state.new result }
{
    let node = node(term);
    let span = node.span;
    match &node.shape {
        RawShape::Pack {
            hidden,
            inner,
            shape,
        } => {
            let hidden = type_in_scope(alloc, text, hidden, &mut state.types)?;
            let pack = Task::Pack {
                span,
                hidden,
                shape,
            };
            push(&mut state.tasks, pack)?;
            push(&mut state.tasks, Task::Term(child(term, *inner)))
        }
        _ => unreachable!(),
    }
}

// The body of a form that binds names is to be bound, with these names in scope.
fn open_binder<'a>(
    alloc: Global,
    text: &[u8],
    state: &mut State<'a>,
    term: Part<'a>,
) -> Result<(), Unresolved>
    requires { IsBinder (part_tree term) }
    ensures { Goes text.now (Bind (part_tree term.entry)) state.old state.new result }
{
    let node = node(term);
    let span = node.span;
    match &node.shape {
        RawShape::Fix {
            name,
            parameter,
            takes,
            gives,
            body,
        } => {
            let arg = type_in_scope(alloc, text, takes, &mut state.types)?;
            let res = type_in_scope(alloc, text, gives, &mut state.types)?;
            state.values.push(spelling(text, *name))?;
            state.values.push(spelling(text, *parameter))?;
            let step = FStep::Fix { arg, res };
            let body = child(term, *body);
            push_one(&mut state.tasks, span, step, Leaves::Function, body)
        }
        RawShape::Gen(name, body) => {
            state.types.push(spelling(text, *name))?;
            let body = child(term, *body);
            push_one(
                &mut state.tasks,
                span,
                FStep::Gen,
                Leaves::Abstraction,
                body,
            )
        }
        _ => unreachable!(),
    }
}

// The first step of a term.
fn begin<'a>(
    alloc: Global,
    text: &[u8],
    state: &mut State<'a>,
    term: Part<'a>,
) -> Result<(), Unresolved>
    ensures { Goes text.now (Bind (part_tree term.entry)) state.old state.new result }
{
    let node = node(term);
    let span = node.span;
    match &node.shape {
        RawShape::Var => match state.values.find(spelling(text, span)) {
            Some(place) => put(alloc, &mut state.stack, FStep::Var(place), span),
            None => Err(Unresolved::Value(span)),
        },
        RawShape::Num(value) => put(alloc, &mut state.stack, FStep::Int(*value), span),
        RawShape::Fix { .. } | RawShape::Gen(..) => open_binder(alloc, text, state, term),
        RawShape::Pack { .. } => open_pack(alloc, text, state, term),
        RawShape::Let(..) | RawShape::Open(..) => open_names(&mut state.tasks, term),
        _ => open_parts(&mut state.tasks, term),
    }
}

// The first of these fields is to be bound, and then the others.
fn next_field<'a>(tasks: &mut Vec<Task<'a>>, parts: Parts<'a>) -> Result<(), Unresolved>
    ensures { MatchResult result
        (λ u. (text : List ℕ) (v a : List Name) (ts : List Tm) →
        Steps text (stand (BindAll (part_trees parts.entry) ∷ todos tasks.old.items) v a ts)
        (stand (todos tasks.new.items) v a ts))
        (λ e. e ≡ stopped.Memory) }
{
    match split(parts) {
        None => Ok(()),
        Some((first, rest)) => {
            push(tasks, Task::Fields(rest))?;
            push(tasks, Task::Term(first))
        }
    }
}

// The names that a form bound are left.
fn leave(names: Leaves, values: &mut Names, types: &mut Names)
    ensures values { values.new ≡ outer_values names values.old }
    ensures types { types.new ≡ outer_types names types.old }
{
    match names {
        Leaves::Nothing => (),
        Leaves::Function => {
            values.pop();
            values.pop();
        }
        Leaves::Abstraction => types.pop(),
        Leaves::Binding => values.pop(),
        Leaves::Opening => {
            values.pop();
            types.pop();
        }
    }
}

// One task is done.
fn do_task<'a>(
    alloc: Global,
    text: &[u8],
    state: &mut State<'a>,
    task: Task<'a>,
) -> Result<(), Unresolved>
    requires { Enough (todo task ∷ todos state.old.tasks.items) (length (trees_of state.old.stack)) }
    ensures { Goes text.now (todo task.entry) state.old state.new result }
{
    match task {
        Task::Term(term) => begin(alloc, text, state, term),
        Task::Fields(parts) => next_field(&mut state.tasks, parts),
        Task::Inst { span, ty } => {
            let ty = type_in_scope(alloc, text, ty, &mut state.types)?;
            put(alloc, &mut state.stack, FStep::Inst(ty), span)
        }
        Task::Name(name) => Ok(state.values.push(spelling(text, name))?),
        Task::Names { ty, name } => {
            state.types.push(spelling(text, ty))?;
            Ok(state.values.push(spelling(text, name))?)
        }
        Task::Pack {
            span,
            hidden,
            shape,
        } => {
            let shape = type_in_scope(alloc, text, shape, &mut state.types)?;
            put(alloc, &mut state.stack, FStep::Pack { hidden, shape }, span)
        }
        Task::Form { span, step, names } => {
            leave(names, &mut state.values, &mut state.types);
            put(alloc, &mut state.stack, step, span)
        }
    }
}

/// A term with its names bound, where none is in scope around it; or the first of its names that has no binder.
pub(crate) fn bind(alloc: Global, text: &[u8], term: &RawTerm) -> Result<FTerm, Unresolved>
    ensures { MatchResult result
        (λ t. TermOf text.now [] [] (tree_of term.now) (spanned t))
        (λ e. StopsAt text.now (uses text.now [] [] (tree_of term.now)) e) }
{
    let mut state = State {
        tasks: Vec::new(alloc),
        values: Names::new(alloc),
        types: Names::new(alloc),
        stack: FStack::new(alloc),
    };
    push(&mut state.tasks, Task::Term(whole(term)))?;
    while let Some(task) = pop(&mut state.tasks) {
        do_task(alloc, text, &mut state, task)?;
    }
    Ok(state.stack.done())
}
