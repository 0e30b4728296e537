// The types that are noted.
ghost use Rattle.std.specs.Prelude.{◌≡◌, ℕ, ◌<◌, List, [], ◌∷◌, ◌++◌, IfOk, IfErr, OnOk, length};
ghost use Rattle.f_terms.specs.Read.{tree};
ghost use Rattle.f_terms.specs.ReadTerm.{count};
ghost use Rattle.f_check.specs.declared.failure.Failure.TheVariants as failure;
ghost use Rattle.f_check.specs.Notes.{Keeps, Noting, opened};

use crate::failure::Failure;
use crate::frame::Control;
use f_terms::{FShape, FTerm, FType, copy};
use idx_core::OutOfMemory;
use std::alloc::Global;

fn table(alloc: Global, count: u64) -> Result<Vec<FType>, OutOfMemory>
    ensures { IfOk result (λ r. length r.items ≡ count) }
{
    let mut types = Vec::new(alloc);
    for _ in 0..count {
        types.push(FType::Int)?;
    }
    Ok(types)
}

// A table of so many types.
pub(crate) fn blank(alloc: Global, count: u64) -> Result<Vec<FType>, Failure>
    ensures right { IfOk result (λ r. length r.items ≡ count) }
    ensures memory { IfErr result (λ e. e ≡ failure.Memory) }
{
    Ok(table(alloc, count)?)
}

fn push(path: &mut Vec<u64>, node: u64) -> Result<(), OutOfMemory>
    ensures { OnOk result (path.new.items ≡ path.old.items ++ node ∷ []) }
{
    path.push(node)?;
    Ok(())
}

// The node that is begun is open too.
pub(crate) fn follow(path: &mut Vec<u64>, control: &Control) -> Result<(), Failure>
    ensures right { OnOk result (path.new.items ≡ opened path.old.items control.now) }
    ensures memory { IfErr result (λ e. e ≡ failure.Memory) }
{
    match control {
        Control::Run(node) => Ok(push(path, *node)?),
        Control::Give { .. } => Ok(()),
    }
}

// The innermost node that is open, which is closed now.
pub(crate) fn close(path: &mut Vec<u64>) -> u64
    requires { (ls : List ℕ) × (k : ℕ) × (path.old.items ≡ ls ++ k ∷ []) }
    ensures { path.old.items ≡ path.new.items ++ result ∷ [] }
{
    match path.pop() {
        Some(node) => node,
        None => unreachable!(),
    }
}

// What is noted of a form with this type, where the name that it binds has the other: where the form has it written, or
// none is needed, nothing.
fn kept(alloc: Global, shape: &FShape, ty: &FType, bound: FType) -> Result<FType, OutOfMemory>
    ensures { IfOk result (λ r. Keeps shape.now (tree r) (tree ty.now) (tree bound)) }
{
    match shape {
        FShape::Var(_) | FShape::Int(_) | FShape::Fix { .. } | FShape::Arith(_, _, _) => {
            Ok(FType::Int)
        }
        FShape::Let(_, _) | FShape::Pack { .. } | FShape::Assign(_, _) => Ok(FType::Int),
        FShape::Open(_, _) => Ok(bound),
        _ => {
            let ty = copy(alloc, ty)?;
            Ok(ty)
        }
    }
}

// What is found of a node whose parts have passed: its type, and the type of the name that it binds.
#[derive(Drop)]
pub(crate) struct Answer<'a> {
    pub ty: &'a FType,
    pub bound: FType,
}

// The type of a node is put down.
pub(crate) fn note(
    alloc: Global,
    term: &FTerm,
    types: &mut Vec<FType>,
    node: u64,
    answer: Answer,
) -> Result<(), Failure>
    requires inside { node < count term.now }
    requires table { node < length types.old.items }
    ensures right { OnOk result (Noting term.now types.old.items types.new.items node
        (tree answer.entry.ty.now) (tree answer.entry.bound)) }
    ensures memory { IfErr result (λ e. e ≡ failure.Memory) }
{
    let Answer { ty, bound } = answer;
    types[node as usize] = kept(alloc, &term.node(node).shape, ty, bound)?;
    Ok(())
}
