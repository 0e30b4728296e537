// What is bound around a term.
ghost use Rattle.std.specs.Prelude.{◌≡◌, ℕ, ◌<◌, ◌≤◌, ◌-◌, List, ◌++◌, ◌∷◌, [], IfOk, OnOk, Some, length, map, take};
ghost use Rattle.f_terms.specs.Ty.{NoTys, TArrow, Below};
ghost use Rattle.f_terms.specs.Limits.{Within};
ghost use Rattle.f_terms.specs.Typing.{ty_at};
ghost use Rattle.f_terms.specs.Read.{tree};
ghost use Rattle.f_check.specs.Scopes.{bound, names, IsScope};

use f_terms::{FType, copy};
use idx_core::{OutOfMemory, Scoped};
use std::alloc::Global;

/// A value name around a term: its type, under the type names that were around it then. A function binds two, itself
/// and, inside of it, its argument.
#[derive(Drop)]
pub(crate) struct Binder {
    pub ty: FType,
    pub around: u64,
}

// The type of a value name, as it stands under `around` type names. The innermost name is the last one.
pub(crate) fn find(
    alloc: Global,
    scope: &[Binder],
    name: u64,
    around: u64,
) -> Result<FType, OutOfMemory>
    requires scope { IsScope around (map bound scope.now) }
    requires room { around ≤ 4294967296 }
    requires known { name < length scope.now }
    ensures { IfOk result (λ r. (ty_at (names around NoTys (map bound scope.now)) name ≡ Some (tree r))
        × Below around (tree r) × Within (tree r)) }
{
    let binder = &scope[scope.len() - 1 - name as usize];
    let by = around - binder.around;
    binder.ty.shift(alloc, by, 0)
}

// The type of a function.
pub(crate) fn copy_arrow(alloc: Global, arg: &FType, res: &FType) -> Result<FType, OutOfMemory>
    ensures { IfOk result (λ r. tree r ≡ TArrow (tree arg.now) (tree res.now)) }
{
    let arg = copy(alloc, arg)?;
    let res = copy(alloc, res)?;
    Ok(FType::Arrow(Box::new(alloc, arg)?, Box::new(alloc, res)?))
}

// One name more is bound.
pub(crate) fn bind(scope: &mut Vec<Binder>, ty: FType, around: u64) -> Result<(), OutOfMemory>
    ensures { OnOk result (map bound scope.new.items
        ≡ map bound scope.old.items ++ record { ty = tree ty; at = around } ∷ []) }
{
    scope.push(Binder { ty, around })?;
    Ok(())
}

// The innermost name is left; the type that it had.
pub(crate) fn leave_last(scope: &mut Vec<Binder>) -> FType
    requires { (bs : List Binder) × (b : Binder) × (scope.old.items ≡ bs ++ b ∷ []) }
    ensures { (at : ℕ) × (map bound scope.old.items
        ≡ map bound scope.new.items ++ record { ty = tree result; at = at } ∷ []) }
{
    match scope.pop() {
        Some(binder) => binder.ty,
        None => unreachable!(),
    }
}

// So many names, the innermost ones, are left.
pub(crate) fn leave(scope: &mut Vec<Binder>, count: usize)
    ensures { scope.new.items ≡ take (length scope.old.items - count) scope.old.items }
{
    let kept = scope.len().saturating_sub(count);
    scope.truncate(kept);
}
