// The parts of a type, and its number by them.
ghost use Rattle.std.specs.Prelude.{◌≡◌, ◌≢◌, ◌↔◌, ◌<◌, ℕ, IsTrue, IfOk, MatchOption, length};
ghost use Rattle.t_types.specs.Tree.{IntTy, CodeTy, TFile};
ghost use Rattle.t_intern.specs.Grown.{Grown, IsNumber};
ghost use Rattle.t_intern.specs.Nodes.{at, type_at, PartsBelow};
ghost use Rattle.t_intern.specs.Read.{node};
ghost use Rattle.t_known.specs.Parts.{IsCode, IsOwing, IsRegsOf, IsExists};

use idx_core::OutOfMemory;
use t_intern::{Shape, Types};

fn out_of_memory(refused: (Shape, OutOfMemory)) -> OutOfMemory {
    refused.1
}

/// The number of the type of a shape that is needed no more.
pub fn intern(types: &mut Types, shape: Shape) -> Result<u64, OutOfMemory>
    requires { PartsBelow (length types.old) (node shape) }
    ensures number { IfOk result (IsNumber types.new (type_at types.old (node shape))) }
    ensures grown { Grown types.old types.new }
{
    types.intern(shape).map_err(out_of_memory)
}

/// Whether the type is that of integers.
pub fn is_int(types: &Types, n: u64) -> bool
    requires { n < length types.now }
    ensures { IsTrue result ↔ at types.now n ≡ IntTy }
{
    match types.shape(n) {
        Shape::Int => true,
        Shape::Var(_) | Shape::Code { .. } | Shape::Exists(_) | Shape::Tuple(_) => false,
    }
}

/// The registers of code, with the numbers of their types, and how many types it owes.
#[derive(Drop)]
pub struct CodeParts {
    pub owes: u64,
    pub regs: Vec<(u64, u64)>,
}

/// The parts of a code type.
pub fn code_parts(types: &Types, n: u64) -> Result<Option<CodeParts>, OutOfMemory>
    requires { n < length types.now }
    ensures { IfOk result (IsCode types.now n) }
{
    match types.copied(n)? {
        Shape::Code { owes, regs } => Ok(Some(CodeParts { owes, regs })),
        Shape::Int | Shape::Var(_) | Shape::Exists(_) | Shape::Tuple(_) => Ok(None),
    }
}

/// How many types code owes.
pub fn owed(types: &Types, n: u64) -> Option<u64>
    requires { n < length types.now }
    ensures { IsOwing types.now n result }
{
    match types.shape(n) {
        Shape::Code { owes, .. } => Some(*owes),
        Shape::Int | Shape::Var(_) | Shape::Exists(_) | Shape::Tuple(_) => None,
    }
}

// The registers of code, with the numbers of their types.
pub(crate) fn regs_of(types: &Types, n: u64) -> Option<&[(u64, u64)]>
    requires { n < length types.now }
    ensures { MatchOption result ((owes : ℕ) (f : TFile) → at types.now n ≢ CodeTy owes f) (λ regs.
        IsRegsOf types.now n regs.now) }
{
    match types.shape(n) {
        Shape::Code { regs, .. } => Some(regs),
        Shape::Int | Shape::Var(_) | Shape::Exists(_) | Shape::Tuple(_) => None,
    }
}

/// Whether the type is code that owes no types.
pub fn owes_nothing(types: &Types, n: u64) -> bool
    requires { n < length types.now }
    ensures { IsTrue result ↔ (f : TFile) × (at types.now n ≡ CodeTy 0 f) }
{
    match types.shape(n) {
        Shape::Code { owes, .. } => *owes == 0,
        Shape::Int | Shape::Var(_) | Shape::Exists(_) | Shape::Tuple(_) => false,
    }
}

/// The type under the binder of an existential type.
pub fn exists_body(types: &Types, n: u64) -> Option<u64>
    requires { n < length types.now }
    ensures { IsExists types.now n result }
{
    match types.shape(n) {
        Shape::Exists(body) => Some(*body),
        Shape::Int | Shape::Var(_) | Shape::Code { .. } | Shape::Tuple(_) => None,
    }
}
