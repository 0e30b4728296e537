// A stack of terms: each form takes its parts from the top.
ghost use Rattle.std.specs.Prelude.{◌≡◌, ℕ, ◌-◌, ◌≤◌, ◌++◌, ◌∷◌, [], length, map, take, drop, IfOk, OnErr};
ghost use Rattle.std.specs.List.{All};
ghost use Rattle.f_terms.specs.Tm.{Tm, Spn};
ghost use Rattle.f_terms.specs.Read.{place};
ghost use Rattle.f_terms.specs.Shape.{children, shape_tree};
ghost use Rattle.f_terms.specs.ReadTerm.{spanned, IsLoose};
ghost use Rattle.f_terms.specs.Made.{IsAdded, IsSame};
ghost use Rattle.calc_core.specs.Roots.{Differ};
ghost use Rattle.f_terms.specs.Stacked.{arity, step_tree, stacked, trees_of};

use crate::node::{FParts, FShape, FTerm};
use crate::stack::{FStack, FStep};
use idx_core::{OutOfMemory, Span};
use std::alloc::Global;

// The form of a step over these parts.
fn shape_of(alloc: Global, step: FStep, parts: &[u64]) -> Result<FShape, OutOfMemory>
    requires { length parts.now ≡ arity step }
    ensures { IfOk result (λ r. (children r ≡ parts.now)
        × ((at : ℕ → Tm) (s : Spn) → shape_tree at s r ≡ step_tree s step (map at parts.now))) }
{
    Ok(match step {
        FStep::Var(i) => FShape::Var(i),
        FStep::Int(n) => FShape::Int(n),
        FStep::Fix { arg, res } => FShape::Fix {
            arg,
            res,
            body: parts[0],
        },
        FStep::App => FShape::App(parts[0], parts[1]),
        FStep::Gen => FShape::Gen(parts[0]),
        FStep::Inst(t) => FShape::Inst(parts[0], t),
        FStep::Tuple(_) => FShape::Tuple(parts.to_vec(alloc)?),
        FStep::Proj(i) => FShape::Proj(i, parts[0]),
        FStep::Arith(op) => FShape::Arith(op, parts[0], parts[1]),
        FStep::If0 => FShape::If0(parts[0], parts[1], parts[2]),
        FStep::Let => FShape::Let(parts[0], parts[1]),
        FStep::Pack { hidden, shape } => FShape::Pack {
            hidden,
            inner: parts[0],
            shape,
        },
        FStep::Open => FShape::Open(parts[0], parts[1]),
        FStep::Ref => FShape::Ref(parts[0]),
        FStep::Deref => FShape::Deref(parts[0]),
        FStep::Assign => FShape::Assign(parts[0], parts[1]),
    })
}

// A part more, whose form is dropped where memory is wanted.
fn add(parts: &mut FParts, shape: FShape, span: Span) -> Result<u64, OutOfMemory>
    requires loose { All (λ k. IsLoose parts.old k) (children shape) }
    requires differ { Differ (children shape) }
    ensures added { IfOk result (λ r. IsAdded parts.old parts.new (place span) shape r) }
    ensures refused { OnErr result (IsSame parts.old parts.new) }
{
    parts.add(shape, span).map_err(out_of_memory)
}

fn out_of_memory(refused: (FShape, OutOfMemory)) -> OutOfMemory {
    refused.1
}

impl FStep {
    /// How many parts the form has.
    pub fn arity(&self) -> u64
        ensures { result ≡ arity self.now }
    {
        match self {
            FStep::Var(_) | FStep::Int(_) => 0,
            FStep::Fix { .. } | FStep::Gen | FStep::Inst(_) | FStep::Proj(_) => 1,
            FStep::Pack { .. } | FStep::Ref | FStep::Deref => 1,
            FStep::App | FStep::Arith(_) | FStep::Let | FStep::Open | FStep::Assign => 2,
            FStep::If0 => 3,
            FStep::Tuple(n) => *n,
        }
    }
}

impl FStack {
    /// No terms.
    pub fn new(alloc: Global) -> FStack
        ensures { trees_of result ≡ [] }
    {
        FStack {
            parts: FParts::new(alloc),
            numbers: Vec::new(alloc),
        }
    }

    /// How many terms there are.
    pub fn len(&self) -> u64
        ensures { result ≡ length (trees_of self.now) }
    {
        self.numbers.len() as u64
    }

    /// One form more: it takes its parts from the top of the stack, and is put in their place. Where memory is wanted,
    /// the stack is as before.
    pub fn put(&mut self, alloc: Global, step: FStep, span: Span) -> Result<(), OutOfMemory>
        requires { arity step ≤ length (trees_of self.old) }
        ensures done { IfOk result (λ _. trees_of self.new ≡ stacked (place span) step (trees_of self.old)) }
        ensures refused { OnErr result (trees_of self.new ≡ trees_of self.old) }
    {
        let below = self.numbers.len() - step.arity() as usize;
        let shape = shape_of(alloc, step, &self.numbers[below..])?;
        self.numbers.reserve(1)?;
        let part = add(&mut self.parts, shape, span)?;
        self.numbers.truncate(below);
        self.numbers.push_reserved(part);
        Ok(())
    }

    /// The one term of a stack.
    pub fn done(self) -> FTerm
        requires { length (trees_of self) ≡ 1 }
        ensures { trees_of self ≡ spanned result ∷ [] }
    {
        self.parts.done()
    }
}
