// The nodes of a term.
ghost use Rattle.std.specs.Prelude.{◌≡◌, ◌<◌, ◌-◌, ◌∷◌, [], length};
ghost use Rattle.calc_core.specs.Arena.{InOrder};
ghost use Rattle.f_terms.specs.Shape.{kids, nodes_at};
ghost use Rattle.calc_core.specs.Roots.{total, roots};

use crate::types::FType;
use idx_core::{Op, Span};

/// A form of a term and its place in the text.
#[derive(Drop)]
pub struct FNode {
    pub span: Span,
    pub shape: FShape,
}

/// The forms of a term: each child is named by its number. Value names and type names are numbers, counted apart: 0 is
/// the innermost binder. In the body of `Fix`, value 0 is the argument and value 1 is the function itself. In the
/// second part of `Let` and of `Open`, value 0 is the value of the first part, and in that of `Open` type 0 is the type
/// that is hidden in it. Fields count from 1.
#[derive(Drop)]
pub enum FShape {
    Var(u64),
    Int(i64),
    Fix {
        arg: FType,
        res: FType,
        body: u64,
    },
    App(u64, u64),
    Gen(u64),
    Inst(u64, FType),
    Tuple(Vec<u64>),
    Proj(u64, u64),
    Arith(Op, u64, u64),
    If0(u64, u64, u64),
    Let(u64, u64),
    Pack {
        hidden: FType,
        inner: u64,
        shape: FType,
    },
    Open(u64, u64),
    Ref(u64),
    Deref(u64),
    Assign(u64, u64),
}

/// A term of the source calculus, as a vector of nodes: children stand before their parents, and the last node is the
/// root.
#[derive(Drop)]
pub struct FTerm {
    pub(crate) nodes: Vec<FNode>,
    ghost some: { 0 < length nodes.items },
    ghost ordered: { InOrder kids nodes.items },
    ghost one: { roots kids nodes.items ≡ (length nodes.items - 1) ∷ [] },
    ghost counted: { nodes_at nodes.items (length nodes.items - 1) ≡ length nodes.items },
}

/// Parts of a term that is being made.
#[derive(Drop)]
pub struct FParts {
    pub(crate) nodes: Vec<FNode>,
    ghost ordered: { InOrder kids nodes.items },
    ghost counted: { total (nodes_at nodes.items) (roots kids nodes.items) ≡ length nodes.items },
}
