// Types and terms before names are resolved.
ghost use Rattle.std.specs.Prelude.{◌<◌, length};
ghost use Rattle.calc_core.specs.Arena.{InOrder};
ghost use Rattle.f_grammar.specs.Nodes.{kids};

use idx_core::{Op, Span};

/// A type of the source in which a name is the place where it stands.
#[derive(Drop)]
pub enum RawType {
    Int,
    Name(Span),
    Tuple(Vec<RawType>),
    Arrow(Box<RawType>, Box<RawType>),
    All(Span, Box<RawType>),
    Exists(Span, Box<RawType>),
    Ref(Box<RawType>),
}

/// A form of a term and its place in the text.
#[derive(Drop)]
pub struct RawNode {
    pub span: Span,
    pub shape: RawShape,
}

/// The forms of a term: each child is named by its number, and a name is the place where it stands; that of a variable
/// is the place of the form. Fields count from 1.
#[derive(Drop)]
pub enum RawShape {
    Var,
    Num(i64),
    Fix {
        name: Span,
        parameter: Span,
        takes: RawType,
        gives: RawType,
        body: u64,
    },
    Gen(Span, u64),
    App(u64, u64),
    Inst(u64, RawType),
    Tuple(Vec<u64>),
    Proj(u64, u64),
    Arith(Op, u64, u64),
    If0(u64, u64, u64),
    /// The name that is bound, its part, the body.
    Let(Span, u64, u64),
    Pack {
        hidden: RawType,
        inner: u64,
        shape: RawType,
    },
    /// The type name and the value name that are bound, their part, the body.
    Open(Span, Span, u64, u64),
    Ref(u64),
    Deref(u64),
    Assign(u64, u64),
}

/// A term of the source whose names are not resolved, as a vector of nodes in which children stand before their
/// parents, and the number of the node that is the whole.
#[derive(Drop)]
pub struct RawTerm {
    pub(crate) nodes: Vec<RawNode>,
    pub(crate) root: u64,
    ghost ordered: { InOrder kids nodes.items },
    ghost inside: { root < length nodes.items },
}
