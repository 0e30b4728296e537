// Terms on a stack.
ghost use Rattle.f_terms.specs.Made.{IsStack};

use crate::node::FParts;
use crate::types::FType;
use idx_core::Op;

/// A form whose parts are the uppermost terms of a stack, the last part on top. A tuple says how many fields it has.
#[derive(Drop)]
pub enum FStep {
    Var(u64),
    Int(i64),
    Fix { arg: FType, res: FType },
    App,
    Gen,
    Inst(FType),
    Tuple(u64),
    Proj(u64),
    Arith(Op),
    If0,
    Let,
    Pack { hidden: FType, shape: FType },
    Open,
    Ref,
    Deref,
    Assign,
}

/// Terms on a stack, the top one last.
#[derive(Drop)]
pub struct FStack {
    pub(crate) parts: FParts,
    pub(crate) numbers: Vec<u64>,
    ghost only: { IsStack parts numbers.items },
}
