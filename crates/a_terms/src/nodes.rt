// Nodes of allocated terms.

use crate::types::AType;
use idx_core::Op;

/// What a value begins with: a variable by number, an integer, a block or a data tuple by its number.
#[derive(Clone, Copy, Drop)]
pub enum ABase {
    Var(u64),
    Int(i64),
    Label(u64),
    Data(u64),
}

/// What stands around a value: types that it is applied to, or a pack.
#[derive(Drop)]
pub enum AWrap {
    Apply(Vec<AType>),
    Pack { hidden: AType, shape: AType },
}

/// A value: what it begins with, and what is put round it, from the inside.
#[derive(Drop)]
pub struct AValue {
    pub base: ABase,
    pub wraps: Vec<AWrap>,
}

/// What a node is. Fields count from 1.
#[derive(Drop)]
pub enum AForm {
    Value,
    Proj(u64),
    Arith(Op),
    Unpack,
    Malloc(Vec<AType>),
    Init(u64),
    Call(Vec<AType>),
    If0,
    Halt,
}

/// A declaration or an end. What follows a declaration stands next; the two branches of an `if0` after one another.
#[derive(Drop)]
pub struct ANode {
    pub form: AForm,
    pub values: Vec<AValue>,
}

/// A block: how many types it owes, the types of its arguments, its body.
#[derive(Drop)]
pub struct ABlock {
    pub owes: u64,
    pub args: Vec<AType>,
    pub body: Vec<ANode>,
}

/// A data tuple: the values of its fields, with their types.
#[derive(Drop)]
pub struct AData {
    pub fields: Vec<(AValue, AType)>,
}
