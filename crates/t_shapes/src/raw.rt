// Values, instructions, blocks and data before names are resolved.

use crate::{RawFile, RawType};
use idx_core::{Op, Span};

/// What a value begins with: a register, an integer, or the place of a label.
#[derive(Clone, Copy, Debug, Drop)]
pub enum RawBase {
    Reg(u64),
    Num(i64),
    Label(Span),
}

/// A value: a base with the types that it is applied to, or a package.
#[derive(Drop)]
#[cycle(values)]
pub enum RawValue {
    Plain(RawBase, Vec<RawType>),
    Pack(Box<RawPack>),
}

/// A package: its hidden type, its value, and its type. It stands apart, so that the many values that are none stay
/// small.
#[derive(Drop)]
#[cycle(values)]
pub struct RawPack {
    pub hidden: RawType,
    pub inner: RawValue,
    pub shape: RawType,
}

/// An instruction. `Unpack` has the place of the name that it binds.
#[derive(Drop)]
pub enum RawInstr {
    Arith(Op, u64, u64, RawValue),
    Bnz(u64, RawValue),
    Ld(u64, u64, u64),
    Malloc(u64, Vec<RawType>),
    Mov(u64, RawValue),
    St(u64, u64, u64),
    Unpack(Span, u64, RawValue),
}

/// The end of a block.
#[derive(Drop)]
pub enum RawEnd {
    Jmp(RawValue),
    Halt,
}

/// A block: its label, the names that it binds, its file, and its instructions and its end, each with its place.
#[derive(Drop)]
pub struct RawBlock {
    pub name: Span,
    pub names: Vec<Span>,
    pub file: RawFile,
    pub body: Vec<(RawInstr, Span)>,
    pub last: (RawEnd, Span),
}

/// A field of a data tuple: its value with the value's place, and the type that is written for it.
#[derive(Drop)]
pub struct RawDatum {
    pub value: RawValue,
    pub place: Span,
    pub ty: RawType,
}

/// A data tuple: its label, and its fields.
#[derive(Drop)]
pub struct RawData {
    pub name: Span,
    pub fields: Vec<RawDatum>,
}

/// What a text holds: blocks and data tuples, in any order.
#[derive(Drop)]
pub enum RawItem {
    Block(RawBlock),
    Data(RawData),
}
