// What allocation keeps while it walks over a term.
ghost use Rattle.std.specs.Prelude.{◌≡◌, length};

use a_terms::{ANode, AType, AValue};
use c_terms::CType;
use h_terms::HBlock;
use std::alloc::Global;

/// The type of a name: one that was made, or as allocation leaves a type that stands in the hoisted program.
#[derive(Drop)]
pub enum Kept<'a> {
    Made(AType),
    Lent(&'a CType),
}

/// A type, and how many type names there were when it was read.
#[derive(Drop)]
pub struct Noted<'a> {
    pub ty: Kept<'a>,
    pub under: u64,
}

/// A name of the hoisted term: the level of its variable in the allocated one, its type as allocation leaves it, how
/// many type names there were when that type was read, and the value of the constant that it names, if it names one.
/// The type is shifted where it is needed; the value of a constant has no free type names.
#[derive(Drop)]
pub struct Name<'a> {
    pub level: u64,
    pub ty: Kept<'a>,
    pub under: u64,
    pub constant: Option<AValue>,
}

/// Where a term that is still to come stands: how many variables there are, how many names of the hoisted term, and
/// how many type names.
#[derive(Clone, Copy, Drop)]
pub struct Place {
    pub depth: u64,
    pub names: usize,
    pub binders: u64,
}

/// How far the walk over a term has come: the names so far, the places that are still to come, the next one last, and
/// the nodes that are made.
#[derive(Drop)]
pub struct Progress<'a> {
    pub alloc: Global,
    pub names: Vec<Name<'a>>,
    pub places: Vec<Place>,
    pub nodes: Vec<ANode>,
}

/// The type of a value: its own, or that of a name, 0 the innermost, or as allocation leaves a type of the hoisted
/// program or that of a block's code, or a tuple of types, all initialised. It is made only where it is needed.
#[derive(Drop)]
pub enum TypeOf<'a> {
    Own(AType),
    Name(u64),
    Lent(&'a CType),
    Code(&'a HBlock),
    Tuple(Vec<TypeOf<'a>>),
}

/// The constant that a value is: none, its own, or that of a name, 0 the innermost, if that one names a constant.
#[derive(Drop)]
pub enum ConstantOf {
    Open,
    Own(AValue),
    Name(u64),
}

/// What is known of a value: its type, and the constant that it is.
#[derive(Drop)]
pub struct Seen<'a> {
    pub ty: TypeOf<'a>,
    pub constant: ConstantOf,
}

/// A value, its variable by its level, and what is known of it.
#[derive(Drop)]
pub struct Leaf<'a> {
    pub value: AValue,
    pub seen: Seen<'a>,
}

/// Values that were read, their variables by level, what is known of each, and how many variables there are then.
#[derive(Drop)]
pub struct Run<'a> {
    pub values: Vec<AValue>,
    pub types: Vec<Seen<'a>>,
    pub depth: u64,
    ghost even: { length types.items ≡ length values.items },
}

/// What is around a value that is read: the blocks that its labels name, the names of its term, and how many type
/// names there are.
#[derive(Clone, Copy, Drop)]
pub struct Around<'b, 'a> {
    pub alloc: Global,
    pub blocks: &'a [HBlock],
    pub names: &'b [Name<'a>],
    pub binders: u64,
}
