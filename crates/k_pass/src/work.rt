// What the conversion has made, and what is still to be done.

use f_terms::FType;
use idx_core::Op;
use k_terms::KNode;

/// What stands in place: a name, by the number of names outside it, or an integer.
#[derive(Clone, Copy)]
pub(crate) enum Atom {
    Level(u64),
    Literal(i64),
}

/// What is done with an atom that comes.
#[derive(Drop)]
pub(crate) enum Frame<'a> {
    /// It is the function: the argument is next.
    Fun {
        x: u64,
        ty: &'a FType,
    },
    /// It is the argument.
    Arg {
        f: Atom,
        ty: &'a FType,
    },
    /// It is applied to a type.
    Inst {
        arg: &'a FType,
        ty: &'a FType,
    },
    /// It is the left operand: the right one is next.
    Left {
        op: Op,
        b: u64,
    },
    /// It is the right operand.
    Right {
        op: Op,
        a: Atom,
    },
    /// A field is taken of it.
    Proj {
        i: u64,
        ty: &'a FType,
    },
    /// It is a field: those after it are next.
    Fields {
        rest: &'a [u64],
        done: Vec<Atom>,
        ty: &'a FType,
    },
    /// It is handed to the name of this level, and the term ends.
    Tail {
        level: u64,
    },
    /// It is tested: both branches hand their atom to the name of this level, and the term ends.
    Test {
        zero: u64,
        other: u64,
        level: u64,
    },
    /// It has the innermost name in what is next.
    Let {
        body: u64,
    },
    /// It is a package: it is unpacked, and what it holds has the innermost name in what is next, its hidden type the
    /// innermost type name.
    Open {
        body: u64,
        ty: &'a FType,
    },
    /// The innermost name goes.
    Leave,
    /// The innermost type name goes.
    LeaveType,
    /// It is packed.
    Pack {
        hidden: &'a FType,
        ty: &'a FType,
    },
    /// A cell is made that holds it.
    Ref {
        ty: &'a FType,
    },
    /// It is a cell: what it holds is named.
    Deref {
        ty: &'a FType,
    },
    /// It is a cell: what is put there is next.
    Cell {
        value: u64,
    },
    /// It is put in a cell.
    Set {
        cell: Atom,
    },
}

/// What comes where a term has ended. `types` is the number of type variables there.
#[derive(Clone, Copy)]
pub(crate) enum Pending<'a> {
    /// The term was the body of a `fix`, which gets a name.
    Fix {
        depth: u64,
        types: u64,
        arg: &'a FType,
        res: &'a FType,
    },
    /// The term was the body of a `gen`, which gets a name.
    Gen {
        depth: u64,
        types: u64,
        ty: &'a FType,
    },
    /// The other branch.
    Other {
        node: u64,
        depth: u64,
        types: u64,
        level: u64,
    },
    /// The term was what comes after an `if0`: its test and its branches come now.
    If0 {
        test: u64,
        zero: u64,
        other: u64,
        depth: u64,
        types: u64,
        ty: &'a FType,
    },
    /// The term was the body of a code that is handed over.
    End,
    /// The innermost name goes.
    Leave,
    /// The innermost type name goes.
    LeaveType,
    /// This is the innermost name again.
    Enter {
        atom: Atom,
    },
    /// This is the innermost type name again.
    EnterType {
        level: u64,
    },
}

/// A term that is to be converted: its node, and how many names are around it.
#[derive(Clone, Copy)]
pub(crate) struct Part {
    pub(crate) node: u64,
    pub(crate) depth: u64,
}

/// An atom that is there, and how many names are around it.
#[derive(Clone, Copy)]
pub(crate) struct Given {
    pub(crate) atom: Atom,
    pub(crate) depth: u64,
}

/// How many names and how many type variables are around a term.
#[derive(Clone, Copy)]
pub(crate) struct Place {
    pub(crate) depth: u64,
    pub(crate) types: u64,
}

/// The nodes of an `if0`'s parts.
#[derive(Clone, Copy)]
pub(crate) struct Choice {
    pub(crate) test: u64,
    pub(crate) zero: u64,
    pub(crate) other: u64,
}

/// A tuple that is being made: the nodes of the fields that are next, the fields that are done, and its type.
#[derive(Drop)]
pub(crate) struct Tuple<'a> {
    pub(crate) rest: &'a [u64],
    pub(crate) done: Vec<Atom>,
    pub(crate) ty: &'a FType,
}

/// What is next.
#[derive(Clone, Copy)]
pub(crate) enum Control {
    Walk { node: u64, depth: u64 },
    Give { atom: Atom, depth: u64 },
    Ended,
}

/// The nodes so far, the frames, what comes where a term ends, what stands for the source's names, the levels of its
/// type names, and the number of type variables in scope.
#[derive(Drop)]
pub(crate) struct Work<'a> {
    pub(crate) out: Vec<KNode>,
    pub(crate) frames: Vec<Frame<'a>>,
    pub(crate) pending: Vec<Pending<'a>>,
    pub(crate) names: Vec<Atom>,
    pub(crate) levels: Vec<u64>,
    pub(crate) types: u64,
}
