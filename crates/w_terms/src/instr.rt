// Instructions of word code, and the ends of its blocks. Registers and labels are numbers, from 0.

/// An operation on two words. `Shl` and `Shr` shift the first by as many bits as the second says.
#[derive(Clone, Copy, Debug, PartialEq, Eq)]
pub enum WOp {
    Add,
    Sub,
    Mul,
    And,
    Or,
    Shl,
    Shr,
}

/// A comparison of two words; `Below` and `AtLeast` without sign.
#[derive(Clone, Copy, Debug, PartialEq, Eq)]
pub enum WCond {
    Equal,
    Differ,
    Below,
    AtLeast,
}

/// The second operand of an operation or a comparison: a register, or a word.
#[derive(Clone, Copy, Debug, Drop)]
pub enum WOperand {
    Reg(u64),
    Num(u64),
}

/// An instruction. `Place` gives the address of a label; `Load` and `Store` are at the address in `ra`, so many bytes
/// on; `Branch` goes to the label where the comparison holds; `Write` puts as many bytes as `rn` says, from the address
/// in `ra`, to the standard output (1) or the error output (2).
#[derive(Clone, Copy, Debug, Drop)]
pub enum WInstr {
    Const {
        rd: u64,
        number: u64,
    },
    Move {
        rd: u64,
        rs: u64,
    },
    Place {
        rd: u64,
        label: u64,
    },
    Arith {
        op: WOp,
        rd: u64,
        rs: u64,
        v: WOperand,
    },
    Load {
        rd: u64,
        ra: u64,
        bytes: u64,
    },
    Store {
        ra: u64,
        bytes: u64,
        rs: u64,
    },
    Branch {
        cond: WCond,
        rs: u64,
        v: WOperand,
        label: u64,
    },
    Write {
        to: u64,
        ra: u64,
        rn: u64,
    },
}

/// How a block ends: at a label, at the label whose address a register has, or the program with a status.
#[derive(Clone, Copy, Debug, Drop)]
pub enum WEnd {
    Jump(u64),
    Goto(u64),
    Exit(u64),
}
