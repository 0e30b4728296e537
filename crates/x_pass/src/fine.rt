// Whether a program has code: its registers have homes, and its numbers stand in instructions.
ghost use Rattle.std.specs.Prelude.{◌≡◌, true, false, map};
ghost use Rattle.x_laws.specs.Straight.{FitsRight, IsCount, IsPlain};
ghost use Rattle.x_laws.specs.Going.{IsExit, IsInstr, IsSeq};
ghost use Rattle.x_pass.specs.Short.{HasStatus, AreFine, AreSeqs, is_write};
ghost use Rattle.w_terms.specs.Read as read;
ghost use Rattle.w_terms.specs.Tree.{WExit};

use w_terms::{WBlock, WEnd, WInstr, WOp, WOperand};

fn fits_right(registers: u64, v: WOperand) -> bool
    ensures holds { result ≡ true → FitsRight registers v }
    ensures fails { result ≡ false → FitsRight registers v → ⊥ }
{
    match v {
        WOperand::Reg(q) => q < registers,
        WOperand::Num(number) => {
            let _read = number;
            true
        }
    }
}

fn is_count(v: WOperand) -> bool
    ensures holds { result ≡ true → IsCount v }
    ensures fails { result ≡ false → IsCount v → ⊥ }
{
    match v {
        WOperand::Reg(_) => false,
        WOperand::Num(number) => number < 64,
    }
}

fn is_plain(op: WOp, v: WOperand) -> bool
    ensures holds { result ≡ true → IsPlain op v }
    ensures fails { result ≡ false → IsPlain op v → ⊥ }
{
    match op {
        WOp::Shl => is_count(v),
        WOp::Shr => is_count(v),
        WOp::Add => true,
        WOp::Sub => true,
        WOp::Mul => true,
        WOp::And => true,
        WOp::Or => true,
    }
}

// Whether an instruction has code, in front of an exit.
fn is_instr(registers: u64, instr: &WInstr) -> bool
    ensures holds { result ≡ true → IsInstr registers (read.instr instr.now) (WExit 0) }
    ensures fails { result ≡ false → IsInstr registers (read.instr instr.now) (WExit 0) → ⊥ }
{
    match *instr {
        WInstr::Const { rd, number } => {
            let _read = number;
            rd < registers
        }
        WInstr::Move { rd, rs } => rd < registers && rs < registers,
        WInstr::Place { rd, label: _ } => rd < registers,
        WInstr::Arith { op, rd, rs, v } => {
            is_plain(op, v) && rd < registers && rs < registers && fits_right(registers, v)
        }
        WInstr::Load { rd, ra, bytes } => rd < registers && ra < registers && bytes < 0x8000_0000,
        WInstr::Store { ra, bytes, rs } => ra < registers && bytes < 0x8000_0000 && rs < registers,
        WInstr::Branch {
            cond: _,
            rs,
            v,
            label: _,
        } => rs < registers && fits_right(registers, v),
        WInstr::Write { to, ra, rn } => { (to == 1 || to == 2) && ra < registers && rn < registers }
    }
}

fn writes(instr: &WInstr) -> bool
    ensures { result ≡ is_write (read.instr instr.now) }
{
    matches!(
        *instr,
        WInstr::Write {
            to: _,
            ra: _,
            rn: _
        }
    )
}

fn is_exit(end: &WEnd) -> bool
    ensures holds { result ≡ true → IsExit (read.end_of end.now) }
    ensures fails { result ≡ false → IsExit (read.end_of end.now) → ⊥ }
{
    matches!(*end, WEnd::Exit(_))
}

fn is_end(registers: u64, end: &WEnd) -> bool
    ensures holds { result ≡ true → IsSeq registers (read.end_of end.now) }
    ensures fails { result ≡ false → IsSeq registers (read.end_of end.now) → ⊥ }
    ensures status { HasStatus (read.end_of end.now) }
{
    match *end {
        WEnd::Jump(_) => true,
        WEnd::Goto(q) => q < registers,
        WEnd::Exit(status) => {
            let _read = status;
            true
        }
    }
}

/// Whether a block has code, where so many registers have homes. A `Write` stands only in front of an exit.
pub fn is_block(registers: u64, block: &WBlock) -> bool
    ensures holds { result ≡ true → IsSeq registers (read.block block.now) }
    ensures fails { result ≡ false → IsSeq registers (read.block block.now) → ⊥ }
    ensures status { HasStatus (read.end_of block.now.end) }
{
    let body = block.body.as_slice();
    let mut wrote = false;
    let ends = is_end(registers, &block.end);
    for instr in body {
        if wrote || !is_instr(registers, instr) {
            return false;
        }
        wrote = writes(instr);
    }
    ends && (!wrote || is_exit(&block.end))
}

/// Whether all blocks have code, where so many registers have homes.
pub fn are_fine(registers: u64, blocks: &[WBlock]) -> bool
    ensures holds { result ≡ true → AreFine registers blocks.now }
    ensures fails { result ≡ false → AreSeqs registers (map read.block blocks.now) → ⊥ }
{
    for block in blocks {
        if !is_block(registers, block) {
            return false;
        }
    }
    true
}
