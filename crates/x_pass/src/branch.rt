// A conditional jump, and all instructions.
ghost use Rattle.std.specs.Prelude.{◌≡◌, ◌≤◌, ◌+◌, ◌^◌, ◌++◌, ◌∷◌, [], length, OnOk};
ghost use Rattle.x_laws.specs.Code as spec_code;
ghost use Rattle.x_laws.specs.Core.{bytes_all};
ghost use Rattle.x_laws.specs.Straight as spec;
ghost use Rattle.x_pass.specs.Homes.{home, home_of};
ghost use Rattle.x_pass.specs.Layout.{AreNear, place_of};
ghost use Rattle.x_pass.specs.Short.{HasShortOffset};
ghost use Rattle.x_code.specs.Bytes.{bytes_of};
ghost use Rattle.w_terms.specs.Read as read;

use crate::blocks::{
    condition, encode_all, far, goto_code, leave, place_code, write_loop, written,
};
use crate::home::{Home, home_at};
use crate::layout::{Labels, place_at};
use crate::straight::{bring, bring_operand, hand, is_short, put, put_straight};
use idx_core::OutOfMemory;
use std::alloc::Global;
use w_terms::{WCond, WEnd, WInstr, WOp, WOperand};
use x_terms::{Instr, Op, Register};

fn bring_size(from: Home) -> u64
    ensures is { result ≡ length (bytes_all (spec.bring Register.Rax (home_of from))) }
    ensures right { result ≡ length (bytes_all (spec.bring Register.Rcx (home_of from))) }
    ensures small { result ≤ 8 }
{
    match from {
        Home::InRegister(_) => 0,
        Home::InSlot(_) => 8,
    }
}

fn operand_size(v: WOperand) -> u64
    ensures is { result ≡ length (bytes_all (spec.bring_right home WOp.Sub v)) }
    ensures small { result ≤ 10 }
{
    match v {
        WOperand::Reg(q) => bring_size(home_at(q)),
        WOperand::Num(number) => {
            if is_short(WOp::Sub, number) {
                return 0;
            }
            10
        }
    }
}

fn compare_size(v: WOperand) -> u64
    ensures is { (q : Register) → result ≡ length (bytes_of (Instr.Arith Op.Cmp q (spec.right home WOp.Sub v))) }
    ensures small { result ≤ 7 }
{
    match v {
        WOperand::Reg(_) => 3,
        WOperand::Num(number) => {
            if is_short(WOp::Sub, number) {
                return 7;
            }
            3
        }
    }
}

// How long the comparison of a branch is, with all that it brings.
#[tactic(auto, using(crate::proofs::Sizes::both_size))]
fn both_size(rs: u64, v: WOperand) -> u64
    ensures is { result ≡ length (bytes_all (spec_code.both home rs v)) }
    ensures small { result ≤ 18 }
{
    bring_size(home_at(rs)) + operand_size(v)
}

// The address behind a branch.
fn branch_end(at: u64, rs: u64, v: WOperand) -> u64
    requires { at ≤ 2 ^ 28 }
    ensures is { result
        ≡ at + length (bytes_all (spec_code.both home rs v)) + length (bytes_of (spec_code.compare home rs v)) + 6 }
    ensures near { result ≤ 2 ^ 28 + 31 }
{
    at + both_size(rs, v) + compare_size(v) + 6
}

// Puts the comparison of a branch, with all that it brings.
fn put_compare(out: &mut Vec<Instr>, rs: u64, v: WOperand) -> Result<(), OutOfMemory>
    ensures { OnOk result
        (out.new.items ≡ out.old.items ++ (spec_code.both home rs v ++ (spec_code.compare home rs v ∷ []))) }
{
    let left = home_at(rs);
    bring(out, Register::Rax, left)?;
    let source = bring_operand(out, WOp::Sub, v)?;
    put(
        out,
        Instr::Arith(Op::Cmp, hand(Register::Rax, left), source),
    )
}

// Puts the jump of a branch, behind which the address `next` is.
fn put_jump_if(
    out: &mut Vec<Instr>,
    labels: &Labels,
    next: u64,
    test: WCond,
    l: u64,
) -> Result<(), OutOfMemory>
    requires next_near { next ≤ 2 ^ 28 + 31 }
    requires near { AreNear labels.now }
    ensures { OnOk result
        (out.new.items
        ≡ out.old.items
        ++ (Instr.Jcc (spec_code.condition test) (spec_code.far next (place_of labels.now l)) ∷ [])) }
{
    let to = place_at(labels, l);
    put(out, Instr::Jcc(condition(test), far(next, to)))
}

fn write_code(out: &mut Vec<Instr>, to: u64, ra: u64, rn: u64) -> Result<(), OutOfMemory>
    ensures { OnOk result
        (out.new.items ≡ out.old.items ++ (spec_code.written home to ra rn ++ spec_code.write_loop to)) }
{
    written(out, to, ra, rn)?;
    write_loop(out, to)
}

/// Puts the instructions of an instruction of word code that stands at an address behind others. An error is want of
/// memory.
pub fn put_instr(
    out: &mut Vec<Instr>,
    labels: &Labels,
    at: u64,
    instr: &WInstr,
) -> Result<(), OutOfMemory>
    requires here { at ≤ 2 ^ 28 }
    requires near { AreNear labels.now }
    requires short { HasShortOffset (read.instr instr.now) }
    ensures { OnOk result
        (out.new.items
        ≡ out.old.items ++ spec_code.instr_code home (place_of labels.now) at (read.instr instr.now)) }
{
    match *instr {
        WInstr::Place { rd, label } => place_code(out, labels, rd, label),
        WInstr::Branch { cond, rs, v, label } => {
            put_compare(out, rs, v)?;
            put_jump_if(out, labels, branch_end(at, rs, v), cond, label)
        }
        WInstr::Write { to, ra, rn } => write_code(out, to, ra, rn),
        WInstr::Const { rd: _, number: _ } => put_straight(out, instr),
        WInstr::Move { rd: _, rs: _ } => put_straight(out, instr),
        WInstr::Arith {
            op: _,
            rd: _,
            rs: _,
            v: _,
        } => put_straight(out, instr),
        WInstr::Load {
            rd: _,
            ra: _,
            bytes: _,
        } => put_straight(out, instr),
        WInstr::Store {
            ra: _,
            bytes: _,
            rs: _,
        } => put_straight(out, instr),
    }
}

/// Puts the instructions of the end of a block that stands at an address behind others. An error is want of memory.
pub fn put_end(
    out: &mut Vec<Instr>,
    labels: &Labels,
    at: u64,
    end: &WEnd,
) -> Result<(), OutOfMemory>
    requires here { at ≤ 2 ^ 28 }
    requires near { AreNear labels.now }
    ensures { OnOk result
        (out.new.items ≡ out.old.items ++ spec_code.seq_code home (place_of labels.now) at (read.end_of end.now)) }
{
    match *end {
        WEnd::Jump(l) => {
            let to = place_at(labels, l);
            put(out, Instr::Jmp(far(at + 5, to)))
        }
        WEnd::Goto(q) => goto_code(out, q),
        WEnd::Exit(status) => leave(out, status),
    }
}

/// Puts the bytes of an instruction of word code at the end of the code, which begins at the address `base`. An error
/// is want of memory.
pub fn emit(
    alloc: Global,
    code: &mut Vec<u8>,
    base: u64,
    labels: &Labels,
    instr: &WInstr,
) -> Result<(), OutOfMemory>
    requires here { base + length code.old.items ≤ 2 ^ 28 }
    requires near { AreNear labels.now }
    requires short { HasShortOffset (read.instr instr.now) }
    ensures { OnOk result
        (code.new.items
        ≡ code.old.items
        ++ bytes_all
        (spec_code.instr_code home (place_of labels.now) (base + length code.old.items) (read.instr instr.now))) }
{
    let at = base + code.len() as u64;
    let mut out = Vec::new(alloc);
    put_instr(&mut out, labels, at, instr)?;
    encode_all(code, &out)
}
