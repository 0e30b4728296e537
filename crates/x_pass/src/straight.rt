// The instructions of an instruction of word code that goes on to the next one.
ghost use Rattle.std.specs.Prelude.{◌≡◌, ◌<◌, ◌≤◌, ◌^◌, ◌++◌, ◌∷◌, [], OnOk, IfOk, nat_eq};
ghost use Rattle.std.specs.Bool.{OnTrue};
ghost use Rattle.x_laws.specs.Straight as spec;
ghost use Rattle.x_laws.specs.Straight.{operation, arith_by, bring_right, right};
ghost use Rattle.x_pass.specs.Homes.{home, home_of};
ghost use Rattle.x_pass.specs.Short.{HasShortOffset};
ghost use Rattle.w_terms.specs.Read as read;

use crate::home::{Home, home_at};
use idx_core::OutOfMemory;
use w_terms::{WInstr, WOp, WOperand};
use x_terms::{Address, Instr, Op, Register, Shift, Source};

pub(crate) fn put(out: &mut Vec<Instr>, instr: Instr) -> Result<(), OutOfMemory>
    ensures { OnOk result (out.new.items ≡ out.old.items ++ (instr ∷ [])) }
{
    out.push(instr)?;
    Ok(())
}

pub(crate) fn fetch(out: &mut Vec<Instr>, to: Register, home: Home) -> Result<(), OutOfMemory>
    ensures { OnOk result (out.new.items ≡ out.old.items ++ spec.fetch to (home_of home)) }
{
    match home {
        Home::InRegister(q) => put(out, Instr::Mov(to, Source::Reg(q))),
        Home::InSlot(a) => put(out, Instr::Load(to, Address::Absolute(a))),
    }
}

fn keep(out: &mut Vec<Instr>, home: Home, from: Register) -> Result<(), OutOfMemory>
    ensures { OnOk result (out.new.items ≡ out.old.items ++ spec.keep (home_of home) from) }
{
    match home {
        Home::InRegister(q) => put(out, Instr::Mov(q, Source::Reg(from))),
        Home::InSlot(a) => put(out, Instr::Store(Address::Absolute(a), from)),
    }
}

pub(crate) fn target(home: Home) -> Register
    ensures { result ≡ spec.target (home_of home) }
{
    match home {
        Home::InRegister(q) => q,
        Home::InSlot(_) => Register::Rax,
    }
}

pub(crate) fn finish(out: &mut Vec<Instr>, home: Home) -> Result<(), OutOfMemory>
    ensures { OnOk result (out.new.items ≡ out.old.items ++ spec.finish (home_of home)) }
{
    match home {
        Home::InRegister(_) => Ok(()),
        Home::InSlot(a) => put(out, Instr::Store(Address::Absolute(a), Register::Rax)),
    }
}

pub(crate) fn hand(t: Register, home: Home) -> Register
    ensures { result ≡ spec.hand t (home_of home) }
{
    match home {
        Home::InRegister(q) => q,
        Home::InSlot(_) => t,
    }
}

pub(crate) fn bring(out: &mut Vec<Instr>, t: Register, home: Home) -> Result<(), OutOfMemory>
    ensures { OnOk result (out.new.items ≡ out.old.items ++ spec.bring t (home_of home)) }
{
    match home {
        Home::InRegister(_) => Ok(()),
        Home::InSlot(a) => put(out, Instr::Load(t, Address::Absolute(a))),
    }
}

fn const_code(out: &mut Vec<Instr>, to: Home, number: u64) -> Result<(), OutOfMemory>
    ensures { OnOk result
        (out.new.items ≡ out.old.items ++ (Instr.Const (spec.target (home_of to)) number ∷ spec.finish (home_of to))) }
{
    put(out, Instr::Const(target(to), number))?;
    finish(out, to)
}

fn move_code(out: &mut Vec<Instr>, to: Home, from: Home) -> Result<(), OutOfMemory>
    ensures { OnOk result
        (out.new.items
        ≡ out.old.items ++ (spec.fetch (spec.target (home_of to)) (home_of from) ++ spec.finish (home_of to))) }
{
    fetch(out, target(to), from)?;
    finish(out, to)
}

// Whether a number stands in the instruction.
pub(crate) fn is_short(op: WOp, number: u64) -> bool
    ensures says { result ≡ spec.is_short op number }
    ensures fits { OnTrue result (number < 2 ^ 31) }
{
    match op {
        WOp::Mul => false,
        WOp::Shl => number < 64,
        WOp::Shr => number < 64,
        WOp::Add => number < 0x8000_0000,
        WOp::Sub => number < 0x8000_0000,
        WOp::And => number < 0x8000_0000,
        WOp::Or => number < 0x8000_0000,
    }
}

// A number as a right operand, in the instruction or in RCX.
fn bring_number(out: &mut Vec<Instr>, op: WOp, number: u64) -> Result<Source, OutOfMemory>
    ensures put { OnOk result (out.new.items ≡ out.old.items ++ spec.bring_number (spec.is_short op number) number) }
    ensures is { IfOk result (λ s. s ≡ spec.number_source (spec.is_short op number) number) }
{
    if is_short(op, number) {
        return Ok(Source::Int(number as i32));
    }
    put(out, Instr::Const(Register::Rcx, number))?;
    Ok(Source::Reg(Register::Rcx))
}

// A right operand.
pub(crate) fn bring_operand(
    out: &mut Vec<Instr>,
    op: WOp,
    v: WOperand,
) -> Result<Source, OutOfMemory>
    ensures put { OnOk result (out.new.items ≡ out.old.items ++ bring_right home op v) }
    ensures is { IfOk result (λ s. s ≡ right home op v) }
{
    match v {
        WOperand::Reg(q) => {
            let from = home_at(q);
            bring(out, Register::Rcx, from)?;
            Ok(Source::Reg(hand(Register::Rcx, from)))
        }
        WOperand::Num(number) => bring_number(out, op, number),
    }
}

// A shift by a number. By a register there is none, and no program that is taken has one.
fn put_shift(
    out: &mut Vec<Instr>,
    shift: Shift,
    to: Register,
    v: WOperand,
) -> Result<(), OutOfMemory>
    ensures up { OnOk result (out.new.items ≡ out.old.items ++ spec.shifted_by shift to (right home WOp.Shl v)) }
    ensures down { OnOk result (out.new.items ≡ out.old.items ++ spec.shifted_by shift to (right home WOp.Shr v)) }
{
    match v {
        WOperand::Reg(_) => Ok(()),
        WOperand::Num(number) => {
            if number < 64 {
                return put(out, Instr::Shift(shift, to, number as u8));
            }
            Ok(())
        }
    }
}

// An operation on a register and a right operand, which stands in the source.
fn put_operation(
    out: &mut Vec<Instr>,
    op: WOp,
    to: Register,
    source: Source,
    v: WOperand,
) -> Result<(), OutOfMemory>
    requires { source ≡ right home op v }
    ensures { OnOk result (out.new.items ≡ out.old.items ++ operation op to source) }
{
    match op {
        WOp::Add => put(out, Instr::Arith(Op::Add, to, source)),
        WOp::Sub => put(out, Instr::Arith(Op::Sub, to, source)),
        WOp::And => put(out, Instr::Arith(Op::And, to, source)),
        WOp::Or => put(out, Instr::Arith(Op::Or, to, source)),
        WOp::Mul => put_product(out, to, source),
        WOp::Shl => put_shift(out, Shift::Shl, to, v),
        WOp::Shr => put_shift(out, Shift::Shr, to, v),
    }
}

fn put_product(out: &mut Vec<Instr>, to: Register, source: Source) -> Result<(), OutOfMemory>
    ensures { OnOk result (out.new.items ≡ out.old.items ++ spec.product to source) }
{
    match source {
        Source::Reg(r) => put(out, Instr::Imul(to, r)),
        Source::Int(_) => Ok(()),
    }
}

fn load_code(out: &mut Vec<Instr>, to: Home, from: Home, bytes: i32) -> Result<(), OutOfMemory>
    ensures { OnOk result
        (out.new.items
        ≡ out.old.items
        ++ (spec.bring Register.Rax (home_of from)
        ++ (Instr.Load (spec.target (home_of to))
        (Address.Based (spec.hand Register.Rax (home_of from)) bytes)
        ∷ spec.finish (home_of to)))) }
{
    bring(out, Register::Rax, from)?;
    put(
        out,
        Instr::Load(target(to), Address::Based(hand(Register::Rax, from), bytes)),
    )?;
    finish(out, to)
}

fn store_code(out: &mut Vec<Instr>, at: Home, bytes: i32, from: Home) -> Result<(), OutOfMemory>
    ensures { OnOk result
        (out.new.items
        ≡ out.old.items
        ++ (spec.bring Register.Rax (home_of at) ++ spec.bring Register.Rcx (home_of from)
        ++ (Instr.Store (Address.Based (spec.hand Register.Rax (home_of at)) bytes)
        (spec.hand Register.Rcx (home_of from))
        ∷ []))) }
{
    bring(out, Register::Rax, at)?;
    bring(out, Register::Rcx, from)?;
    put(
        out,
        Instr::Store(
            Address::Based(hand(Register::Rax, at), bytes),
            hand(Register::Rcx, from),
        ),
    )
}

fn in_place(out: &mut Vec<Instr>, op: WOp, q: Register, v: WOperand) -> Result<(), OutOfMemory>
    ensures { OnOk result
        (out.new.items ≡ out.old.items ++ (bring_right home op v ++ operation op q (right home op v))) }
{
    let source = bring_operand(out, op, v)?;
    put_operation(out, op, q, source, v)
}

fn through_rax(
    out: &mut Vec<Instr>,
    op: WOp,
    to: Home,
    left: Home,
    v: WOperand,
) -> Result<(), OutOfMemory>
    ensures { OnOk result
        (out.new.items
        ≡ out.old.items
        ++ (spec.fetch Register.Rax (home_of left) ++ bring_right home op v
        ++ operation op Register.Rax (right home op v)
        ++ spec.keep (home_of to) Register.Rax)) }
{
    fetch(out, Register::Rax, left)?;
    in_place(out, op, Register::Rax, v)?;
    keep(out, to, Register::Rax)
}

fn arith_code(
    out: &mut Vec<Instr>,
    op: WOp,
    rd: u64,
    rs: u64,
    v: WOperand,
) -> Result<(), OutOfMemory>
    ensures { OnOk result
        (out.new.items
        ≡ out.old.items
        ++ arith_by (nat_eq rd rs) (home rd) (home rs) op (bring_right home op v)
        (right home op v)) }
{
    let (to, left) = (home_at(rd), home_at(rs));
    if rd != rs {
        return through_rax(out, op, to, left, v);
    }
    match to {
        Home::InRegister(q) => in_place(out, op, q, v),
        Home::InSlot(_) => through_rax(out, op, to, left, v),
    }
}

/// Puts the instructions of an instruction of word code that goes straight on behind others; for any other one it puts
/// none. An error is want of memory.
pub fn put_straight(out: &mut Vec<Instr>, instr: &WInstr) -> Result<(), OutOfMemory>
    requires { HasShortOffset (read.instr instr.now) }
    ensures { OnOk result (out.new.items ≡ out.old.items ++ spec.straight home (read.instr instr.now)) }
{
    match *instr {
        WInstr::Const { rd, number } => const_code(out, home_at(rd), number),
        WInstr::Move { rd, rs } => move_code(out, home_at(rd), home_at(rs)),
        WInstr::Arith { op, rd, rs, v } => arith_code(out, op, rd, rs, v),
        WInstr::Load { rd, ra, bytes } => load_code(out, home_at(rd), home_at(ra), bytes as i32),
        WInstr::Store { ra, bytes, rs } => store_code(out, home_at(ra), bytes as i32, home_at(rs)),
        _ => Ok(()),
    }
}
