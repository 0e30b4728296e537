// The registers, labels and operands of word code.
ghost use Rattle.std.specs.Prelude.{◌≡◌, ℕ, ◌*◌, IfOk, slice_index};
ghost use Rattle.t_terms.specs.Read.{base as base_tree, value as value_tree};
ghost use Rattle.t_rules.specs.Erase.{erase_value};
ghost use Rattle.w_terms.specs.Read.{instr, end_of};
ghost use Rattle.w_rooms.specs.Numbers.{reg, entry};
ghost use Rattle.w_laws.specs.Code.{word_op_of};
ghost use Rattle.w_laws.specs.Translate.{operand_of, move_of, jump_of};

use idx_core::{Op, OutOfMemory};
use t_terms::{Base, Value};
use w_terms::{WEnd, WInstr, WOp, WOperand};

// Register q of the program; those below are the runtime's.
pub(crate) fn register(q: u64) -> Result<u64, OutOfMemory>
    ensures { IfOk result (λ n. n ≡ reg q) }
{
    match q.checked_add(16) {
        Some(n) => Ok(n),
        None => Err(OutOfMemory),
    }
}

// The label of a block; those below are the runtime's.
pub(crate) fn label(l: u64) -> Result<u64, OutOfMemory>
    ensures { IfOk result (λ n. n ≡ entry l) }
{
    match l.checked_add(19) {
        Some(n) => Ok(n),
        None => Err(OutOfMemory),
    }
}

// How far a field is from the first one.
pub(crate) fn offset(field: u64) -> Result<u64, OutOfMemory>
    ensures { IfOk result (λ n. n ≡ 8 * field) }
{
    match field.checked_mul(8) {
        Some(n) => Ok(n),
        None => Err(OutOfMemory),
    }
}

pub(crate) fn word_op(op: Op) -> WOp
    ensures { result ≡ word_op_of op }
{
    match op {
        Op::Add => WOp::Add,
        Op::Sub => WOp::Sub,
        Op::Mul => WOp::Mul,
    }
}

// What a value is without its types and packages.
pub(crate) fn base_of(v: &Value) -> Base
    ensures { base_tree result ≡ erase_value (value_tree v.now) }
{
    match v {
        Value::Plain { base, types: _ } => *base,
        Value::Pack {
            hidden: _,
            inner,
            shape: _,
        } => base_of(inner),
    }
}

// The right operand of an operation. What is no integer, with which no accepted program computes, counts as 0.
pub(crate) fn operand(base: Base) -> Result<WOperand, OutOfMemory>
    ensures { IfOk result (λ v. v ≡ operand_of (base_tree base)) }
{
    match base {
        Base::Reg(q) => {
            let r = register(q)?;
            Ok(WOperand::Reg(r))
        }
        Base::Int(i) => Ok(WOperand::Num(i.cast_unsigned())),
        Base::Label(_) => Ok(WOperand::Num(0)),
        Base::Data(_) => Ok(WOperand::Num(0)),
    }
}

// A move to a register, where `places` has the address of each data tuple.
pub(crate) fn moving(rd: u64, base: Base, places: &[u64]) -> Result<WInstr, OutOfMemory>
    ensures { IfOk result (λ i. instr i ≡ move_of (slice_index places.now) rd (base_tree base)) }
{
    let rd = register(rd)?;
    match base {
        Base::Reg(q) => {
            let rs = register(q)?;
            Ok(WInstr::Move { rd, rs })
        }
        Base::Int(i) => Ok(WInstr::Const {
            rd,
            number: i.cast_unsigned(),
        }),
        Base::Label(l) => {
            let label = label(l)?;
            Ok(WInstr::Place { rd, label })
        }
        Base::Data(d) => {
            let number = address(places, d);
            Ok(WInstr::Const { rd, number })
        }
    }
}

// The address of a data tuple, or 0 where there is no such tuple.
pub(crate) fn address(places: &[u64], d: u64) -> u64
    ensures { result ≡ slice_index places.now d }
{
    match places.get(d as usize) {
        Some(a) => *a,
        None => 0,
    }
}

// The end of a block that jumps. What is no code, to which no accepted program jumps, counts as the block of the end.
pub(crate) fn jump(base: Base) -> Result<WEnd, OutOfMemory>
    ensures { IfOk result (λ e. end_of e ≡ jump_of (base_tree base)) }
{
    match base {
        Base::Reg(q) => {
            let r = register(q)?;
            Ok(WEnd::Goto(r))
        }
        Base::Label(l) => {
            let l = label(l)?;
            Ok(WEnd::Jump(l))
        }
        Base::Int(_) => Ok(WEnd::Jump(1)),
        Base::Data(_) => Ok(WEnd::Jump(1)),
    }
}
