// Shift and put of the types in values, instructions and ends, and how many of their variables are free.
ghost use Rattle.std.specs.Prelude.{◌≡◌, ℕ, ◌≤◌, IfOk};
ghost use Rattle.idx_core.specs.Over.{IsWord, ShiftFitsAt, PutFitsAt, BelowAt, AnyDepth, shifted, putted};
ghost use Rattle.idx_core.specs.Bound.{IsBound, Tells};
ghost use Rattle.t_types.specs.Read.{tree};
ghost use Rattle.t_types.specs.Tree.{VarTy, over, each};
ghost use Rattle.t_terms.specs.Read.{value, instr, end_of};
ghost use Rattle.t_terms.specs.Tree.{over_value, over_instr, over_end, each_value, each_instr, each_end, names_after};

use crate::instr::{End, Instr};
use crate::value::Value;
use idx_core::{OutOfMemory, Scoped, deeper};
use std::alloc::Global;
use t_types::{TType, put_type, put_types, shift_types, type_below, types_below};

pub(crate) fn shift_value(alloc: Global, v: &Value, by: u64, cut: u64) -> Result<Value, OutOfMemory>
    requires { each_value (ShiftFitsAt by) IsWord cut (value v.now) }
    ensures { IfOk result (λ r. value r ≡ over_value (shifted VarTy by) cut (value v.now)) }
{
    match v {
        Value::Plain { base, types } => {
            let types = shift_types(alloc, types, by, cut)?;
            Ok(Value::Plain { base: *base, types })
        }
        Value::Pack {
            hidden,
            inner,
            shape,
        } => {
            let hidden = hidden.shift(alloc, by, cut)?;
            let inner = shift_value(alloc, inner, by, cut)?;
            let shape = shape.shift(alloc, by, cut)?;
            Ok(Value::Pack {
                hidden: Box::new(alloc, hidden)?,
                inner: Box::new(alloc, inner)?,
                shape: Box::new(alloc, shape)?,
            })
        }
    }
}

pub(crate) fn shift_instr(alloc: Global, i: &Instr, by: u64, cut: u64) -> Result<Instr, OutOfMemory>
    requires { each_instr (ShiftFitsAt by) IsWord cut (instr i.now) }
    ensures { IfOk result (λ r. instr r ≡ over_instr (shifted VarTy by) cut (instr i.now)) }
{
    match i {
        Instr::Arith { op, rd, rs, v } => {
            let v = shift_value(alloc, v, by, cut)?;
            Ok(Instr::Arith {
                op: *op,
                rd: *rd,
                rs: *rs,
                v,
            })
        }
        Instr::Bnz { r, v } => {
            let v = shift_value(alloc, v, by, cut)?;
            Ok(Instr::Bnz { r: *r, v })
        }
        &Instr::Ld { rd, rs, field } => Ok(Instr::Ld { rd, rs, field }),
        Instr::Malloc { rd, types } => {
            let types = shift_types(alloc, types, by, cut)?;
            Ok(Instr::Malloc { rd: *rd, types })
        }
        Instr::Mov { rd, v } => {
            let v = shift_value(alloc, v, by, cut)?;
            Ok(Instr::Mov { rd: *rd, v })
        }
        &Instr::St { rd, field, rs } => Ok(Instr::St { rd, field, rs }),
        Instr::Unpack { rd, v } => {
            let v = shift_value(alloc, v, by, cut)?;
            Ok(Instr::Unpack { rd: *rd, v })
        }
    }
}

pub(crate) fn shift_end(alloc: Global, e: &End, by: u64, cut: u64) -> Result<End, OutOfMemory>
    requires { each_end (ShiftFitsAt by) IsWord cut (end_of e.now) }
    ensures { IfOk result (λ r. end_of r ≡ over_end (shifted VarTy by) cut (end_of e.now)) }
{
    match e {
        End::Jmp(v) => {
            let v = shift_value(alloc, v, by, cut)?;
            Ok(End::Jmp(v))
        }
        End::Halt => Ok(End::Halt),
    }
}

// Puts `what` for the variable that was `at` at the root, where the walk stands at `depth`.
pub(crate) fn put_value(
    alloc: Global,
    v: &Value,
    at: u64,
    depth: u64,
    what: &TType,
) -> Result<Value, OutOfMemory>
    requires deep { at ≤ depth }
    requires fits { each_value (PutFitsAt each at (tree what.now)) IsWord depth (value v.now) }
    ensures { IfOk result (λ r. value r ≡ over_value (putted VarTy over at (tree what.now)) depth (value v.now)) }
{
    match v {
        Value::Plain { base, types } => {
            let types = put_types(alloc, types, at, depth, what)?;
            Ok(Value::Plain { base: *base, types })
        }
        Value::Pack {
            hidden,
            inner,
            shape,
        } => {
            let hidden = put_type(alloc, hidden, at, depth, what)?;
            let inner = put_value(alloc, inner, at, depth, what)?;
            let shape = put_type(alloc, shape, at, depth, what)?;
            Ok(Value::Pack {
                hidden: Box::new(alloc, hidden)?,
                inner: Box::new(alloc, inner)?,
                shape: Box::new(alloc, shape)?,
            })
        }
    }
}

pub(crate) fn put_instr(
    alloc: Global,
    i: &Instr,
    at: u64,
    depth: u64,
    what: &TType,
) -> Result<Instr, OutOfMemory>
    requires deep { at ≤ depth }
    requires fits { each_instr (PutFitsAt each at (tree what.now)) IsWord depth (instr i.now) }
    ensures { IfOk result (λ r. instr r ≡ over_instr (putted VarTy over at (tree what.now)) depth (instr i.now)) }
{
    match i {
        Instr::Arith { op, rd, rs, v } => {
            let v = put_value(alloc, v, at, depth, what)?;
            Ok(Instr::Arith {
                op: *op,
                rd: *rd,
                rs: *rs,
                v,
            })
        }
        Instr::Bnz { r, v } => {
            let v = put_value(alloc, v, at, depth, what)?;
            Ok(Instr::Bnz { r: *r, v })
        }
        &Instr::Ld { rd, rs, field } => Ok(Instr::Ld { rd, rs, field }),
        Instr::Malloc { rd, types } => {
            let types = put_types(alloc, types, at, depth, what)?;
            Ok(Instr::Malloc { rd: *rd, types })
        }
        Instr::Mov { rd, v } => {
            let v = put_value(alloc, v, at, depth, what)?;
            Ok(Instr::Mov { rd: *rd, v })
        }
        &Instr::St { rd, field, rs } => Ok(Instr::St { rd, field, rs }),
        Instr::Unpack { rd, v } => {
            let v = put_value(alloc, v, at, depth, what)?;
            Ok(Instr::Unpack { rd: *rd, v })
        }
    }
}

pub(crate) fn put_end(
    alloc: Global,
    e: &End,
    at: u64,
    depth: u64,
    what: &TType,
) -> Result<End, OutOfMemory>
    requires deep { at ≤ depth }
    requires fits { each_end (PutFitsAt each at (tree what.now)) IsWord depth (end_of e.now) }
    ensures { IfOk result (λ r. end_of r ≡ over_end (putted VarTy over at (tree what.now)) depth (end_of e.now)) }
{
    match e {
        End::Jmp(v) => {
            let v = put_value(alloc, v, at, depth, what)?;
            Ok(End::Jmp(v))
        }
        End::Halt => Ok(End::Halt),
    }
}

pub(crate) fn value_below(v: &Value, bound: Option<u64>) -> bool
    ensures { Tells bound (λ n. each_value BelowAt AnyDepth n (value v.now)) result }
{
    match v {
        Value::Plain { base: _, types } => types_below(types, bound),
        Value::Pack {
            hidden,
            inner,
            shape,
        } => { type_below(hidden, bound) && value_below(inner, bound) && type_below(shape, bound) }
    }
}

pub(crate) fn instr_below(i: &Instr, bound: Option<u64>) -> bool
    ensures { Tells bound (λ n. each_instr BelowAt AnyDepth n (instr i.now)) result }
{
    match i {
        Instr::Arith {
            op: _,
            rd: _,
            rs: _,
            v,
        } => value_below(v, bound),
        Instr::Bnz { r: _, v } => value_below(v, bound),
        Instr::Ld {
            rd: _,
            rs: _,
            field: _,
        } => true,
        Instr::Malloc { rd: _, types } => types_below(types, bound),
        Instr::Mov { rd: _, v } => value_below(v, bound),
        Instr::St {
            rd: _,
            field: _,
            rs: _,
        } => true,
        Instr::Unpack { rd: _, v } => value_below(v, bound),
    }
}

pub(crate) fn end_below(e: &End, bound: Option<u64>) -> bool
    ensures { Tells bound (λ n. each_end BelowAt AnyDepth n (end_of e.now)) result }
{
    match e {
        End::Jmp(v) => value_below(v, bound),
        End::Halt => true,
    }
}

/// The number of type names after an instruction, where there are `names` before it: an unpack binds one.
pub fn names_after(i: &Instr, names: u64) -> u64
    requires { IsWord (names_after (instr i.now) names) }
    ensures { result ≡ names_after (instr i.now) names }
{
    match i {
        Instr::Unpack { rd: _, v: _ } => names + 1,
        _ => names,
    }
}

// The bound on indices after an instruction, where `None` is past every index.
pub(crate) fn bound_after(i: &Instr, bound: Option<u64>) -> Option<u64>
    ensures { (n : ℕ) → IsBound bound n → IsBound result (names_after (instr i.now) n) }
{
    match i {
        Instr::Unpack { rd: _, v: _ } => deeper(bound, 1),
        _ => bound,
    }
}
