// Single instructions.
ghost use Rattle.std.specs.Prelude.{◌≡◌, [], OnOk, IfOk};
ghost use Rattle.t_terms.specs.Tree.{TSeq, Then, Plain};
ghost use Rattle.t_terms.specs.Read.{instr as instr_tree, value as value_tree, base as base_tree};
ghost use Rattle.t_gen_rules.specs.Gen.{inside, boxed as boxed_code, move as move_code, home, settle};
ghost use Rattle.t_emit.specs.Code.{Grows, bare as bare_register};

use idx_core::{OutOfMemory, Span};
use std::alloc::Global;
use t_terms::{Base, Instr, Value};

/// No place in a text.
pub const NOWHERE: Span = Span { start: 0, end: 0 };

/// One more instruction. An error is want of memory.
pub fn put(code: &mut Vec<(Instr, Span)>, i: Instr) -> Result<(), OutOfMemory>
    ensures { OnOk result (Grows code.old.items code.new.items (Then (instr_tree i))) }
{
    code.push((i, NOWHERE))?;
    Ok(())
}

/// A base without types.
pub fn plain(alloc: Global, base: Base) -> Value
    ensures { value_tree result ≡ Plain (base_tree base) [] }
{
    Value::Plain {
        base,
        types: Vec::new(alloc),
    }
}

// The register that the value is.
pub(crate) fn bare(v: &Value) -> Option<u64>
    ensures { result ≡ bare_register (value_tree v.now) }
{
    match v {
        Value::Plain { base, types } => {
            if types.len() > 0 {
                return None;
            }
            match base {
                Base::Reg(r) => Some(*r),
                Base::Int(_) => None,
                Base::Label(_) => None,
                Base::Data(_) => None,
            }
        }
        Value::Pack { .. } => None,
    }
}

// A package is put into register `spare`; any other value stays as it is. An error is want of memory.
pub(crate) fn boxed(
    alloc: Global,
    code: &mut Vec<(Instr, Span)>,
    spare: u64,
    v: Value,
) -> Result<Value, OutOfMemory>
    ensures value { IfOk result (λ r. value_tree r ≡ inside spare (value_tree v)) }
    ensures code { OnOk result (Grows code.old.items code.new.items (boxed_code spare (value_tree v))) }
{
    match v {
        Value::Plain { base, types } => Ok(Value::Plain { base, types }),
        Value::Pack {
            hidden,
            inner,
            shape,
        } => {
            let v = Value::Pack {
                hidden,
                inner,
                shape,
            };
            put(code, Instr::Mov { rd: spare, v })?;
            Ok(plain(alloc, Base::Reg(spare)))
        }
    }
}

/// A value is put into register r, unless it stands there. An error is want of memory.
pub fn emit_move(code: &mut Vec<(Instr, Span)>, r: u64, v: Value) -> Result<(), OutOfMemory>
    ensures { OnOk result (Grows code.old.items code.new.items (move_code r (value_tree v))) }
{
    match bare(&v) {
        Some(q) => {
            if q == r {
                return Ok(());
            }
            put(code, Instr::Mov { rd: r, v })
        }
        None => put(code, Instr::Mov { rd: r, v }),
    }
}

/// A value that is no register is put into register `spare`: where it is then. An error is want of memory.
pub fn emit_settle(code: &mut Vec<(Instr, Span)>, spare: u64, v: Value) -> Result<u64, OutOfMemory>
    ensures value { IfOk result (λ r. r ≡ home spare (value_tree v)) }
    ensures code { OnOk result (Grows code.old.items code.new.items (settle spare (value_tree v))) }
{
    match bare(&v) {
        Some(r) => Ok(r),
        None => {
            put(code, Instr::Mov { rd: spare, v })?;
            Ok(spare)
        }
    }
}
