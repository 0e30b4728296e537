// The types of values, as functions of what is known of the registers.
ghost use Rattle.std.specs.Prelude.{◌≡◌, ◌<◌, ℕ, IfOk, length, slice_get, option_map};
ghost use Rattle.t_types.specs.Read.{tree, file, fields};
ghost use Rattle.t_terms.specs.Whole.{WellFormedBase};
ghost use Rattle.t_terms.specs.Read.{base as base_tree, value as value_tree, instr as instr_tree, end_of as end_tree};
ghost use Rattle.t_terms.specs.Read.{data_fields as data_items};
ghost use Rattle.t_terms.specs.Spanned.{plain_fields};
ghost use Rattle.t_terms.specs.ReadProgram.{program as program_tree};
ghost use Rattle.t_types.specs.Fits.{lookup};
ghost use Rattle.t_terms.specs.Labels.{data_fields, label_type, data_type};
ghost use Rattle.t_spill_rules.specs.Spill.{or_int, base_type, type_of, target_file, target as instr_target};
ghost use Rattle.t_spill_rules.specs.Spill.{end_target};
ghost use Rattle.t_spill.specs.Ready.{Typable, InstrTypable, ReadyEnd};

use crate::applied::applied;
use idx_core::{OutOfMemory, Span};
use std::alloc::Global;
use t_terms::{Base, End, Instr, TProgram, Value};
use t_types::{TType, copy, copy_file, find};

// The fields of a data tuple, all of them initialised.
fn fields_of(
    alloc: Global,
    items: &[(Value, TType, Span)],
) -> Result<Vec<(TType, bool)>, OutOfMemory>
    ensures { IfOk result (λ r. fields r.items ≡ data_fields (plain_fields (data_items items.now))) }
{
    let mut made = Vec::new(alloc);
    for item in items {
        let t = copy(alloc, &item.1)?;
        made.push((t, true))?;
    }
    Ok(made)
}

fn type_of_label(alloc: Global, program: &TProgram, l: u64) -> Result<TType, OutOfMemory>
    requires { l < length program.now.blocks.items }
    ensures { IfOk result (λ t.
        tree t ≡ or_int (option_map label_type (slice_get (program_tree program.now).blocks l))) }
{
    let block = &program.blocks[l as usize];
    let regs = copy_file(alloc, &block.regs)?;
    Ok(TType::Code {
        owes: block.owes,
        regs,
    })
}

fn type_of_data(alloc: Global, program: &TProgram, d: u64) -> Result<TType, OutOfMemory>
    requires { d < length program.now.heap.items }
    ensures { IfOk result (λ t.
        tree t ≡ or_int (option_map data_type (slice_get (program_tree program.now).heap d))) }
{
    let tuple = &program.heap[d as usize];
    let fields = fields_of(alloc, &tuple.fields)?;
    Ok(TType::Tuple(fields))
}

// A register's type; `Int` where it has none.
fn type_of_register(alloc: Global, regs: &[(u64, TType)], r: u64) -> Result<TType, OutOfMemory>
    ensures { IfOk result (λ t. tree t ≡ or_int (lookup (file regs.now) r)) }
{
    match find(regs, r) {
        Some(t) => copy(alloc, t),
        None => Ok(TType::Int),
    }
}

fn type_of_base(
    alloc: Global,
    program: &TProgram,
    regs: &[(u64, TType)],
    base: Base,
) -> Result<TType, OutOfMemory>
    requires { WellFormedBase (length (program_tree program.now).blocks) (length (program_tree program.now).heap)
        (base_tree base) }
    ensures { IfOk result (λ t. tree t ≡ base_type (program_tree program.now) (file regs.now) (base_tree base)) }
{
    match base {
        Base::Reg(r) => type_of_register(alloc, regs, r),
        Base::Int(_) => Ok(TType::Int),
        Base::Label(l) => type_of_label(alloc, program, l),
        Base::Data(d) => type_of_data(alloc, program, d),
    }
}

/// The type of a value.
pub fn type_of_value(
    alloc: Global,
    program: &TProgram,
    regs: &[(u64, TType)],
    v: &Value,
) -> Result<TType, OutOfMemory>
    requires { Typable (program_tree program.now) (file regs.now) (value_tree v.now) }
    ensures { IfOk result (λ t. tree t ≡ type_of (program_tree program.now) (file regs.now) (value_tree v.now)) }
{
    match v {
        Value::Plain { base, types } => {
            let found = type_of_base(alloc, program, regs, *base)?;
            if types.is_empty() {
                return Ok(found);
            }
            applied(alloc, found, types)
        }
        Value::Pack { shape, .. } => copy(alloc, shape),
    }
}

// The registers of what has this type, if it is code.
fn regs_of(alloc: Global, t: TType) -> Vec<(u64, TType)>
    ensures { file result.items ≡ target_file (tree t) }
{
    match t {
        TType::Code { regs, .. } => regs.regs,
        TType::Int | TType::Var(_) | TType::Exists(_) | TType::Tuple(_) => Vec::new(alloc),
    }
}

/// The registers of what an instruction may enter.
pub fn target(
    alloc: Global,
    program: &TProgram,
    regs: &[(u64, TType)],
    i: &Instr,
) -> Result<Vec<(u64, TType)>, OutOfMemory>
    requires { InstrTypable (program_tree program.now) (file regs.now) (instr_tree i.now) }
    ensures { IfOk result (λ r.
        file r.items ≡ instr_target (program_tree program.now) (file regs.now) (instr_tree i.now)) }
{
    match i {
        Instr::Bnz { v, .. } => {
            let t = type_of_value(alloc, program, regs, v)?;
            Ok(regs_of(alloc, t))
        }
        _ => Ok(Vec::new(alloc)),
    }
}

/// The registers of what an end enters.
pub fn target_of_end(
    alloc: Global,
    program: &TProgram,
    regs: &[(u64, TType)],
    end: &End,
) -> Result<Vec<(u64, TType)>, OutOfMemory>
    requires { (n : ℕ) × ReadyEnd (program_tree program.now) n (file regs.now) (end_tree end.now) }
    ensures { IfOk result (λ r.
        file r.items ≡ end_target (program_tree program.now) (file regs.now) (end_tree end.now)) }
{
    match end {
        End::Jmp(v) => {
            let t = type_of_value(alloc, program, regs, v)?;
            Ok(regs_of(alloc, t))
        }
        End::Halt => Ok(Vec::new(alloc)),
    }
}
