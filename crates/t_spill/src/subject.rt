// The register of which the type tells what an instruction gives, or enters.
ghost use Rattle.std.specs.Prelude.{◌≡◌};
ghost use Rattle.t_terms.specs.Read.{base as base_tree, value as value_tree, instr as instr_tree, end_of as end_tree};
ghost use Rattle.t_spill.specs.Known.{base_subject, value_subject, subject as instr_subject, end_subject};

use t_terms::{Base, End, Instr, Value};

fn subject_of_base(base: Base) -> Option<u64>
    ensures { result ≡ base_subject (base_tree base) }
{
    match base {
        Base::Reg(r) => Some(r),
        Base::Int(_) => None,
        Base::Label(_) => None,
        Base::Data(_) => None,
    }
}

fn subject_of_value(v: &Value) -> Option<u64>
    ensures { result ≡ value_subject (value_tree v.now) }
{
    match v {
        Value::Plain { base, .. } => subject_of_base(*base),
        Value::Pack { .. } => None,
    }
}

/// The register of which an instruction needs the type, if any.
pub fn subject_of(i: &Instr) -> Option<u64>
    ensures { result ≡ instr_subject (instr_tree i.now) }
{
    match i {
        Instr::Arith { .. } => None,
        Instr::Bnz { v, .. } => subject_of_value(v),
        Instr::Ld { rs, .. } => Some(*rs),
        Instr::Malloc { .. } => None,
        Instr::Mov { v, .. } => subject_of_value(v),
        Instr::St { rd, .. } => Some(*rd),
        Instr::Unpack { v, .. } => subject_of_value(v),
    }
}

/// The register of which an end needs the type, if any.
pub fn subject_of_end(end: &End) -> Option<u64>
    ensures { result ≡ end_subject (end_tree end.now) }
{
    match end {
        End::Jmp(v) => subject_of_value(v),
        End::Halt => None,
    }
}
