// Instructions, each as the typing rules say: its checks in order, and what is known of the registers after it.
ghost use Rattle.std.specs.Prelude.{◌≡◌, ◌+◌, ◌≤◌, List, [], IfSome};
ghost use Rattle.idx_core.specs.declared.arith.Op as operations;
ghost use Rattle.idx_core.specs.declared.span.Span as places;
ghost use Rattle.t_types.specs.Tree.{Ty};
ghost use Rattle.t_types.specs.WellFormed.{IsRegister, max_names, max_number, WellFormedTypes};
ghost use Rattle.t_types.specs.Read.{types as type_trees};
ghost use Rattle.t_terms.specs.Tree.{Arith, Bnz, Halt, Ld, Malloc, Mov, Plain, Reg, St, Unpack, names_after};
ghost use Rattle.t_terms.specs.Read.{base as base_tree, value, instr, end_of};
ghost use Rattle.t_intern.specs.Grown.{Grown};
ghost use Rattle.t_known.specs.Known.{known, IsSound};
ghost use Rattle.t_check.specs.Verdict.{FormedAt, FormedInstr, FormedEnd, KnowsByNumber, EndedAt, StepsTo, IsIntegerIn};
ghost use Rattle.t_check.specs.Verdict.{IsFieldOf, IsStored};

use crate::checker::Checker;
use idx_core::Span;
use t_intern::Types;
use t_known::{Odds, Refusal, at_odds, exists_body, flag_of, is_int, refused, tuple_of};
use t_terms::{Base, End, Instr, TCode, Value};
use t_types::TType;

// The registers of an instruction, as it names them: the one that it is about, and the one that it reads.
#[derive(Clone, Copy)]
struct Operands {
    rd: u64,
    rs: u64,
}

impl Checker<'_> {
    pub(crate) fn check_instr(
        &mut self,
        types: &mut Types,
        i: &Instr,
        span: Span,
    ) -> Result<(), Refusal>
        requires place { KnowsByNumber types.old self.old }
        requires instr { FormedInstr self.old.program.now self.old.registers.names (instr i.now) }
        requires few { names_after (instr i.now) self.old.registers.names ≤ max_names }
        ensures grown { Grown types.old types.new }
        ensures step { StepsTo types.old types.new self.old self.new span (instr i.now) result }
        ensures program { self.new.program ≡ self.old.program }
        ensures labels { self.new.labels ≡ self.old.labels }
    {
        match i {
            Instr::Arith { op: _, rd, rs, v } => {
                let (rd, rs) = (*rd, *rs);
                self.check_arith(types, Operands { rd, rs }, v, span)
            }
            Instr::Bnz { r, v } => self.check_bnz(types, *r, v, span),
            Instr::Ld { rd, rs, field } => {
                let (rd, rs) = (*rd, *rs);
                self.check_ld(types, Operands { rd, rs }, *field, span)
            }
            Instr::Malloc { rd, types: fields } => self.check_malloc(types, *rd, fields),
            Instr::Mov { rd, v } => self.check_mov(types, *rd, v, span),
            Instr::St { rd, field, rs } => {
                let (rd, rs) = (*rd, *rs);
                self.check_st(types, Operands { rd, rs }, *field, span)
            }
            Instr::Unpack { rd, v } => self.check_unpack(types, *rd, v, span),
        }
    }

    fn check_arith(
        &mut self,
        types: &mut Types,
        regs: Operands,
        v: &Value,
        span: Span,
    ) -> Result<(), Refusal>
        requires place { KnowsByNumber types.old self.old }
        requires rd { IsRegister regs.rd }
        requires value { FormedAt self.old (value v.now) }
        ensures grown { Grown types.old types.new }
        ensures step { (op : operations.Op) →
            StepsTo types.old types.new self.old self.new span (Arith op regs.rd regs.rs (value v.now)) result }
        ensures program { self.new.program ≡ self.old.program }
        ensures labels { self.new.labels ≡ self.old.labels }
    {
        self.check_int(types, regs.rs, span)?;
        let found = self.type_of_value(types, v, span)?;
        if !is_int(types, found) {
            return refused(TCode::T09, span);
        }
        self.registers.note(regs.rd, found)?;
        Ok(())
    }

    // Whether the register is an integer.
    fn check_int(&self, types: &Types, r: u64, span: Span) -> Result<(), Refusal>
        requires { IsSound types.now self.now.registers }
        ensures { IsIntegerIn types.now (known types.now self.now.registers) r span result }
    {
        match self.registers.find(r) {
            Some(entry) => {
                if is_int(types, entry.ty) {
                    Ok(())
                } else {
                    refused(TCode::T09, span)
                }
            }
            None => refused(TCode::T08, span),
        }
    }

    fn check_bnz(&mut self, types: &mut Types, r: u64, v: &Value, span: Span) -> Result<(), Refusal>
        requires place { KnowsByNumber types.old self.old }
        requires value { FormedAt self.old (value v.now) }
        ensures grown { Grown types.old types.new }
        ensures step { StepsTo types.old types.new self.old self.new span (Bnz r (value v.now)) result }
        ensures program { self.new.program ≡ self.old.program }
        ensures labels { self.new.labels ≡ self.old.labels }
    {
        self.check_int(types, r, span)?;
        self.check_target(types, v, span)
    }

    fn check_ld(
        &mut self,
        types: &mut Types,
        regs: Operands,
        field: u64,
        span: Span,
    ) -> Result<(), Refusal>
        requires place { KnowsByNumber types.old self.old }
        requires rd { IsRegister regs.rd }
        ensures grown { Grown types.old types.new }
        ensures step { StepsTo types.old types.new self.old self.new span (Ld regs.rd regs.rs field) result }
        ensures program { self.new.program ≡ self.old.program }
        ensures labels { self.new.labels ≡ self.old.labels }
    {
        let (loaded, flag) = self.field_of(types, regs.rs, field, span)?;
        if !flag {
            return refused(TCode::T12, span);
        }
        self.registers.note(regs.rd, loaded)?;
        Ok(())
    }

    // The type and the flag of a field of the tuple in a register.
    #[inline(always)]
    fn field_of(
        &self,
        types: &mut Types,
        r: u64,
        field: u64,
        span: Span,
    ) -> Result<(u64, bool), Refusal>
        requires { IsSound types.old self.now.registers }
        ensures grown { Grown types.old types.new }
        ensures field { IsFieldOf types.new self.now.registers.names (known types.old self.now.registers) r field span
            result }
    {
        let entry = match self.registers.find(r) {
            Some(entry) => entry,
            None => return refused(TCode::T08, span),
        };
        let fields = match types.fields(entry.ty) {
            Some(fields) => fields,
            None => return refused(TCode::T10, span),
        };
        if field >= fields.len() as u64 {
            return refused(TCode::T11, span);
        }
        let (ty, flag) = fields[field as usize];
        let flag = flag_of(types, entry.marks, flag, field + 1);
        let n = types.shift(ty, self.registers.names - entry.names, 0)?;
        Ok((n, flag))
    }

    fn check_malloc(&mut self, types: &mut Types, rd: u64, fields: &[TType]) -> Result<(), Refusal>
        requires place { KnowsByNumber types.old self.old }
        requires rd { IsRegister rd }
        requires fields { WellFormedTypes self.old.registers.names (type_trees fields.now) }
        ensures grown { Grown types.old types.new }
        ensures step { (s : places.Span) →
            StepsTo types.old types.new self.old self.new s (Malloc rd (type_trees fields.now)) result }
        ensures program { self.new.program ≡ self.old.program }
        ensures labels { self.new.labels ≡ self.old.labels }
    {
        let fields = types.number_all(fields)?;
        let n = tuple_of(self.alloc, types, &fields, false)?;
        self.registers.note(rd, n)?;
        Ok(())
    }

    fn check_mov(
        &mut self,
        types: &mut Types,
        rd: u64,
        v: &Value,
        span: Span,
    ) -> Result<(), Refusal>
        requires place { KnowsByNumber types.old self.old }
        requires rd { IsRegister rd }
        requires value { FormedAt self.old (value v.now) }
        ensures grown { Grown types.old types.new }
        ensures step { StepsTo types.old types.new self.old self.new span (Mov rd (value v.now)) result }
        ensures program { self.new.program ≡ self.old.program }
        ensures labels { self.new.labels ≡ self.old.labels }
    {
        if let Some(r) = bare_register(v) {
            return self.check_copy(rd, r, span);
        }
        let found = self.type_of_value(types, v, span)?;
        self.registers.note(rd, found)?;
        Ok(())
    }

    // A move of a register: what is kept of its type is copied as it is.
    fn check_copy(&mut self, rd: u64, r: u64, span: Span) -> Result<(), Refusal>
        ensures step { (ts : List Ty) → IsSound ts self.old.registers →
            StepsTo ts ts self.old self.new span (Mov rd (Plain (Reg r) [])) result }
        ensures program { self.new.program ≡ self.old.program }
        ensures labels { self.new.labels ≡ self.old.labels }
    {
        match self.registers.find(r) {
            Some(entry) => {
                self.registers.set(rd, entry)?;
                Ok(())
            }
            None => refused(TCode::T08, span),
        }
    }

    fn check_st(
        &mut self,
        types: &mut Types,
        regs: Operands,
        field: u64,
        span: Span,
    ) -> Result<(), Refusal>
        requires place { KnowsByNumber types.old self.old }
        requires field { field ≤ max_number }
        ensures grown { Grown types.old types.new }
        ensures step { StepsTo types.old types.new self.old self.new span (St regs.rd field regs.rs) result }
        ensures program { self.new.program ≡ self.old.program }
        ensures labels { self.new.labels ≡ self.old.labels }
    {
        let is_initialised = self.check_stored(types, regs, field, span)?;
        if is_initialised {
            return Ok(());
        }
        self.registers.fill(types, regs.rd, field)?;
        Ok(())
    }

    // That a register fits the field of the tuple in another one; whether the field is initialised already.
    fn check_stored(
        &self,
        types: &mut Types,
        regs: Operands,
        field: u64,
        span: Span,
    ) -> Result<bool, Refusal>
        requires { IsSound types.old self.now.registers }
        ensures grown { Grown types.old types.new }
        ensures stored { IsStored types.new self.now.registers.names (known types.old self.now.registers) regs.rd field
            regs.rs span result }
    {
        let (wanted, is_initialised) = self.field_of(types, regs.rd, field, span)?;
        let source = match self.registers.find(regs.rs) {
            Some(entry) => entry,
            None => return refused(TCode::T08, span),
        };
        let found = self.registers.shown(types, source)?;
        if !types.fits_once(found, wanted) {
            let names = self.registers.names;
            let odds = Odds::Types {
                wanted,
                found,
                names,
            };
            return at_odds(TCode::T13, span, odds);
        }
        Ok(is_initialised)
    }

    fn check_unpack(
        &mut self,
        types: &mut Types,
        rd: u64,
        v: &Value,
        span: Span,
    ) -> Result<(), Refusal>
        requires place { KnowsByNumber types.old self.old }
        requires rd { IsRegister rd }
        requires value { FormedAt self.old (value v.now) }
        requires few { self.old.registers.names + 1 ≤ max_names }
        ensures grown { Grown types.old types.new }
        ensures step { StepsTo types.old types.new self.old self.new span (Unpack rd (value v.now)) result }
        ensures program { self.new.program ≡ self.old.program }
        ensures labels { self.new.labels ≡ self.old.labels }
    {
        let found = self.type_of_value(types, v, span)?;
        let body = match exists_body(types, found) {
            Some(body) => body,
            None => return refused(TCode::T14, span),
        };
        self.registers.bind();
        self.registers.note(rd, body)?;
        Ok(())
    }

    pub(crate) fn check_end(
        &mut self,
        types: &mut Types,
        end: &End,
        span: Span,
    ) -> Result<(), Refusal>
        requires place { KnowsByNumber types.old self.old }
        requires end { FormedEnd self.old.program.now self.old.registers.names (end_of end.now) }
        ensures grown { Grown types.old types.new }
        ensures ended { EndedAt types.old types.new self.old span (end_of end.now) result }
    {
        match end {
            End::Jmp(v) => self.check_target(types, v, span),
            End::Halt => self.check_halt(types, span),
        }
    }

    // Whether register 1 is an integer.
    fn check_halt(&self, types: &Types, span: Span) -> Result<(), Refusal>
        requires { IsSound types.now self.now.registers }
        ensures { EndedAt types.now types.now self.now span Halt result }
    {
        match self.registers.find(1) {
            Some(entry) => {
                if is_int(types, entry.ty) {
                    Ok(())
                } else {
                    refused(TCode::T19, span)
                }
            }
            None => refused(TCode::T19, span),
        }
    }
}

// The register that a value is, where it is no more than one.
fn bare_register(v: &Value) -> Option<u64>
    ensures { IfSome result (λ r. value v.now ≡ Plain (Reg r) []) }
{
    match v {
        Value::Plain { base, types } => {
            if types.is_empty() {
                register_of(*base)
            } else {
                None
            }
        }
        Value::Pack { .. } => None,
    }
}

fn register_of(base: Base) -> Option<u64>
    ensures { IfSome result (λ r. base_tree base ≡ Reg r) }
{
    match base {
        Base::Reg(r) => Some(r),
        Base::Int(_) | Base::Label(_) | Base::Data(_) => None,
    }
}
