// The names of values, instructions, blocks and data.
ghost use Rattle.std.specs.Prelude.{◌≡◌, List, [], map, MatchResult};
ghost use Rattle.t_types.specs.Read.{tree};
ghost use Rattle.t_terms.specs.Tree.{Pack};
ghost use Rattle.t_text.specs.Names.{base_of, value_of, instr_of, body_of, end_of, block_of, datum_of, data_of};
ghost use Rattle.t_text.specs.Names.{scope_after, scope_after_all};
ghost use Rattle.t_text.specs.NameFaults.{base_faults, value_faults, instr_faults, body_faults, end_faults};
ghost use Rattle.t_text.specs.NameFaults.{block_faults, datum_faults, data_faults};
ghost use Rattle.t_terms.specs.Read as read;
ghost use Rattle.t_shapes.specs.Raw.{raw_base, raw_value, raw_pack, raw_instr, raw_step, raw_end};
ghost use Rattle.t_shapes.specs.Raw.{raw_block, raw_datum, raw_data};
ghost use Rattle.t_reader.specs.Labelled.{target_base};
ghost use Rattle.t_reader.specs.Resolve.{StopsAt};
ghost use Rattle.t_terms.specs.declared.fault.TFault.TheVariants as fault;

use crate::faults::refused;
use crate::labels::Labels;
use crate::scope::{Scope, bind_all, spelling};
use crate::target::Target;
use crate::types::{file_in, type_in, types_in};
use idx_core::Span;
use std::alloc::Global;
use t_shapes::{RawBase, RawBlock, RawData, RawDatum, RawEnd, RawInstr, RawPack, RawValue};
use t_terms::{Base, Block, Data, End, Instr, TCode, TFault, Value};
use t_types::{RegFile, TType};

// what a label names as a base of values
fn named(target: Target) -> Base
    ensures { read.base result ≡ target_base target }
{
    match target {
        Target::Block(number) => Base::Label(number),
        Target::Data(number) => Base::Data(number),
    }
}

// N ::= reg | number | label
fn base_in(text: &[u8], labels: &Labels<'_>, base: &RawBase) -> Result<Base, TFault>
    ensures { MatchResult result
        (λ b. (base_faults text.now labels.now (raw_base base.now) ≡ [])
        × (read.base b ≡ base_of text.now labels.now (raw_base base.now)))
        (λ e. StopsAt (base_faults text.now labels.now (raw_base base.now)) e) }
{
    match base {
        RawBase::Reg(reg) => Ok(Base::Reg(*reg)),
        RawBase::Num(value) => Ok(Base::Int(*value)),
        RawBase::Label(span) => match labels.find(spelling(text, *span)) {
            Some(target) => Ok(named(target)),
            None => Err(refused(TCode::T05, *span)),
        },
    }
}

fn package(alloc: Global, hidden: TType, inner: Value, shape: TType) -> Result<Value, TFault>
    ensures { MatchResult result
        (λ v. read.value v ≡ Pack (tree hidden) (read.value inner) (tree shape))
        (λ e. e ≡ fault.Memory) }
{
    Ok(Value::Pack {
        hidden: Box::new(alloc, hidden)?,
        inner: Box::new(alloc, inner)?,
        shape: Box::new(alloc, shape)?,
    })
}

/// The value that a value of a text is.
#[cycle(values)]
#[inline(always)]
pub fn value_in<'a>(
    alloc: Global,
    text: &'a [u8],
    labels: &Labels<'_>,
    value: &RawValue,
    scope: &mut Scope<'a>,
) -> Result<Value, TFault>
    ensures { MatchResult result
        (λ v. (scope.new ≡ scope.old)
        × (value_faults text.now labels.now scope.old (raw_value value.now) ≡ [])
        × (read.value v ≡ value_of text.now labels.now scope.old (raw_value value.now)))
        (λ e. StopsAt (value_faults text.now labels.now scope.old (raw_value value.now)) e) }
{
    match value {
        RawValue::Plain(base, types) => {
            let base = base_in(text, labels, base)?;
            let types = types_in(alloc, text, types, scope)?;
            Ok(Value::Plain { base, types })
        }
        RawValue::Pack(pack) => packed_in(alloc, text, labels, pack, scope),
    }
}

// The value that a package of a text is. It stands apart, so that a value that is none is read where it is met.
#[cycle(values)]
fn packed_in<'a>(
    alloc: Global,
    text: &'a [u8],
    labels: &Labels<'_>,
    pack: &RawPack,
    scope: &mut Scope<'a>,
) -> Result<Value, TFault>
    ensures { MatchResult result
        (λ v. (scope.new ≡ scope.old)
        × (value_faults text.now labels.now scope.old (raw_pack pack.now) ≡ [])
        × (read.value v ≡ value_of text.now labels.now scope.old (raw_pack pack.now)))
        (λ e. StopsAt (value_faults text.now labels.now scope.old (raw_pack pack.now)) e) }
{
    let hidden = type_in(alloc, text, &pack.hidden, scope)?;
    let inner = value_in(alloc, text, labels, &pack.inner, scope)?;
    let shape = type_in(alloc, text, &pack.shape, scope)?;
    let whole = package(alloc, hidden, inner, shape)?;
    Ok(whole)
}

/// The instruction that an instruction of a text is. An `unpack` leaves its name bound.
pub fn instr_in<'a>(
    alloc: Global,
    text: &'a [u8],
    labels: &Labels<'_>,
    instr: &RawInstr,
    scope: &mut Scope<'a>,
) -> Result<Instr, TFault>
    ensures { MatchResult result
        (λ i. (scope.new ≡ scope_after text.now (raw_instr instr.now) scope.old)
        × (instr_faults text.now labels.now scope.old (raw_instr instr.now) ≡ [])
        × (read.instr i ≡ instr_of text.now labels.now scope.old (raw_instr instr.now)))
        (λ e. StopsAt (instr_faults text.now labels.now scope.old (raw_instr instr.now)) e) }
{
    match instr {
        RawInstr::Arith(op, rd, rs, v) => {
            let v = value_in(alloc, text, labels, v, scope)?;
            Ok(Instr::Arith {
                op: *op,
                rd: *rd,
                rs: *rs,
                v,
            })
        }
        RawInstr::Bnz(r, v) => {
            let v = value_in(alloc, text, labels, v, scope)?;
            Ok(Instr::Bnz { r: *r, v })
        }
        &RawInstr::Ld(rd, rs, field) => Ok(Instr::Ld { rd, rs, field }),
        RawInstr::Malloc(rd, types) => {
            let types = types_in(alloc, text, types, scope)?;
            Ok(Instr::Malloc { rd: *rd, types })
        }
        RawInstr::Mov(rd, v) => {
            let v = value_in(alloc, text, labels, v, scope)?;
            Ok(Instr::Mov { rd: *rd, v })
        }
        &RawInstr::St(rd, field, rs) => Ok(Instr::St { rd, field, rs }),
        RawInstr::Unpack(name, rd, v) => {
            let v = value_in(alloc, text, labels, v, scope)?;
            scope.push(spelling(text, *name))?;
            Ok(Instr::Unpack { rd: *rd, v })
        }
    }
}

/// The instructions of a body, whose names stay bound.
pub fn body_in<'a>(
    alloc: Global,
    text: &'a [u8],
    labels: &Labels<'_>,
    body: &[(RawInstr, Span)],
    scope: &mut Scope<'a>,
) -> Result<Vec<(Instr, Span)>, TFault>
    ensures { MatchResult result
        (λ is. (scope.new ≡ scope_after_all text.now (map raw_step body.now) scope.old)
        × (body_faults text.now labels.now scope.old (map raw_step body.now) ≡ [])
        × (read.body is.items ≡ body_of text.now labels.now scope.old (map raw_step body.now)))
        (λ e. StopsAt (body_faults text.now labels.now scope.old (map raw_step body.now)) e) }
{
    let mut made = Vec::with_capacity(alloc, body.len())?;
    for step in body {
        let instr = instr_in(alloc, text, labels, &step.0, scope)?;
        made.push((instr, step.1))?;
    }
    Ok(made)
}

/// The end that an end of a text is.
pub fn end_in<'a>(
    alloc: Global,
    text: &'a [u8],
    labels: &Labels<'_>,
    end: &RawEnd,
    scope: &mut Scope<'a>,
) -> Result<End, TFault>
    ensures { MatchResult result
        (λ e. (end_faults text.now labels.now scope.old (raw_end end.now) ≡ [])
        × (read.end_of e ≡ end_of text.now labels.now scope.old (raw_end end.now)))
        (λ e. StopsAt (end_faults text.now labels.now scope.old (raw_end end.now)) e) }
{
    match end {
        RawEnd::Jmp(v) => {
            let v = value_in(alloc, text, labels, v, scope)?;
            Ok(End::Jmp(v))
        }
        RawEnd::Halt => Ok(End::Halt),
    }
}

/// The block that a block of a text is.
pub fn block_in(
    alloc: Global,
    text: &[u8],
    labels: &Labels<'_>,
    block: &RawBlock,
) -> Result<Block, TFault>
    ensures { MatchResult result
        (λ b. (block_faults text.now labels.now (raw_block block.now) ≡ [])
        × (read.spanned b ≡ block_of text.now labels.now (raw_block block.now)))
        (λ e. StopsAt (block_faults text.now labels.now (raw_block block.now)) e) }
{
    let mut scope = Scope::new(alloc, labels.salt());
    let names = block.names.as_slice();
    bind_all(text, names, &mut scope)?;
    let regs = file_in(alloc, text, &block.file.regs, &mut scope)?;
    let body = body_in(alloc, text, labels, &block.body, &mut scope)?;
    let end = end_in(alloc, text, labels, &block.last.0, &mut scope)?;
    Ok(Block {
        name: block.name,
        owes: names.len() as u64,
        regs: RegFile { regs },
        body,
        end,
        end_span: block.last.1,
    })
}

// the field that a field of a data tuple of a text is, under no type names
fn datum_in(
    alloc: Global,
    text: &[u8],
    labels: &Labels<'_>,
    datum: &RawDatum,
) -> Result<(Value, TType, Span), TFault>
    ensures { MatchResult result
        (λ x. (datum_faults text.now labels.now (raw_datum datum.now) ≡ [])
        × (read.datum x ≡ datum_of text.now labels.now (raw_datum datum.now)))
        (λ e. StopsAt (datum_faults text.now labels.now (raw_datum datum.now)) e) }
{
    let mut scope = Scope::new(alloc, labels.salt());
    let value = value_in(alloc, text, labels, &datum.value, &mut scope)?;
    let ty = type_in(alloc, text, &datum.ty, &mut scope)?;
    Ok((value, ty, datum.place))
}

/// The data tuple that a data tuple of a text is.
pub fn data_in(
    alloc: Global,
    text: &[u8],
    labels: &Labels<'_>,
    tuple: &RawData,
) -> Result<Data, TFault>
    ensures { MatchResult result
        (λ x. (data_faults text.now labels.now (raw_data tuple.now).fields ≡ [])
        × (read.spanned_data x ≡ data_of text.now labels.now (raw_data tuple.now)))
        (λ e. StopsAt (data_faults text.now labels.now (raw_data tuple.now).fields) e) }
{
    let mut fields = Vec::with_capacity(alloc, tuple.fields.len())?;
    for datum in &tuple.fields {
        let field = datum_in(alloc, text, labels, datum)?;
        fields.push(field)?;
    }
    Ok(Data {
        name: tuple.name,
        fields,
    })
}
