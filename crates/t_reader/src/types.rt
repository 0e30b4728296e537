// The names of types.
ghost use Rattle.std.specs.Prelude.{◌≡◌, ◌≤◌, List, [], map, length, MatchResult};
ghost use Rattle.t_types.specs.Tree.{ExistsTy};
ghost use Rattle.t_types.specs.declared.types.TType.TheVariants as ttype;
ghost use Rattle.t_types.specs.Read.{tree, types, file};
ghost use Rattle.t_text.specs.Raw.{raw_regs, raw_fields};
ghost use Rattle.t_text.specs.Names.{type_of, types_of, file_of};
ghost use Rattle.t_text.specs.NameFaults.{type_faults, types_faults, regs_faults};
ghost use Rattle.t_shapes.specs.RawTypes.{raw, raw_reg};
ghost use Rattle.t_reader.specs.Resolve.{StopsAt, has};
ghost use Rattle.t_terms.specs.declared.fault.TFault.TheVariants as fault;

use crate::faults::refused;
use crate::scope::{Scope, bind_all, release, spelling};
use idx_core::Span;
use std::alloc::Global;
use std::collections::BTreeMap;
use t_shapes::RawType;
use t_terms::{TCode, TFault};
use t_types::{RegFile, TType};

fn code(owes: usize, regs: Vec<(u64, TType)>) -> TType
    ensures { result ≡ ttype.Code owes (record { regs = regs }) }
{
    TType::Code {
        owes: owes as u64,
        regs: RegFile { regs },
    }
}

fn exists(alloc: Global, body: TType) -> Result<TType, TFault>
    ensures { MatchResult result (λ t. tree t ≡ ExistsTy (tree body)) (λ e. e ≡ fault.Memory) }
{
    Ok(TType::Exists(Box::new(alloc, body)?))
}

// whether a register is in a file
fn has_reg(file: &BTreeMap<u64, TType>, reg: u64) -> bool
    ensures { result ≡ has reg file.now.entries }
{
    file.contains_key(&reg)
}

// the registers of a file with their types, in ascending order
fn in_order(alloc: Global, file: BTreeMap<u64, TType>) -> Result<Vec<(u64, TType)>, TFault>
    ensures { MatchResult result (λ regs. regs.items ≡ file.entries) (λ e. e ≡ fault.Memory) }
{
    let mut regs = Vec::with_capacity(alloc, file.len())?;
    for entry in file {
        regs.push(entry)?;
    }
    Ok(regs)
}

/// The type that a type of a text is, where these type names are in scope. They are as before where the answer is a
/// type.
#[cycle(types)]
pub fn type_in<'a>(
    alloc: Global,
    text: &'a [u8],
    ty: &RawType,
    scope: &mut Scope<'a>,
) -> Result<TType, TFault>
    ensures { MatchResult result
        (λ t. (scope.new ≡ scope.old)
        × (type_faults text.now scope.old (raw ty.now) ≡ [])
        × (tree t ≡ type_of text.now scope.old (raw ty.now)))
        (λ e. StopsAt (type_faults text.now scope.old (raw ty.now)) e) }
{
    match ty {
        RawType::Int => Ok(TType::Int),
        RawType::Name(span) => match scope.find(spelling(text, *span)) {
            Some(place) => Ok(TType::Var(place)),
            None => Err(refused(TCode::T06, *span)),
        },
        RawType::Code(names, file) => {
            let names = names.as_slice();
            let count = names.len();
            bind_all(text, names, scope)?;
            let regs = file_in(alloc, text, &file.regs, scope)?;
            release(count, scope);
            Ok(code(count, regs))
        }
        RawType::Some(name, body) => {
            scope.push(spelling(text, *name))?;
            let inner = type_in(alloc, text, body, scope)?;
            scope.pop();
            let whole = exists(alloc, inner)?;
            Ok(whole)
        }
        RawType::Tuple(fields) => {
            let mut made = Vec::with_capacity(alloc, fields.len())?;
            for field in fields {
                let part = type_in(alloc, text, &field.0, scope)?;
                made.push((part, field.1))?;
            }
            Ok(TType::Tuple(made))
        }
    }
}

/// The register file type that a file of a text is, its registers in ascending order.
#[cycle(types)]
pub fn file_in<'a>(
    alloc: Global,
    text: &'a [u8],
    regs: &[(u64, Span, RawType)],
    scope: &mut Scope<'a>,
) -> Result<Vec<(u64, TType)>, TFault>
    ensures { MatchResult result
        (λ f. (scope.new ≡ scope.old)
        × (regs_faults text.now scope.old [] (raw_regs (map raw_reg regs.now)) ≡ [])
        × (file f.items ≡ file_of text.now scope.old (raw_regs (map raw_reg regs.now))))
        (λ e. StopsAt (regs_faults text.now scope.old [] (raw_regs (map raw_reg regs.now))) e) }
{
    let mut made = BTreeMap::new(alloc);
    for reg in regs {
        if has_reg(&made, reg.0) {
            return Err(refused(TCode::T07, reg.1));
        }
        let ty = type_in(alloc, text, &reg.2, scope)?;
        made.insert(reg.0, ty)?;
    }
    let made = in_order(alloc, made)?;
    Ok(made)
}

/// The types of a list.
#[inline(always)]
pub fn types_in<'a>(
    alloc: Global,
    text: &'a [u8],
    list: &[RawType],
    scope: &mut Scope<'a>,
) -> Result<Vec<TType>, TFault>
    ensures { MatchResult result
        (λ ts. (scope.new ≡ scope.old)
        × (types_faults text.now scope.old (map raw list.now) ≡ [])
        × (types ts.items ≡ types_of text.now scope.old (map raw list.now)))
        (λ e. StopsAt (types_faults text.now scope.old (map raw list.now)) e) }
{
    let mut made = Vec::with_capacity(alloc, list.len())?;
    for ty in list {
        let ty = type_in(alloc, text, ty, scope)?;
        made.push(ty)?;
    }
    Ok(made)
}
