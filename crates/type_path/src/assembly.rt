// The first difference of two types of the assembly language, and the first place at which one does not fit another.
ghost use Rattle.std.specs.Prelude.{◌≡◌, ◌||◌, ◌&&◌, IfOk, Some, option_map};
ghost use mathlib.Core.Bool.{beq};
ghost use Rattle.t_types.specs.Read.{tree, file};
ghost use Rattle.t_types.specs.Read.{fields as fields_of};
ghost use Rattle.t_types.specs.Fields.{field};
ghost use Rattle.t_types.specs.Fits.{lookup};
ghost use Rattle.type_path.specs.Paths.{read, path_of};
ghost use Rattle.type_path.specs.Assembly.{Whole, type_of_field, flag_of_field, type_into, into, part, difference};
ghost use Rattle.type_path.specs.Assembly.{in_files, in_fields, taken, misfit, binds, bound};
ghost use Rattle.type_path.specs.ReadPart.{part_of, field_of};

use crate::step::{Step, inside, one};
use idx_core::{OutOfMemory, sum};
use std::alloc::Global;
use t_types::{TType, find};

/// What a type has parts of.
#[derive(Clone, Copy, Drop)]
pub enum Part<'a> {
    /// A type.
    Ty(&'a TType),
    /// Whether a field of a tuple is initialised.
    Flag(bool),
}

// The path to the first place at which two types differ.
#[cycle(finds)]
fn difference(alloc: Global, a: &TType, b: &TType) -> Result<Option<Vec<Step>>, OutOfMemory>
    ensures { IfOk result (λ r. read r ≡ difference (tree a.now) (tree b.now)) }
{
    match (a, b) {
        (TType::Int, TType::Int) => Ok(None),
        (TType::Var(i), TType::Var(j)) if *i == *j => Ok(None),
        (TType::Code { owes: m, regs: f }, TType::Code { owes: n, regs: g }) if *m == *n => {
            files_difference(alloc, &f.regs, &g.regs)
        }
        (TType::Exists(t), TType::Exists(u)) => inside(difference(alloc, t, u)?, Step::Body),
        (TType::Tuple(fs), TType::Tuple(gs)) => fields_difference(alloc, fs, gs, false),
        _ => Ok(Some(Vec::new(alloc))),
    }
}

// The same of two files.
#[cycle(finds)]
fn files_difference(
    alloc: Global,
    f: &[(u64, TType)],
    g: &[(u64, TType)],
) -> Result<Option<Vec<Step>>, OutOfMemory>
    ensures { IfOk result (λ r. read r ≡ in_files (file f.now) (file g.now)) }
{
    let count = f.len().min(g.len());
    for i in 0..count {
        let (x, y) = (&f[i], &g[i]);
        if x.0 != y.0 {
            return one(alloc, Step::Register(x.0.min(y.0)));
        }
        let found = inside(difference(alloc, &x.1, &y.1)?, Step::Register(x.0))?;
        if found.is_some() {
            return Ok(found);
        }
    }
    if f.len() > count {
        return one(alloc, Step::Register(f[count].0));
    }
    if g.len() > count {
        return one(alloc, Step::Register(g[count].0));
    }
    Ok(None)
}

// The same of the fields of two tuples, of which the second may have a flag more at 1 where that is loose.
#[cycle(finds)]
fn fields_difference(
    alloc: Global,
    fs: &[(TType, bool)],
    gs: &[(TType, bool)],
    loose: bool,
) -> Result<Option<Vec<Step>>, OutOfMemory>
    ensures { IfOk result (λ r.
        read r ≡ in_fields 0 (taken loose (fields_of fs.now) (fields_of gs.now)) (fields_of gs.now)) }
{
    let count = fs.len().min(gs.len());
    for i in 0..count {
        let (x, y) = (&fs[i], &gs[i]);
        let found = inside(difference(alloc, &x.0, &y.0)?, Step::Field(i as u64))?;
        if found.is_some() {
            return Ok(found);
        }
        if !goes(x.1, y.1, loose) {
            return one(alloc, Step::Flag(i as u64));
        }
    }
    if fs.len() == gs.len() {
        return Ok(None);
    }
    one(alloc, Step::Field(count as u64))
}

// Whether a flag that is wanted goes with one that is found.
fn goes(flag: bool, own: bool, loose: bool) -> bool
    ensures { result ≡ beq (flag || (loose && own)) own }
{
    if flag { own } else { loose || !own }
}

/// The path to the first place at which the found type does not fit the wanted one, its last step first; none where it
/// fits. An error is want of memory.
pub fn assembly_misfit(
    alloc: Global,
    wanted: &TType,
    found: &TType,
) -> Result<Option<Vec<Step>>, OutOfMemory>
    ensures { IfOk result (λ r. read r ≡ misfit (tree wanted.now) (tree found.now)) }
{
    match (wanted, found) {
        (TType::Tuple(fs), TType::Tuple(gs)) => fields_difference(alloc, fs, gs, true),
        _ => difference(alloc, wanted, found),
    }
}

// The field of a number, from 0 on.
fn field(fields: &[(TType, bool)], i: u64) -> Option<&(TType, bool)>
    ensures { option_map (λ x. field_of x.now) result ≡ field (fields_of fields.now) i }
{
    let at = i as usize;
    if at < fields.len() {
        return Some(&fields[at]);
    }
    None
}

// The type of a field.
fn field_type(fields: &[(TType, bool)], i: u64) -> Option<Part<'_>>
    ensures { option_map part_of result ≡ option_map type_of_field (field (fields_of fields.now) i) }
{
    let field = field(fields, i)?;
    Some(Part::Ty(&field.0))
}

// The flag of a field.
fn field_flag(fields: &[(TType, bool)], i: u64) -> Option<Part<'_>>
    ensures { option_map part_of result ≡ option_map flag_of_field (field (fields_of fields.now) i) }
{
    let field = field(fields, i)?;
    Some(Part::Flag(field.1))
}

// The type of a register.
fn register_type(regs: &[(u64, TType)], r: u64) -> Option<Part<'_>>
    ensures { option_map part_of result ≡ option_map Whole (lookup (file regs.now) r) }
{
    let ty = find(regs, r)?;
    Some(Part::Ty(ty))
}

// The part of a type behind a step.
fn step_into(ty: &TType, step: Step) -> Option<Part<'_>>
    ensures { option_map part_of result ≡ type_into step (tree ty.now) }
{
    match (step, ty) {
        (Step::Body, TType::Exists(t)) => Some(Part::Ty(t)),
        (Step::Field(i), TType::Tuple(fields)) => field_type(fields, i),
        (Step::Flag(i), TType::Tuple(fields)) => field_flag(fields, i),
        (Step::Register(r), TType::Code { regs, .. }) => register_type(&regs.regs, r),
        _ => None,
    }
}

// The part of a part behind a step: a flag has none.
fn part_into(part: Part<'_>, step: Step) -> Option<Part<'_>>
    ensures { option_map part_of result ≡ into step (part_of part.entry) }
{
    match part {
        Part::Ty(ty) => step_into(ty, step),
        Part::Flag(_) => None,
    }
}

/// The part of a type at a path whose last step is the first of these, where it has one.
pub fn assembly_part<'a>(ty: &'a TType, path: &[Step]) -> Option<Part<'a>>
    ensures { option_map part_of result ≡ part (path_of path.now) (tree ty.now) }
{
    let mut at = path.len();
    let mut part = Part::Ty(ty);
    while at > 0 {
        at -= 1;
        part = match part_into(part, path[at]) {
            None => return None,
            Some(next) => next,
        };
    }
    Some(part)
}

// How many type names a part binds around its own parts.
fn binds(part: Part<'_>) -> u64
    ensures { result ≡ binds (part_of part.entry) }
{
    match part {
        Part::Ty(TType::Code { owes, .. }) => *owes,
        Part::Ty(TType::Exists(_)) => 1,
        _ => 0,
    }
}

/// How many type names a type binds at a path whose last step is the first of these. An error is want of memory: they
/// are no more than the type has nodes, or than code of it owes.
pub fn assembly_bound(ty: &TType, path: &[Step]) -> Result<u64, OutOfMemory>
    ensures { IfOk result (λ n. n ≡ bound (path_of path.now) (Whole (tree ty.now))) }
{
    let mut at = path.len();
    let mut part = Part::Ty(ty);
    let mut count = 0u64;
    while at > 0 {
        at -= 1;
        count = sum(count, binds(part))?;
        part = match part_into(part, path[at]) {
            None => return Ok(count),
            Some(next) => next,
        };
    }
    Ok(count)
}
