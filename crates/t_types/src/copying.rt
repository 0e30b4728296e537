// Copies of types.
ghost use Rattle.std.specs.Prelude.{◌≡◌, IfOk};
ghost use Rattle.t_types.specs.Read.{tree, file, fields};

use crate::types::{RegFile, TType};
use idx_core::OutOfMemory;
use std::alloc::Global;

/// The same type again. An error is want of memory.
#[cycle(copies)]
pub fn copy(alloc: Global, t: &TType) -> Result<TType, OutOfMemory>
    ensures { IfOk result (λ r. tree r ≡ tree t.now) }
{
    match t {
        TType::Int => Ok(TType::Int),
        TType::Var(i) => Ok(TType::Var(*i)),
        TType::Code { owes, regs } => {
            let regs = copy_regs(alloc, &regs.regs)?;
            Ok(TType::Code {
                owes: *owes,
                regs: RegFile { regs },
            })
        }
        TType::Exists(t) => {
            let t = copy(alloc, t)?;
            Ok(TType::Exists(Box::new(alloc, t)?))
        }
        TType::Tuple(fs) => {
            let fs = copy_flagged(alloc, fs)?;
            Ok(TType::Tuple(fs))
        }
    }
}

#[cycle(copies)]
fn copy_regs(alloc: Global, regs: &[(u64, TType)]) -> Result<Vec<(u64, TType)>, OutOfMemory>
    ensures { IfOk result (λ r. file r.items ≡ file regs.now) }
{
    let mut made = Vec::with_capacity(alloc, regs.len())?;
    for reg in regs {
        let t = copy(alloc, &reg.1)?;
        made.push((reg.0, t))?;
    }
    Ok(made)
}

#[cycle(copies)]
fn copy_flagged(alloc: Global, fs: &[(TType, bool)]) -> Result<Vec<(TType, bool)>, OutOfMemory>
    ensures { IfOk result (λ r. fields r.items ≡ fields fs.now) }
{
    let mut made = Vec::with_capacity(alloc, fs.len())?;
    for field in fs {
        let t = copy(alloc, &field.0)?;
        made.push((t, field.1))?;
    }
    Ok(made)
}

/// The same register file again. An error is want of memory.
pub fn copy_file(alloc: Global, regs: &RegFile) -> Result<RegFile, OutOfMemory>
    ensures { IfOk result (λ r. file r.regs.items ≡ file regs.now.regs.items) }
{
    let regs = copy_regs(alloc, &regs.regs)?;
    Ok(RegFile { regs })
}
