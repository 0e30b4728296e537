// The types of variables, by their levels.
ghost use Rattle.std.specs.Prelude.{◌≡◌, ◌++◌, OnOk};
ghost use Rattle.k_terms.specs.Read.{ktree, ktys};
ghost use Rattle.c_rules.specs.Know as W;
ghost use Rattle.c_pass.specs.Read.{bounds, levels_of};

use crate::state::Bound;
use c_emit::type_levels::type_levels;
use calc_core::copy;
use idx_core::{OutOfMemory, sum};
use k_terms::KType;
use std::alloc::Global;

// The levels of the type variables of one variable's type.
fn levels_at(xs: &[Bound], l: u64, out: &mut Vec<u64>) -> Result<(), OutOfMemory>
    ensures { OnOk result
        (out.new.items ≡ out.old.items ++ levels_of (W.bound_at (bounds xs.now) l)) }
{
    if l < xs.len() as u64 {
        let x = &xs[l as usize];
        type_levels(&x.ty, x.depth, 0, out)?;
        Ok(())
    } else {
        Ok(())
    }
}

/// The levels of the type variables of the types of several variables.
pub fn bound_levels(xs: &[Bound], levels: &[u64], out: &mut Vec<u64>) -> Result<(), OutOfMemory>
    ensures { OnOk result (out.new.items ≡ out.old.items ++ W.bound_levels (bounds xs.now) levels.now) }
{
    for l in levels {
        levels_at(xs, *l, out)?;
    }
    Ok(())
}

/// Binds the variable of a level.
pub fn bind(xs: &mut Vec<Bound>, level: u64, ty: KType, depth: u64) -> Result<(), OutOfMemory>
    ensures { OnOk result (bounds xs.new.items ≡ W.bind (bounds xs.old.items) level (ktree ty) depth) }
{
    xs.truncate(level as usize);
    xs.push(Bound { ty, depth })?;
    Ok(())
}

/// Binds a code's arguments.
pub fn bind_all(
    alloc: Global,
    xs: &mut Vec<Bound>,
    level: u64,
    args: &[KType],
    depth: u64,
) -> Result<(), OutOfMemory>
    ensures { OnOk result (bounds xs.new.items ≡ W.bind_all (bounds xs.old.items) level (ktys args.now) depth) }
{
    let mut level = level;
    for t in args {
        let t = copy(alloc, t)?;
        bind(xs, level, t, depth)?;
        level = sum(level, 1)?;
    }
    Ok(())
}
