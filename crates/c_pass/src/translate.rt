// Types of variables, translated.
ghost use Rattle.std.specs.Prelude.{◌≡◌, IfOk};
ghost use Rattle.calc_core.specs.Ends.{lift};
ghost use Rattle.k_terms.specs.Read.{ktree};
ghost use Rattle.c_terms.specs.Read.{ctree, ctys};
ghost use Rattle.c_rules.specs.Close as L;
ghost use Rattle.c_rules.specs.Know as W;
ghost use Rattle.calc_core.specs.Read.{joined};
ghost use Rattle.c_emit.specs.Names.{side};
ghost use Rattle.c_pass.specs.Read.{bound, bounds, var_of};

use crate::state::Bound;
use c_emit::close_type::close_type;
use c_emit::vars::{level_of, outer_var, side_var};
use c_emit::{Renaming, Side};
use c_terms::CType;
use idx_core::OutOfMemory;
use k_terms::KType;
use std::alloc::Global;

/// Where types are written: the type variables of a code, how many there are at the place in the source, and whether
/// the place is outside the code.
#[derive(Clone, Copy)]
pub struct Place<'a> {
    pub side: &'a Side,
    pub depth: u64,
    pub outside: bool,
}

/// A type, its type variables where `f` says, from inside its code or from outside it.
pub fn closed(
    alloc: Global,
    t: &KType,
    f: &Side,
    outside: bool,
    raise: u64,
) -> Result<CType, OutOfMemory>
    ensures { IfOk result (λ r. ctree r ≡ L.ctype (λ i. var_of outside (side f.now) (lift raise i)) (ktree t.now)) }
{
    if outside {
        let t = close_type(alloc, t, &Renaming::Outside { side: f, raise })?;
        Ok(t)
    } else {
        let t = close_type(alloc, t, &Renaming::Here { side: f, raise })?;
        Ok(t)
    }
}

// The type of the variable of a level, translated.
fn type_at(alloc: Global, xs: &[Bound], l: u64, place: &Place) -> Result<CType, OutOfMemory>
    ensures { IfOk result (λ r. ctree r ≡ W.bound_type (var_of place.now.outside (side place.now.side.now))
        place.now.depth (W.bound_at (bounds xs.now) l)) }
{
    if l < xs.len() as u64 {
        let x = &xs[l as usize];
        let raise = place.depth.saturating_sub(x.depth);
        let t = closed(alloc, &x.ty, place.side, place.outside, raise)?;
        Ok(t)
    } else {
        Ok(CType::Int)
    }
}

/// The types of the variables of these levels, translated.
pub fn types_at(
    alloc: Global,
    xs: &[Bound],
    levels: &[u64],
    place: &Place,
) -> Result<Vec<CType>, OutOfMemory>
    ensures { IfOk result (λ r. ctys r.items ≡ W.bound_types (var_of place.now.outside (side place.now.side.now))
        place.now.depth (bounds xs.now) levels.now) }
{
    let mut made = Vec::with_capacity(alloc, levels.len())?;
    for l in levels {
        let t = type_at(alloc, xs, *l, place)?;
        made.push(t)?;
    }
    Ok(made)
}

fn var(f: &Side, outside: bool, i: u64) -> Result<u64, OutOfMemory>
    ensures { IfOk result (λ r. r ≡ var_of outside (side f.now) i) }
{
    if outside {
        let at = outer_var(f, i)?;
        Ok(at)
    } else {
        let at = side_var(f, i)?;
        Ok(at)
    }
}

/// Type variables by their levels.
pub fn variables(alloc: Global, levels: &[u64], place: &Place) -> Result<Vec<CType>, OutOfMemory>
    ensures { IfOk result (λ r. ctys r.items ≡ W.variables (var_of place.now.outside (side place.now.side.now))
        place.now.depth levels.now) }
{
    let mut made = Vec::with_capacity(alloc, levels.len())?;
    for l in levels {
        let at = var(place.side, place.outside, level_of(place.depth, *l))?;
        made.push(CType::Var(at))?;
    }
    Ok(made)
}
