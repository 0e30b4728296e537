// What is to be known of a code.
ghost use Rattle.std.specs.Prelude.{◌≡◌, cond, IfOk};
ghost use Rattle.k_terms.specs.K.{TKCode};
ghost use Rattle.k_terms.specs.Read.{ktree, ktys};
ghost use Rattle.c_terms.specs.C.{TCInt, TCTuple, NoCTys, MoreCTys};
ghost use Rattle.c_terms.specs.Read.{ctree, ctys};
ghost use Rattle.c_rules.specs.Close as L;
ghost use Rattle.c_rules.specs.Know as W;
ghost use Rattle.c_emit.specs.Read.{info};
ghost use Rattle.c_emit.specs.Names.{side};
ghost use Rattle.c_pass.specs.Read.{bounds, var_of, info_parts, side_from, told};

use crate::bounds::bound_levels;
use crate::state::{Bound, CodeNode, Header, Sides};
use crate::translate::{Place, closed, types_at, variables};
use c_emit::close_type::close_types;
use c_emit::{Found, Info, Inside, Renaming, Side};
use c_rules::Levels;
use c_rules::levels::known;
use c_terms::CType;
use idx_core::{OutOfMemory, sum};
use k_terms::KType;
use std::alloc::Global;

/// The type variables of a closed code: those that are written in it, and those of its free variables' types.
pub fn side_of(
    alloc: Global,
    xs: &[Bound],
    types: Levels,
    kept: &[u64],
    node: &CodeNode,
) -> Result<Side, OutOfMemory>
    ensures { IfOk result (λ r. side r
        ≡ side_from node.now.depth node.now.owes types.list.items kept.now (bounds xs.now)) }
{
    let mut types = types.list;
    bound_levels(xs, kept, &mut types)?;
    let kept = known(types, node.depth, alloc)?;
    Ok(Side {
        depth: node.depth,
        owes: node.owes,
        kept,
        calling: false,
    })
}

// The type of an environment.
fn env(alloc: Global, xs: &[Bound], levels: &[u64], place: &Place) -> Result<CType, OutOfMemory>
    ensures { IfOk result
        (λ r. ctree r ≡ TCTuple (W.bound_types (var_of place.now.outside (side place.now.side.now)) place.now.depth
        (bounds xs.now) levels.now)) }
{
    let made = types_at(alloc, xs, levels, place)?;
    Ok(CType::Tuple(made))
}

// The types of a closed code's arguments.
fn arguments(alloc: Global, env: CType, args: &[KType], g: &Side) -> Result<Vec<CType>, OutOfMemory>
    ensures { IfOk result (λ r. ctys r.items ≡ MoreCTys (ctree env)
        (L.ctypes (W.side_var (side g.now)) (ktys args.now))) }
{
    let mut own = Vec::with_capacity(alloc, args.len().saturating_add(1))?;
    own.push(env)?;
    let made = close_types(alloc, args, &Renaming::Here { side: g, raise: 0 }, own)?;
    Ok(made)
}

// The types of a code's closure inside it, where its own name is used; where it is not, nobody looks at them.
fn closure_inside(
    alloc: Global,
    header: &Header,
    found: &Found,
    xs: &[Bound],
    g: &Side,
) -> Result<Inside, OutOfMemory>
    requires { ktree header.now.own_type.now ≡ TKCode header.now.owes (ktys header.now.args.now) }
    ensures apply { IfOk result (λ r. ctys r.apply.items ≡
        cond found.now.own (W.variables (W.outer_var (side g.now)) header.now.depth (side g.now).kept) NoCTys) }
    ensures hidden { IfOk result (λ r. ctree r.hidden ≡
        cond found.now.own (TCTuple (W.bound_types (W.outer_var (side g.now)) header.now.depth (bounds xs.now)
        found.now.kept.list.items)) TCInt) }
    ensures shape { IfOk result (λ r. ctree r.shape ≡
        cond found.now.own (L.ctype (W.outer_var (side g.now)) (TKCode header.now.owes (ktys header.now.args.now)))
        TCInt) }
{
    if found.own {
        let place = Place {
            side: g,
            depth: header.depth,
            outside: true,
        };
        let hidden = env(alloc, xs, &found.kept.list, &place)?;
        let shape = closed(alloc, header.own_type, g, true, 0)?;
        let apply = variables(alloc, &g.kept.list, &place)?;
        Ok(Inside {
            apply,
            hidden,
            shape,
        })
    } else {
        Ok(Inside {
            apply: Vec::new(alloc),
            hidden: CType::Int,
            shape: CType::Int,
        })
    }
}

/// What the last walk is told of a code whose type variables stand in it, and in what is around it, where these say.
pub fn info_from(
    alloc: Global,
    header: &Header,
    found: Found,
    xs: &[Bound],
    sides: &Sides,
) -> Result<Info, OutOfMemory>
    requires { ktree header.now.own_type.now ≡ TKCode header.now.owes (ktys header.now.args.now) }
    ensures { IfOk result
        (λ r. info r ≡ told (info_parts header.now.depth header.now.owes (ktys header.now.args.now)
        found.kept.list.items found.own (bounds xs.now) (side sides.now.around.now) (side sides.now.inside.now))) }
{
    let inside = closure_inside(alloc, header, &found, xs, sides.inside)?;
    let Found { kept, own } = found;
    let here = Place {
        side: sides.around,
        depth: header.depth,
        outside: false,
    };
    let within = Place {
        side: sides.inside,
        depth: header.depth,
        outside: true,
    };
    let hidden = env(alloc, xs, &kept.list, &here)?;
    let shape = closed(alloc, header.own_type, sides.around, false, 0)?;
    let apply = variables(alloc, &sides.inside.kept.list, &here)?;
    let first = env(alloc, xs, &kept.list, &within)?;
    let args = arguments(alloc, first, header.args, sides.inside)?;
    let owes = sum(header.owes, sides.inside.kept.list.len() as u64)?;
    Ok(Info {
        kept,
        own,
        owes,
        args,
        apply,
        hidden,
        shape,
        inside,
    })
}
