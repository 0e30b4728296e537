// A put within the limits.
ghost use Rattle.f_terms.specs.Ty.{PutFits};
ghost use Rattle.f_terms.specs.Limits.{Shallow, Within};
ghost use Rattle.f_terms.specs.Read.{tree, place};
ghost use Rattle.std.specs.Prelude.{IfOk};
ghost use Rattle.f_check.specs.Told.{IsPut, IsPutOrNone};

use crate::count::{DEPTH, SIZE, limit, put_depth, put_size};
use crate::failure::Failure;
use f_terms::{FType, depth, size};
use idx_core::{OutOfMemory, Scoped, Span};
use std::alloc::Global;

// The type of a body after a put, where it keeps the limits. What is put keeps them.
pub(crate) fn put_or_none(
    alloc: Global,
    body: &FType,
    what: &FType,
) -> Result<Option<FType>, OutOfMemory>
    requires small { Within (tree body.now) }
    requires kept { Within (tree what.now) }
    requires fits { PutFits 0 (tree what.now) 0 (tree body.now) }
    ensures { IfOk result (λ r. IsPutOrNone (tree what.now) (tree body.now) r) }
{
    if put_depth(body, 0, depth(what)) > DEPTH {
        return Ok(None);
    }
    if put_size(body, 0, size(what)) > SIZE {
        return Ok(None);
    }
    let made = body.put(alloc, 0, what)?;
    Ok(Some(made))
}

// The type of a body after a put, where it and what is put keep the limits.
pub(crate) fn put_within(
    alloc: Global,
    span: Span,
    body: &FType,
    what: &FType,
) -> Result<FType, Failure>
    requires small { Within (tree body.now) }
    requires fits { Shallow (tree what.now) → PutFits 0 (tree what.now) 0 (tree body.now) }
    ensures { IsPut (tree what.now) (tree body.now) (place span) result }
{
    let deep = depth(what);
    let wide = size(what);
    limit(deep, wide, span)?;
    let made_deep = put_depth(body, 0, deep);
    let made_wide = put_size(body, 0, wide);
    limit(made_deep, made_wide, span)?;
    Ok(body.put(alloc, 0, what)?)
}
