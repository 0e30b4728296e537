// Sets of numbers from 1 on, as types of the table: a set with one number more shares all other parts with the old one.
ghost use Rattle.std.specs.Prelude.{◌≡◌, ℕ, ◌<◌, ◌≤◌, length, IfOk, false};
ghost use Rattle.t_types.specs.Tree.{TupleTy, NoFields, MoreFields};
ghost use Rattle.t_intern.specs.Grown.{Grown, IsNumber};
ghost use Rattle.t_intern.specs.Marks.{has};
ghost use Rattle.t_intern.specs.Nodes.{at};
ghost use Rattle.t_known.specs.Marks.{AreBranches, IsOpened, IsWith};

use crate::parts::intern;
use idx_core::OutOfMemory;
use std::alloc::Global;
use t_intern::{Shape, Types};

/// The parts of a set: whether 1 is in it, and the halves of its even and of its odd numbers.
#[derive(Clone, Copy)]
pub(crate) struct Branches {
    pub(crate) left: u64,
    pub(crate) here: bool,
    pub(crate) right: u64,
}

// The parts of a set; the empty set has none.
fn parts_of(types: &Types, set: u64) -> Option<Branches>
    requires { set < length types.now }
    ensures { AreBranches types.now set result }
{
    match types.fields(set) {
        Some(fields) => {
            if fields.len() != 2 {
                return None;
            }
            let (left, here) = fields[0];
            let (right, _) = fields[1];
            Some(Branches { left, here, right })
        }
        None => None,
    }
}

// Whether a number is in a set.
pub(crate) fn contains(types: &Types, set: u64, number: u64) -> bool
    requires { set < length types.now }
    ensures { result ≡ has (at types.now set) number }
{
    match parts_of(types, set) {
        Some(parts) => {
            if number <= 1 {
                return parts.here;
            }
            if number % 2 == 0 {
                contains(types, parts.left, number / 2)
            } else {
                contains(types, parts.right, number / 2)
            }
        }
        None => false,
    }
}

// The parts of a set, also of the empty one.
fn opened(types: &mut Types, set: u64) -> Result<Branches, OutOfMemory>
    requires { set < length types.old }
    ensures grown { Grown types.old types.new }
    ensures opened { IfOk result (IsOpened types.old types.new set) }
{
    match parts_of(types, set) {
        Some(parts) => Ok(parts),
        None => {
            let empty = intern(types, Shape::Int)?;
            Ok(Branches {
                left: empty,
                here: false,
                right: empty,
            })
        }
    }
}

// The set of these parts.
fn joined(alloc: Global, types: &mut Types, parts: Branches) -> Result<u64, OutOfMemory>
    requires left { parts.left < length types.old }
    requires right { parts.right < length types.old }
    ensures grown { Grown types.old types.new }
    ensures number { IfOk result (IsNumber types.new (TupleTy (MoreFields (at types.old parts.left) parts.here
        (MoreFields (at types.old parts.right) false NoFields)))) }
{
    let mut fields = Vec::with_capacity(alloc, 2)?;
    fields.push((parts.left, parts.here))?;
    fields.push((parts.right, false))?;
    intern(types, Shape::Tuple(fields))
}

// The set with one number more.
pub(crate) fn with(
    alloc: Global,
    types: &mut Types,
    set: u64,
    number: u64,
) -> Result<u64, OutOfMemory>
    requires there { set < length types.old }
    requires positive { 1 ≤ number }
    ensures grown { Grown types.old types.new }
    ensures number { IfOk result (IsWith types.old types.new set number) }
{
    let parts = opened(types, set)?;
    let Branches { left, here, right } = parts;
    if number == 1 {
        let here = true;
        return joined(alloc, types, Branches { left, here, right });
    }
    if number % 2 == 0 {
        let left = with(alloc, types, left, number / 2)?;
        return joined(alloc, types, Branches { left, here, right });
    }
    let right = with(alloc, types, right, number / 2)?;
    joined(alloc, types, Branches { left, here, right })
}
