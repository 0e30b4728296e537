// Tuple types whose fields are marked as filled.
ghost use Rattle.std.specs.Prelude.{◌≡◌, ◌<◌, ◌||◌, ℕ, length, IfOk};
ghost use Rattle.t_intern.specs.Grown.{Grown, IsNumber};
ghost use Rattle.t_intern.specs.Marks.{has, marked};
ghost use Rattle.t_intern.specs.Nodes.{at};
ghost use Rattle.t_known.specs.Marks.{marks, IsMarks, with_marks, marked_list};

use crate::marks::contains;
use crate::parts::intern;
use idx_core::OutOfMemory;
use t_intern::{Shape, Types};

/// Whether a field is initialised: by its own flag, or by its mark.
pub fn flag_of(types: &Types, set: Option<u64>, flag: bool, number: u64) -> bool
    requires { IsMarks types.now set }
    ensures { result ≡ (flag || marks types.now set number) }
{
    match set {
        Some(set) => flag || contains(types, set, number),
        None => flag,
    }
}

// The set of marks, where there may be none.
pub(crate) fn set_of(types: &mut Types, set: Option<u64>) -> Result<u64, OutOfMemory>
    requires { IsMarks types.old set }
    ensures grown { Grown types.old types.new }
    ensures there { IfOk result (λ n. n < length types.new) }
    ensures same { IfOk result (λ n. (p : ℕ) → has (at types.new n) p ≡ marks types.old set p) }
{
    match set {
        Some(n) => Ok(n),
        None => intern(types, Shape::Int),
    }
}

// The number of a type with its marks.
#[inline(always)]
pub(crate) fn whole(types: &mut Types, n: u64, set: Option<u64>) -> Result<u64, OutOfMemory>
    requires there { n < length types.old }
    requires marks { IsMarks types.old set }
    ensures grown { Grown types.old types.new }
    ensures number { IfOk result (IsNumber types.new (with_marks types.old set (at types.old n))) }
{
    match set {
        Some(set) => mark(types, n, set),
        None => Ok(n),
    }
}

// The number of a type with the marks of a set. It is remembered, so that its fields are written out once.
fn mark(types: &mut Types, n: u64, set: u64) -> Result<u64, OutOfMemory>
    requires there { n < length types.old }
    requires set { set < length types.old }
    ensures grown { Grown types.old types.new }
    ensures number { IfOk result (IsNumber types.new (marked (at types.old set) (at types.old n))) }
{
    if let Some(made) = types.recalls_mark(n, set) {
        return Ok(made);
    }
    let made = mark_anew(types, n, set)?;
    types.note_mark(n, set, made);
    Ok(made)
}

// The same by its fields.
fn mark_anew(types: &mut Types, n: u64, set: u64) -> Result<u64, OutOfMemory>
    requires there { n < length types.old }
    requires set { set < length types.old }
    ensures grown { Grown types.old types.new }
    ensures number { IfOk result (IsNumber types.new (marked (at types.old set) (at types.old n))) }
{
    let fields = match types.fields(n) {
        Some(fields) => mark_fields(types, fields, set)?,
        None => return Ok(n),
    };
    intern(types, Shape::Tuple(fields))
}

fn mark_fields(
    types: &Types,
    fields: &[(u64, bool)],
    set: u64,
) -> Result<Vec<(u64, bool)>, OutOfMemory>
    requires { set < length types.now }
    ensures { IfOk result (λ v. v.items ≡ marked_list (has (at types.now set)) 1 fields.now) }
{
    let mut made = Vec::new(types.alloc());
    for i in 0..fields.len() {
        let (ty, flag) = fields[i];
        let flag = flag_of(types, Some(set), flag, i as u64 + 1);
        made.push((ty, flag))?;
    }
    Ok(made)
}
