// Whether a type has so few nodes that it is written out where it is at odds with another one. In the table of types
// each part stands once, so a type can be far larger than the text in which it is made: no more nodes are counted than
// there may be.
ghost use Rattle.std.specs.Prelude.{◌≡◌, ◌+◌, ◌<◌, ◌≤◌, length, MatchOption};
ghost use Rattle.t_intern.specs.Nodes.{at, regs_at, fields_at, RegsBelow, FieldsBelow};
ghost use Rattle.t_rules.specs.Nodes.{nodes, file_nodes, fields_nodes, few};

use t_intern::{Shape, Types};

// The most nodes of a type that is written out (own choice).
const NODES: u64 = 100_000;

// How many of so many nodes are left behind those of a type; none where it has more.
#[cycle(counts)]
fn left_after(types: &Types, n: u64, count: u64) -> Option<u64>
    requires { n < length types.now }
    ensures { MatchOption result (count < nodes (at types.now n)) (λ left. left + nodes (at types.now n) ≡ count) }
{
    if count == 0 {
        return None;
    }
    let count = count - 1;
    match types.shape(n) {
        Shape::Int | Shape::Var(_) => Some(count),
        Shape::Code { owes: _, regs } => left_after_regs(types, n, regs, count),
        Shape::Exists(t) => left_after(types, *t, count),
        Shape::Tuple(fields) => left_after_fields(types, n, fields, count),
    }
}

#[cycle(counts)]
fn left_after_regs(types: &Types, n: u64, regs: &[(u64, u64)], count: u64) -> Option<u64>
    requires there { n ≤ length types.now }
    requires parts { RegsBelow n regs.now }
    ensures { MatchOption result (count < file_nodes (regs_at types.now regs.now))
        (λ left. left + file_nodes (regs_at types.now regs.now) ≡ count) }
{
    let mut left = count;
    for reg in regs {
        left = left_after(types, reg.1, left)?;
    }
    Some(left)
}

#[cycle(counts)]
fn left_after_fields(types: &Types, n: u64, fields: &[(u64, bool)], count: u64) -> Option<u64>
    requires there { n ≤ length types.now }
    requires parts { FieldsBelow n fields.now }
    ensures { MatchOption result (count < fields_nodes (fields_at types.now fields.now))
        (λ left. left + fields_nodes (fields_at types.now fields.now) ≡ count) }
{
    let mut left = count;
    for field in fields {
        left = left_after(types, field.0, left)?;
    }
    Some(left)
}

/// Whether a type is written out.
pub(crate) fn is_small(types: &Types, n: u64) -> bool
    requires { n < length types.now }
    ensures { result ≡ few (at types.now n) }
{
    match left_after(types, n, NODES) {
        Some(_) => true,
        None => false,
    }
}
