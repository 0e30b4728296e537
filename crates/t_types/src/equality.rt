// Equality of types.
ghost use Rattle.std.specs.Prelude.{◌≡◌, ◌↔◌, IsTrue};
ghost use Rattle.t_types.specs.Read.{tree, file, fields};

use crate::types::TType;

/// Whether two types are equal, up to the names of their bound variables.
#[cycle(eqs)]
pub fn eq(a: &TType, b: &TType) -> bool
    ensures { IsTrue result ↔ tree a.now ≡ tree b.now }
{
    match (a, b) {
        (TType::Int, TType::Int) => true,
        (TType::Var(i), TType::Var(j)) => *i == *j,
        (TType::Code { owes: m, regs: f }, TType::Code { owes: n, regs: g }) => {
            *m == *n && eq_regs(&f.regs, &g.regs)
        }
        (TType::Exists(s), TType::Exists(t)) => eq(s, t),
        (TType::Tuple(fs), TType::Tuple(gs)) => eq_fields(fs, gs),
        _ => false,
    }
}

#[cycle(eqs)]
fn eq_regs(a: &[(u64, TType)], b: &[(u64, TType)]) -> bool
    ensures { IsTrue result ↔ file a.now ≡ file b.now }
{
    if a.len() != b.len() {
        return false;
    }
    for (x, y) in a.iter().zip(b) {
        if x.0 != y.0 {
            return false;
        }
        if !eq(&x.1, &y.1) {
            return false;
        }
    }
    true
}

#[cycle(eqs)]
fn eq_fields(a: &[(TType, bool)], b: &[(TType, bool)]) -> bool
    ensures { IsTrue result ↔ fields a.now ≡ fields b.now }
{
    if a.len() != b.len() {
        return false;
    }
    for (x, y) in a.iter().zip(b) {
        if x.1 != y.1 {
            return false;
        }
        if !eq(&x.0, &y.0) {
            return false;
        }
    }
    true
}
