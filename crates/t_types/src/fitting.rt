// Which type fits which, and which register file which.
ghost use Rattle.std.specs.Prelude.{◌≡◌, ◌↔◌, IsTrue, option_map};
ghost use Rattle.t_types.specs.Fits.{Fits, FitsFile, FieldsFit, lookup};
ghost use Rattle.t_types.specs.Read.{tree, file, fields};

use crate::equality::eq;
use crate::types::{RegFile, TType};

/// Whether `a` fits `b`: equal types do, and so do two tuple types with the same field types where `a` has flag 1
/// wherever `b` has it (own choice).
pub fn fits(a: &TType, b: &TType) -> bool
    ensures { IsTrue result ↔ Fits (tree a.now) (tree b.now) }
{
    match (a, b) {
        (TType::Tuple(fs), TType::Tuple(gs)) => fields_fit(fs, gs),
        _ => eq(a, b),
    }
}

fn fields_fit(a: &[(TType, bool)], b: &[(TType, bool)]) -> bool
    ensures { IsTrue result ↔ FieldsFit (fields a.now) (fields b.now) }
{
    if a.len() != b.len() {
        return false;
    }
    for (x, y) in a.iter().zip(b) {
        if !flag_fits(x.1, y.1) {
            return false;
        }
        if !eq(&x.0, &y.0) {
            return false;
        }
    }
    true
}

// A flag is 1 only where the own is.
fn flag_fits(own: bool, flag: bool) -> bool
    ensures { IsTrue result ↔ (IsTrue flag → IsTrue own) }
{
    own || !flag
}

/// Whether `a` fits `b`: each register of `b` is in `a`, with a type that fits (own choice).
pub fn fits_file(a: &RegFile, b: &RegFile) -> bool
    ensures { IsTrue result ↔ FitsFile (lookup (file a.now.regs.items)) (file b.now.regs.items) }
{
    each_fits(&a.regs, &b.regs)
}

// Each register is looked up from the start.
fn each_fits(a: &[(u64, TType)], b: &[(u64, TType)]) -> bool
    ensures { IsTrue result ↔ FitsFile (lookup (file a.now)) (file b.now) }
{
    for reg in b {
        match find(a, reg.0) {
            Some(t) => {
                if !fits(t, &reg.1) {
                    return false;
                }
            }
            None => return false,
        }
    }
    true
}

/// The type of a register, where the file has it.
pub fn find(regs: &[(u64, TType)], r: u64) -> Option<&TType>
    ensures { option_map (λ t. tree t.now) result ≡ lookup (file regs.now) r }
{
    for reg in regs {
        if reg.0 == r {
            return Some(&reg.1);
        }
    }
    None
}
