// Why what is known of the registers does not fit the file of a jump's target: T18, with the first register of the
// file, in its order, that has no type or one that does not fit.
ghost use Rattle.std.specs.Prelude.{◌≡◌, ◌<◌, length};
ghost use Rattle.t_types.specs.Tree.{TFile, CodeTy};
ghost use Rattle.t_intern.specs.Grown.{Grown};
ghost use Rattle.t_intern.specs.Nodes.{at, regs_at, RegsBelow};
ghost use Rattle.t_known.specs.Known.{known, IsSound};
ghost use Rattle.t_check.specs.Verdict.{IsRegFit, IsFileFit};

use idx_core::Span;
use t_intern::Types;
use t_known::{Odds, Refusal, Registers, at_odds, code_parts};
use t_terms::TCode;

// Whether each register of the code's file is known, by a type that fits.
pub(crate) fn check_code(
    registers: &Registers,
    types: &mut Types,
    code: u64,
    span: Span,
) -> Result<(), Refusal>
    requires sound { IsSound types.old registers.now }
    requires there { code < length types.old }
    requires code { (f : TFile) × (at types.old code ≡ CodeTy 0 f) }
    ensures grown { Grown types.old types.new }
    ensures fit { (f : TFile) → at types.old code ≡ CodeTy 0 f →
        IsFileFit types.new registers.now.names (known types.old registers.now) span f result }
{
    match code_parts(types, code)? {
        Some(parts) => check_file(registers, types, &parts.regs, span),
        None => unreachable!(),
    }
}

fn check_file(
    registers: &Registers,
    types: &mut Types,
    regs: &[(u64, u64)],
    span: Span,
) -> Result<(), Refusal>
    requires sound { IsSound types.old registers.now }
    requires regs { RegsBelow (length types.old) regs.now }
    ensures grown { Grown types.old types.new }
    ensures fit { IsFileFit types.new registers.now.names (known types.old registers.now) span
        (regs_at types.old regs.now) result }
{
    for reg in regs {
        check_reg(registers, types, reg.0, reg.1, span)?;
    }
    Ok(())
}

// Whether the register is known, by a type that fits.
fn check_reg(
    registers: &Registers,
    types: &mut Types,
    register: u64,
    wanted: u64,
    span: Span,
) -> Result<(), Refusal>
    requires sound { IsSound types.old registers.now }
    requires wanted { wanted < length types.old }
    ensures grown { Grown types.old types.new }
    ensures fit { IsRegFit types.new registers.now.names (known types.old registers.now) span register
        (at types.old wanted) result }
{
    let names = registers.names;
    let entry = match registers.find(register) {
        Some(entry) => entry,
        None => {
            let missing = Odds::Register {
                register,
                wanted,
                found: None,
                names,
            };
            return at_odds(TCode::T18, span, missing);
        }
    };
    let found = registers.shown(types, entry)?;
    if types.fits_once(found, wanted) {
        return Ok(());
    }
    let unfit = Odds::Register {
        register,
        wanted,
        found: Some(found),
        names,
    };
    at_odds(TCode::T18, span, unfit)
}
