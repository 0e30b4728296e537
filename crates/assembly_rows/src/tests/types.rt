// What no clause says: that the calls on types and register files that no other crate calls succeed.
ghost use Rattle.std.specs.Prelude.{◌≡◌, IfOk};
ghost use Rattle.idx_core.specs.Over.{ShiftFitsAt, PutFitsAt, IsWord};
ghost use Rattle.t_types.specs.Read.{tree, file_tree};
ghost use Rattle.t_types.specs.Tree.{ExistsTy, MoreRegs, NoRegs, VarTy, each, each_file};

use idx_core::{OutOfMemory, Scoped};
use std::alloc::Global;
use t_types::{RegFile, TType, eq};

// Whether the type is `some a. t` of a variable.
fn hides(t: &TType, i: u64) -> bool {
    match t {
        TType::Exists(inside) => eq(inside, &TType::Var(i)),
        _ => false,
    }
}

fn is_put_below(alloc: Global) -> Result<bool, OutOfMemory> {
    let t = TType::Exists(Box::new(alloc, TType::Var(1))?);
    let put = t.put(alloc, 0, &TType::Var(3))?;
    Ok(hides(&put, 4))
}

fn is_shifted_below(alloc: Global) -> Result<bool, OutOfMemory> {
    let t = TType::Exists(Box::new(alloc, TType::Var(1))?);
    let shifted = t.shift(alloc, 2, 0)?;
    Ok(hides(&shifted, 3) && t.below(1) && !t.below(0))
}

// under a binder the index grows, and what is put is shifted
#[test]
fn small_types(rt: HostRuntime) -> Result<(), OutOfMemory> {
    assert!(rt; is_put_below(rt.alloc())?);
    assert!(rt; is_shifted_below(rt.alloc())?);
    Ok(())
}

// Whether the file has the registers 1 and 4, with a variable and a `some a. t` of a variable.
fn has(file: &RegFile, i: u64, j: u64) -> bool {
    match file.regs.as_slice() {
        [(r, t), (s, u)] => *r == 1 && eq(t, &TType::Var(i)) && *s == 4 && hides(u, j),
        _ => false,
    }
}

fn is_shifted(alloc: Global, file: &RegFile) -> Result<bool, OutOfMemory>
    requires { each_file (ShiftFitsAt 2) IsWord 1 (file_tree file.now) }
{
    let shifted = file.shift(alloc, 2, 1)?;
    Ok(has(&shifted, 0, 4))
}

fn is_put(alloc: Global, file: &RegFile, at: u64, i: u64, j: u64) -> Result<bool, OutOfMemory>
    requires { each_file (PutFitsAt each at (VarTy 5)) IsWord at (file_tree file.now) }
{
    let put = file.put(alloc, at, &TType::Var(5))?;
    Ok(has(&put, i, j))
}

// some a. t of type 2
fn package(alloc: Global) -> Result<TType, OutOfMemory>
    ensures { IfOk result (λ t. tree t ≡ ExistsTy (VarTy 2)) }
{
    Ok(TType::Exists(Box::new(alloc, TType::Var(2))?))
}

// The registers 1 and 4, with type 0 and such a package.
fn two_registers(alloc: Global) -> Result<RegFile, OutOfMemory>
    ensures { IfOk result (λ r. file_tree r ≡ MoreRegs 1 (VarTy 0) (MoreRegs 4 (ExistsTy (VarTy 2)) NoRegs)) }
{
    let package = package(alloc)?;
    let regs = vec![in alloc; (1, TType::Var(0)), (4, package)]?;
    Ok(RegFile { regs })
}

// In each register of a file the types below the cut stay, and those above the place of a put go down.
#[test]
fn small_files(rt: HostRuntime) -> Result<(), OutOfMemory> {
    let file = two_registers(rt.alloc())?;
    assert!(rt; is_shifted(rt.alloc(), &file)?);
    assert!(rt; is_put(rt.alloc(), &file, 0, 5, 1)?);
    assert!(rt; is_put(rt.alloc(), &file, 1, 0, 6)?);
    Ok(())
}
