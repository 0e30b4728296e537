// The instructions of calls, jumps and ends.
ghost use Rattle.std.specs.Prelude.{◌≡◌, ◌<◌, ◌^◌, ◌++◌, ◌∷◌, [], OnOk};
ghost use Rattle.x_laws.specs.Code as code;
ghost use Rattle.x_laws.specs.Core.{bytes_all};
ghost use Rattle.x_laws.specs.Straight as spec;
ghost use Rattle.x_pass.specs.Homes.{home};
ghost use Rattle.x_pass.specs.Layout.{place_of};

use crate::home::home_at;
use crate::layout::{Labels, place_at};
use crate::straight::{fetch, finish, put, target};
use idx_core::OutOfMemory;
use w_terms::WCond;
use x_code::encode;
use x_terms::{Address, Condition, Instr, Op, Register, Source};

// How a jump leads to an address from the one behind it.
pub(crate) fn far(next: u64, to: u64) -> i32
    requires next_near { next < 2 ^ 31 }
    requires to_near { to < 2 ^ 31 }
    ensures { result ≡ code.far next to }
{
    if to < next {
        return -((next - to) as i64) as i32;
    }
    (to - next) as i32
}

pub(crate) fn condition(test: WCond) -> Condition
    ensures { result ≡ code.condition test }
{
    match test {
        WCond::Equal => Condition::E,
        WCond::Differ => Condition::Ne,
        WCond::Below => Condition::B,
        WCond::AtLeast => Condition::Ae,
    }
}

// The end of the process.
pub(crate) fn leave(out: &mut Vec<Instr>, status: u64) -> Result<(), OutOfMemory>
    ensures { OnOk result (out.new.items ≡ out.old.items ++ code.leave status) }
{
    put(out, Instr::Const(Register::Rdi, status))?;
    put(out, Instr::Const(Register::Rax, 60))?;
    put(out, Instr::Syscall)
}

// What a call of `write` wants, but for the number of the call.
pub(crate) fn written(out: &mut Vec<Instr>, to: u64, ra: u64, rn: u64) -> Result<(), OutOfMemory>
    ensures { OnOk result (out.new.items ≡ out.old.items ++ code.written home to ra rn) }
{
    fetch(out, Register::Rsi, home_at(ra))?;
    fetch(out, Register::Rdx, home_at(rn))?;
    put(out, Instr::Const(Register::Rdi, to))
}

// The status where a write fails.
fn write_failed(to: u64) -> u64
    ensures { result ≡ code.write_failed to }
{
    if to == 1 {
        return 6;
    }
    7
}

// The call, and whether the system took some bytes.
fn ask(out: &mut Vec<Instr>) -> Result<(), OutOfMemory>
    ensures { OnOk result (out.new.items ≡ out.old.items ++ code.asked) }
{
    put(out, Instr::Const(Register::Rax, 1))?;
    put(out, Instr::Syscall)?;
    put(
        out,
        Instr::Lea(Register::Rcx, Address::Based(Register::Rax, -1)),
    )?;
    put(
        out,
        Instr::Arith(Op::Cmp, Register::Rcx, Source::Reg(Register::Rdx)),
    )?;
    put(out, Instr::Jcc(Condition::B, 22))
}

// The same again for the bytes that are left, where there are some.
fn ask_again(out: &mut Vec<Instr>) -> Result<(), OutOfMemory>
    ensures { OnOk result (out.new.items ≡ out.old.items ++ code.asked_again) }
{
    put(
        out,
        Instr::Arith(Op::Add, Register::Rsi, Source::Reg(Register::Rax)),
    )?;
    put(
        out,
        Instr::Arith(Op::Sub, Register::Rdx, Source::Reg(Register::Rax)),
    )?;
    put(out, Instr::Arith(Op::Cmp, Register::Rdx, Source::Int(0)))?;
    put(out, Instr::Jcc(Condition::Ne, -69))
}

// Calls of `write` until all bytes are taken, or the end where one fails.
pub(crate) fn write_loop(out: &mut Vec<Instr>, to: u64) -> Result<(), OutOfMemory>
    ensures { OnOk result (out.new.items ≡ out.old.items ++ code.write_loop to) }
{
    ask(out)?;
    leave(out, write_failed(to))?;
    ask_again(out)
}

pub(crate) fn place_code(
    out: &mut Vec<Instr>,
    labels: &Labels,
    rd: u64,
    l: u64,
) -> Result<(), OutOfMemory>
    ensures { OnOk result
        (out.new.items
        ≡ out.old.items
        ++ (Instr.Const (spec.target (home rd)) (place_of labels.now l) ∷ spec.finish (home rd))) }
{
    let to = home_at(rd);
    put(out, Instr::Const(target(to), place_at(labels, l)))?;
    finish(out, to)
}

pub(crate) fn goto_code(out: &mut Vec<Instr>, q: u64) -> Result<(), OutOfMemory>
    ensures { OnOk result
        (out.new.items
        ≡ out.old.items ++ (spec.fetch Register.Rax (home q) ++ (Instr.JmpReg Register.Rax ∷ []))) }
{
    fetch(out, Register::Rax, home_at(q))?;
    put(out, Instr::JmpReg(Register::Rax))
}

// Puts the bytes of instructions at the end of the code.
pub(crate) fn encode_all(code: &mut Vec<u8>, instrs: &[Instr]) -> Result<(), OutOfMemory>
    ensures { OnOk result (code.new.items ≡ code.old.items ++ bytes_all instrs.now) }
{
    for instr in instrs {
        encode(code, *instr)?;
    }
    Ok(())
}
