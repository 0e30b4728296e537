// The command `gen`.
ghost use Rattle.std.specs.Prelude.{◌≡◌, ◌≤◌, ◌+◌, ◌*◌, IfOk, IfSome};
ghost use Rattle.t_terms.specs.ReadProgram.{program as program_of, spanned_program};
ghost use Rattle.t_rules.specs.Rules.{Accepted};
ghost use Rattle.t_rules.specs.Machine.{Halts};
ghost use Rattle.t_rules.specs.Times.{program_size};
ghost use Rattle.f_terms.specs.Ty.{TInt};
ghost use Rattle.f_terms.specs.ReadTerm.{spanned};
ghost use Rattle.f_check.specs.Typed.{program_term};
ghost use Rattle.t_check.specs.Checked.{checked_program};
ghost use Rattle.f_seeds.specs.Source.{source};
ghost use Rattle.talc_core.specs.CompiledText.{CompiledText};
ghost use Rattle.talc_core.specs.FirstFault.{AnAssembly, IsChecked, IsAcceptedText, IsTaken};
ghost use Rattle.talc_core.specs.Lines.{bytes_line, seed_lines};
ghost use Rattle.talc_core.specs.Shown.{seed_turns, SeedShown};
ghost use Rattle.talc_core.specs.Steps.{OrMemory, Evaluated, HaltsSoonEnough, ShowsSeed};

use crate::assembly::check_assembly;
use crate::commands::compile::compile_text;
use crate::commands::eval::value_line;
use crate::commands::run::{first_run, integer_line};
use crate::laws::{no_fault_where_taken, texts_keep_laws};
use crate::outside::{put_line, write_output};
use crate::refusal::Refusal;
use crate::reply::Ending;
use crate::report::Failure;
use crate::source::read_program;
use f_check::Program;
use f_eval::{Ended, eval};
use f_seeds::{source_of, sources_are_programs};
use f_terms::{more_turns_keep_the_value, one_answer};
use idx_core::OutOfMemory;
use io_core::{Files, Sink};
use std::alloc::Global;
use t_check::Checked;
use t_machine::Ran;
use t_terms::TProgram;
use t_writer::write_natural;

// The turns within which a source is evaluated. The source of each seed needs fewer.
const TURNS: u64 = 1_000_000;

// The line of how many bytes a source has.
fn bytes_line(alloc: Global, count: usize) -> Result<Vec<u8>, OutOfMemory>
    ensures { IfOk result (λ line. line.items ≡ bytes_line count) }
{
    let mut line = Vec::from_slice(alloc, b"source ")?;
    write_natural(&mut line, count as u64)?;
    line.extend_from_slice(b" bytes\n")?;
    Ok(line)
}

// The lines that are shown of a source.
fn seed_lines(
    alloc: Global,
    bytes: usize,
    value: i64,
    used: u64,
    halted: i64,
) -> Result<Vec<u8>, OutOfMemory>
    ensures { IfOk result (λ lines. lines.items ≡ seed_lines bytes value used halted) }
{
    let mut lines = bytes_line(alloc, bytes)?;
    let value = value_line(alloc, value, used)?;
    lines.extend_from_slice(&value)?;
    lines.extend_from_slice(b"accepted\n")?;
    let integer = integer_line(alloc, halted)?;
    lines.extend_from_slice(&integer)?;
    Ok(lines)
}

// The assembly text that the source of a seed is compiled to, as by `compile`.
fn compile_seed(alloc: Global, seed: u64, text: &[u8]) -> Result<Vec<u8>, Refusal>
    requires { text.now ≡ source seed }
    ensures { OrMemory (λ target. CompiledText (source seed) target.items) result }
{
    no_fault_where_taken();
    sources_are_programs();
    compile_text(alloc, text)
}

// The program of the source of a seed.
fn read_seed(alloc: Global, seed: u64, text: &[u8]) -> Result<Program, Refusal>
    requires { text.now ≡ source seed }
    ensures { OrMemory (λ program. IsChecked (source seed) (spanned (program_term program)) TInt) result }
{
    no_fault_where_taken();
    sources_are_programs();
    read_program(alloc, text)
}

// What the source of a seed evaluates to, and the turns that it takes.
#[derive(Clone, Copy, Debug, PartialEq, Eq, Drop)]
struct Evaluation {
    value: i64,
    used: u64,
}

// Evaluates the source of a seed.
fn evaluate_seed(alloc: Global, seed: u64, text: &[u8]) -> Result<Evaluation, Refusal>
    requires { text.now ≡ source seed }
    ensures { OrMemory (λ e. Evaluated seed e.value e.used) result }
{
    texts_keep_laws();
    sources_are_programs();
    more_turns_keep_the_value();
    let program = read_seed(alloc, seed, text)?;
    match eval(alloc, &program, TURNS)? {
        Ended::Value { value, used } => Ok(Evaluation { value, used }),
        Ended::Spent => unreachable!(),
    }
}

// The program of a text that was compiled, accepted.
fn check_target(alloc: Global, target: &[u8]) -> Result<Checked, Refusal>
    requires { IsTaken AnAssembly target.now }
    ensures { OrMemory (λ checked. IsAcceptedText target.now (spanned_program (checked_program checked))) result }
{
    no_fault_where_taken();
    check_assembly(alloc, target)
}

// As many instructions as a compiled program may make before it halts, where its source takes at most `TURNS` turns; or
// none, where that is no number of 64 bits.
fn enough_fuel(program: &TProgram) -> Option<u64>
    ensures { IfSome result (λ fuel. (seed_turns + 1) * program_size (program_of program.now) ≤ fuel) }
{
    let mut size: u64 = 0;
    for block in &program.blocks {
        size = size.checked_add(block.body.len() as u64 + 1)?;
    }
    size.checked_mul(TURNS + 1)
}

// The integer with which a compiled program halts. A program of which 64 bits don't count the instructions is as one
// that memory doesn't hold.
fn halting_value(alloc: Global, program: &Checked) -> Result<i64, Refusal>
    requires accepted { Accepted (program_of (checked_program program.now)) }
    requires soon { HaltsSoonEnough (program_of (checked_program program.now)) }
    ensures { OrMemory (λ i. Halts (program_of (checked_program program.now)) i) result }
{
    let Some(fuel) = enough_fuel(program.program()) else {
        return Err(Refusal::Memory);
    };
    match first_run(alloc, program, fuel)? {
        Ran::Halted { value, .. } => Ok(value),
        Ran::Spent => unreachable!(),
        Ran::NoMemory { .. } => Err(Refusal::Memory),
    }
}

// Does the work of `compile`, `eval`, `check` and `run` on the source of a seed, and says what comes of it.
fn work_on_seed(alloc: Global, seed: u64, text: &[u8]) -> Result<Vec<u8>, Refusal>
    requires { text.now ≡ source seed }
    ensures { OrMemory (λ lines. SeedShown seed lines.items) result }
{
    texts_keep_laws();
    one_answer();
    let target = compile_seed(alloc, seed, text)?;
    let evaluation = evaluate_seed(alloc, seed, text)?;
    let program = check_target(alloc, &target)?;
    let halted = halting_value(alloc, &program)?;
    let lines = seed_lines(alloc, text.len(), evaluation.value, evaluation.used, halted)?;
    Ok(lines)
}

// Writes the source of a seed to a file, and shows what comes of it.
pub(crate) fn show_seed<F: Files, O: Sink>(
    alloc: Global,
    files: &mut F,
    out: &mut O,
    seed: u64,
    output: &str,
) -> Result<Ending, Failure>
    ensures { ShowsSeed seed output.now (F.state files.old) (F.state files.new)
        (O.state out.old) (O.state out.new) result }
{
    let text = source_of(alloc, seed)?;
    let lines = work_on_seed(alloc, seed, &text)?;
    write_output(alloc, files, output, &text)?;
    put_line(alloc, out, &lines)?;
    Ok(Ending::Ends)
}
