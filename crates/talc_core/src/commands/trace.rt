// The command `trace`.
ghost use Rattle.std.specs.Prelude.{◌≡◌, ◌≤◌, ◌<◌, ◌+◌, ◌++◌, suc, List, ℕ, IfOk, OnOk};
ghost use Rattle.t_types.specs.Read.{file};
ghost use Rattle.t_terms.specs.ReadProgram.{program as program_of};
ghost use Rattle.t_terms.specs.Tree.{TProg};
ghost use Rattle.t_rules.specs.Machine.{HaltedAfter, GoesOnAfter};
ghost use Rattle.t_rules.specs.Rules.{Accepted};
ghost use Rattle.t_check.specs.Checked.{checked_program};
ghost use Rattle.t_check.specs.Walks.{IsWalk, walked};
ghost use Rattle.t_machine.specs.Runs.{Stands, words_in};
ghost use Rattle.talc_core.specs.FirstFault.{AnAssembly};
ghost use Rattle.talc_core.specs.Shown.{ShowsTrace};
ghost use Rattle.talc_core.specs.OnTexts.{ShowsText};
ghost use Rattle.talc_core.specs.Steps.{ShowsFile};
ghost use Rattle.talc_core.specs.Traced.{HaveWords, IsLine, AreLines, HaltedStates, RunningStates};
ghost use Rattle.talc_core.specs.Tracing.{HaveAll, AddsLine, StatesShown};

use crate::assembly::check_assembly;
use crate::commands::put_reply;
use crate::commands::run::{first_run, integer_line, more_instructions_line};
use crate::outside::read_input;
use crate::refusal::Refusal;
use crate::reply::{Ending, Reply};
use crate::report::Failure;
use idx_core::OutOfMemory;
use io_core::{Files, Sink};
use std::alloc::Global;
use t_check::{Checked, Walk};
use t_machine::{Machine, Ran, load};
use t_rules::{erased_words_are_of_their_kind, states_are_typed};
use t_terms::Shown;
use t_trace::{Place, write_line};
use t_types::TType;

// Which states are shown: from the one after so many instructions to the one after so many.
#[derive(Clone, Copy)]
pub(crate) struct Window {
    pub(crate) from: u64,
    pub(crate) to: u64,
}

// The words of registers that have one.
fn words_of(
    alloc: Global,
    machine: &Machine,
    regs: &[(u64, TType)],
) -> Result<Vec<(u64, Shown)>, OutOfMemory>
    requires { HaveAll (words_in machine.now) (file regs.now) }
    ensures { IfOk result (λ words. HaveWords (words_in machine.now) words.items (file regs.now)) }
{
    let mut words = Vec::new(alloc);
    for reg in regs {
        match machine.reg(reg.0) {
            Some(word) => words.push((reg.0, word))?,
            None => unreachable!(),
        }
    }
    Ok(words)
}

// Puts the line of the state at which the machine stands after the others.
fn write_state(
    alloc: Global,
    lines: &mut Vec<u8>,
    machine: &Machine,
    walk: &mut Walk,
    m: u64,
) -> Result<(), OutOfMemory>
    requires accepted { Accepted (walked walk.old) }
    requires stands { Stands (walked walk.old) m machine.now }
    requires walk { IsWalk walk.old }
    ensures walk { IsWalk walk.new }
    ensures program { walk.new.program ≡ walk.old.program }
    ensures line { OnOk result (AddsLine (walked walk.old) m lines.old.items lines.new.items) }
{
    erased_words_are_of_their_kind();
    states_are_typed();
    let (block, index) = machine.place();
    let (vars, known) = walk.to(block, index)?;
    let words = words_of(alloc, machine, &known.regs)?;
    let place = Place {
        block,
        index,
        vars,
        types: &known,
    };
    write_line(lines, m, place, &words)?;
    Ok(())
}

// What is shown of a program that has halted, behind the lines of its states.
fn halted_reply(alloc: Global, lines: Vec<u8>, value: i64) -> Result<Reply, OutOfMemory>
    ensures { IfOk result (λ reply. (P : TProg) → (from to steps : ℕ) → steps ≤ to → HaltedAfter P steps value →
        AreLines P from (suc steps) lines.items → StatesShown P from to reply.ending reply.line.items) }
{
    let mut line = lines;
    let last = integer_line(alloc, value)?;
    line.extend_from_slice(&last)?;
    Ok(Reply {
        ending: Ending::Ends,
        line,
    })
}

// And of one that goes on.
fn running_reply(alloc: Global, lines: Vec<u8>, to: u64) -> Result<Reply, OutOfMemory>
    ensures { IfOk result (λ reply. (P : TProg) → (from : ℕ) → GoesOnAfter P to →
        AreLines P from (suc to) lines.items → StatesShown P from to reply.ending reply.line.items) }
{
    let mut line = lines;
    let last = more_instructions_line(alloc, to)?;
    line.extend_from_slice(&last)?;
    Ok(Reply {
        ending: Ending::GoesOn,
        line,
    })
}

// The states of a program, where the machine stands at the first that is shown.
fn states_from(
    alloc: Global,
    machine: &mut Machine,
    walk: &mut Walk,
    window: Window,
) -> Result<Reply, OutOfMemory>
    requires accepted { Accepted (walked walk.old) }
    requires stands { Stands (walked walk.old) window.from machine.old }
    requires walk { IsWalk walk.old }
    requires order { window.from ≤ window.to }
    ensures { IfOk result (λ reply.
        StatesShown (walked walk.old) window.from window.to reply.ending reply.line.items) }
{
    let mut lines = Vec::new(alloc);
    for m in window.from..window.to {
        write_state(alloc, &mut lines, machine, walk, m)?;
        match machine.run(1) {
            Ran::Halted { value, made } => {
                if made > 0 {
                    write_state(alloc, &mut lines, machine, walk, m + 1)?;
                }
                let reply = halted_reply(alloc, lines, value)?;
                return Ok(reply);
            }
            Ran::Spent => (),
            Ran::NoMemory { .. } => return Err(OutOfMemory),
        }
    }
    write_state(alloc, &mut lines, machine, walk, window.to)?;
    match machine.run(0) {
        Ran::Halted { value, .. } => {
            let reply = halted_reply(alloc, lines, value)?;
            Ok(reply)
        }
        Ran::Spent => {
            let reply = running_reply(alloc, lines, window.to)?;
            Ok(reply)
        }
        Ran::NoMemory { .. } => Err(OutOfMemory),
    }
}

// The states of a program of which the machine stands at the start.
fn states_of(
    alloc: Global,
    program: &Checked,
    machine: &mut Machine,
    window: Window,
) -> Result<Reply, OutOfMemory>
    requires accepted { Accepted (program_of (checked_program program.now)) }
    requires stands { Stands (program_of (checked_program program.now)) 0 machine.old }
    requires order { window.from ≤ window.to }
    ensures { IfOk result (λ reply. StatesShown (program_of (checked_program program.now)) window.from window.to
        reply.ending reply.line.items) }
{
    match machine.run(window.from) {
        Ran::Halted { value, made } => {
            if made < window.from {
                let reply = halted_reply(alloc, Vec::new(alloc), value)?;
                return Ok(reply);
            }
        }
        Ran::Spent => (),
        Ran::NoMemory { .. } => return Err(OutOfMemory),
    }
    let mut walk = Walk::new(alloc, program)?;
    let reply = states_from(alloc, machine, &mut walk, window)?;
    Ok(reply)
}

// What is shown where no state is asked for.
fn no_states(alloc: Global, program: &Checked, window: Window) -> Result<Reply, OutOfMemory>
    requires accepted { Accepted (program_of (checked_program program.now)) }
    requires order { window.to < window.from }
    ensures { IfOk result (λ reply. StatesShown (program_of (checked_program program.now)) window.from window.to
        reply.ending reply.line.items) }
{
    match first_run(alloc, program, window.to)? {
        Ran::Halted { value, .. } => {
            let reply = halted_reply(alloc, Vec::new(alloc), value)?;
            Ok(reply)
        }
        Ran::Spent => {
            let reply = running_reply(alloc, Vec::new(alloc), window.to)?;
            Ok(reply)
        }
        Ran::NoMemory { .. } => Err(OutOfMemory),
    }
}

// The states of a program. At most `to` steps are made.
fn states(alloc: Global, program: &Checked, window: Window) -> Result<Reply, OutOfMemory>
    requires { Accepted (program_of (checked_program program.now)) }
    ensures { IfOk result (λ reply. StatesShown (program_of (checked_program program.now)) window.from window.to
        reply.ending reply.line.items) }
{
    if window.to < window.from {
        let reply = no_states(alloc, program, window)?;
        return Ok(reply);
    }
    let mut machine = load(alloc, program)?;
    let reply = states_of(alloc, program, &mut machine, window)?;
    Ok(reply)
}

/// What `trace` shows of an assembly text (own choice): the states of its accepted program from the one after `from`
/// instructions to the one after `to`, a line each, and what `run` shows of it within `to` instructions. Refuses a text
/// by its first fault, or for want of memory.
pub fn trace_text(alloc: Global, text: &[u8], from: u64, to: u64) -> Result<Reply, Refusal>
    ensures { ShowsText (ShowsTrace from to) AnAssembly text.now result }
{
    let program = check_assembly(alloc, text)?;
    let reply = states(alloc, &program, Window { from, to })?;
    Ok(reply)
}

// Shows the states of the program of the assembly text of a file. What is shown is held at once, since it is put in one
// piece.
pub(crate) fn show_trace<F: Files, O: Sink>(
    alloc: Global,
    files: &mut F,
    out: &mut O,
    input: &str,
    window: Window,
) -> Result<Ending, Failure>
    ensures { ShowsFile (ShowsTrace window.from window.to) AnAssembly input.now (F.state files.old) (F.state files.new)
        (O.state out.old) (O.state out.new) result }
{
    let text = read_input(alloc, files, input)?;
    let reply = trace_text(alloc, &text, window.from, window.to)?;
    put_reply(alloc, out, &reply)
}
