// The command `cost`.
ghost use Rattle.std.specs.Prelude.{◌≡◌, ◌≤◌, ℕ, List, IfOk};
ghost use Rattle.t_terms.specs.ReadProgram.{program as program_of, spanned_program};
ghost use Rattle.t_terms.specs.Spanned.{SProg, plain_program};
ghost use Rattle.t_rules.specs.Machine.{HaltedAfter, GoesOnAfter};
ghost use Rattle.t_rules.specs.Rules.{Accepted};
ghost use Rattle.t_check.specs.Checked.{checked_program};
ghost use Rattle.t_machine.specs.Runs.{steps_made};
ghost use Rattle.cost_page.specs.Page.{page};
ghost use Rattle.talc_core.specs.Costed.{IsCost};
ghost use Rattle.talc_core.specs.Costing.{IsCounted, CostShown};
ghost use Rattle.talc_core.specs.FirstFault.{AnAssembly};
ghost use Rattle.talc_core.specs.Shown.{ShowsCost};
ghost use Rattle.talc_core.specs.OnTexts.{ShowsText};
ghost use Rattle.talc_core.specs.Steps.{ShowsFile};

use crate::assembly::check_assembly;
use crate::commands::put_reply;
use crate::commands::run::{integer_line, more_instructions_line};
use crate::outside::read_input;
use crate::refusal::Refusal;
use crate::reply::{Ending, Reply};
use crate::report::Failure;
use cost_page::{Made, page_of};
use idx_core::OutOfMemory;
use io_core::{Files, Sink};
use std::alloc::Global;
use t_check::Checked;
use t_machine::{Counted, Ran, first_counts_are_times, load};

// How a first run ended, how often it executed each place, and which place of its block it ended at.
#[derive(Drop)]
struct FirstCount {
    ran: Ran,
    counts: Vec<u64>,
    index: u64,
}

impl FirstCount {
    fn ended(&self) -> Ran
        ensures { result ≡ self.now.ran }
    {
        self.ran
    }
}

// How many steps a run made that was allowed so many.
fn steps_of(ran: Ran, fuel: u64) -> u64
    ensures { result ≡ steps_made fuel ran }
{
    match ran {
        Ran::Halted { value: _, made } => made,
        Ran::Spent => fuel,
        Ran::NoMemory { made } => made,
    }
}

// The first run of a program, which counts.
fn first_count(alloc: Global, program: &Checked, fuel: u64) -> Result<FirstCount, OutOfMemory>
    requires { Accepted (program_of (checked_program program.now)) }
    ensures { IfOk result (λ x.
        IsCounted (program_of (checked_program program.now)) fuel x.ran x.index x.counts.items) }
{
    let mut machine = load(alloc, program)?;
    let counted = machine.run_counted(alloc, fuel)?;
    let place = machine.place();
    let Counted { ran, counts } = counted;
    Ok(FirstCount {
        ran,
        counts,
        index: place.1,
    })
}

// The page of a first run of so many steps.
fn first_page(
    alloc: Global,
    text: &[u8],
    program: &Checked,
    steps: u64,
    counted: &FirstCount,
) -> Result<Vec<u8>, OutOfMemory>
    ensures { IfOk result (λ lines. lines.items ≡ page text.now (spanned_program (checked_program program.now)) steps
        counted.now.index counted.now.counts.items) }
{
    let tree = program.program();
    let made = Made {
        steps,
        index: counted.index,
        counts: &counted.counts,
    };
    let lines = page_of(alloc, text, tree, &made)?;
    Ok(lines)
}

// What is shown of a program that has halted, behind the page.
fn halted_cost(alloc: Global, lines: Vec<u8>, value: i64) -> Result<Reply, OutOfMemory>
    ensures { IfOk result (λ reply. (text : List ℕ) → (P : SProg) → (fuel steps : ℕ) → steps ≤ fuel →
        HaltedAfter (plain_program P) steps value → IsCost text P steps lines.items →
        CostShown fuel text P reply.ending reply.line.items) }
{
    let mut line = lines;
    let last = integer_line(alloc, value)?;
    line.extend_from_slice(&last)?;
    Ok(Reply {
        ending: Ending::Ends,
        line,
    })
}

// And of one that goes on.
fn running_cost(alloc: Global, lines: Vec<u8>, fuel: u64) -> Result<Reply, OutOfMemory>
    ensures { IfOk result (λ reply. (text : List ℕ) → (P : SProg) → GoesOnAfter (plain_program P) fuel →
        IsCost text P fuel lines.items → CostShown fuel text P reply.ending reply.line.items) }
{
    let mut line = lines;
    let last = more_instructions_line(alloc, fuel)?;
    line.extend_from_slice(&last)?;
    Ok(Reply {
        ending: Ending::GoesOn,
        line,
    })
}

// What is shown of a program of which a first run counted.
fn cost_reply(
    alloc: Global,
    text: &[u8],
    program: &Checked,
    fuel: u64,
    counted: &FirstCount,
) -> Result<Reply, OutOfMemory>
    requires { IsCounted (program_of (checked_program program.now)) fuel counted.now.ran counted.now.index
        counted.now.counts.items }
    ensures { IfOk result (λ reply. CostShown fuel text.now (spanned_program (checked_program program.now)) reply.ending
        reply.line.items) }
{
    first_counts_are_times();
    let ran = counted.ended();
    let steps = steps_of(ran, fuel);
    let lines = first_page(alloc, text, program, steps, counted)?;
    match ran {
        Ran::Halted { value, .. } => {
            let reply = halted_cost(alloc, lines, value)?;
            Ok(reply)
        }
        Ran::Spent => {
            let reply = running_cost(alloc, lines, fuel)?;
            Ok(reply)
        }
        Ran::NoMemory { .. } => Err(OutOfMemory),
    }
}

/// What `cost` shows of an assembly text (own choice): what the run of its accepted program made within `fuel`
/// instructions: how many of which kind, how many blocks it entered, what it allocated, and the places that it executed
/// most; and then what `run` shows of it. Refuses a text by its first fault, or for want of memory.
pub fn cost_text(alloc: Global, text: &[u8], fuel: u64) -> Result<Reply, Refusal>
    ensures { ShowsText (ShowsCost fuel) AnAssembly text.now result }
{
    let program = check_assembly(alloc, text)?;
    let counted = first_count(alloc, &program, fuel)?;
    let reply = cost_reply(alloc, text, &program, fuel, &counted)?;
    Ok(reply)
}

// Shows what the run of the program of the assembly text of a file made.
pub(crate) fn show_cost<F: Files, O: Sink>(
    alloc: Global,
    files: &mut F,
    out: &mut O,
    input: &str,
    fuel: u64,
) -> Result<Ending, Failure>
    ensures { ShowsFile (ShowsCost fuel) AnAssembly input.now (F.state files.old) (F.state files.new)
        (O.state out.old) (O.state out.new) result }
{
    let text = read_input(alloc, files, input)?;
    let reply = cost_text(alloc, &text, fuel)?;
    put_reply(alloc, out, &reply)
}
