// What the commands do: one module for each.
ghost use Rattle.talc_core.specs.Steps.{Performs, PutsReply};
ghost use Rattle.talc_words.specs.Command.{NumbersAreInBounds};
ghost use Rattle.talc_words.specs.Reads.{asked_by};

use crate::commands::check::show_acceptance;
use crate::commands::compile::{compile_file, compile_file_within};
use crate::commands::cost::show_cost;
use crate::commands::eval::show_value;
use crate::commands::executable::{native_file, show_native_listing};
use crate::commands::explain::show_explanation;
use crate::commands::listed::show_listing;
use crate::commands::run::show_run;
use crate::commands::seed::show_seed;
use crate::commands::show::show_form;
use crate::commands::trace::{Window, show_trace};
use crate::commands::type_of::show_type;
use crate::commands::types::show_types;
use crate::commands::upgrade::upgrade_file;
use crate::outside::put_line;
use crate::reply::{Ending, Reply};
use crate::report::Failure;
use io_core::{Files, Sink};
use std::alloc::Global;
use talc_words::Command;

mod check;
mod compile;
mod cost;
mod eval;
mod executable;
mod explain;
mod listed;
mod run;
mod seed;
mod show;
pub(crate) mod trace;
mod type_of;
mod types;
mod upgrade;

pub use check::check_text;
pub use compile::{compile_text, compile_text_within};
pub use cost::cost_text;
pub use eval::eval_text;
pub use executable::{native_listing_text, native_text};
pub use explain::explain_text;
pub use listed::{listed_text, listing_text};
pub use run::run_text;
pub use show::form_of_text;
pub use trace::trace_text;
pub use type_of::type_of_text;
pub use types::types_text;
pub use upgrade::upgrade_text;

// Puts a reply on the output.
fn put_reply<O: Sink>(alloc: Global, out: &mut O, reply: &Reply) -> Result<Ending, Failure>
    ensures { PutsReply reply.now (O.state out.old) (O.state out.new) result }
{
    put_line(alloc, out, &reply.line)?;
    Ok(reply.ending)
}

// Does the work of a command. Nothing is told to the user yet where it fails.
pub(crate) fn perform<F: Files, O: Sink>(
    alloc: Global,
    files: &mut F,
    out: &mut O,
    command: Command,
) -> Result<Ending, Failure>
    requires { NumbersAreInBounds (asked_by command) }
    ensures { Performs (asked_by command.entry) (F.state files.old) (F.state files.new)
        (O.state out.old) (O.state out.new) result }
{
    match command {
        Command::Compile { input, output } => compile_file(alloc, files, input, output),
        Command::CompileWithin {
            input,
            output,
            registers,
        } => compile_file_within(alloc, files, input, output, registers),
        Command::Check { input } => show_acceptance(alloc, files, out, input),
        Command::Run { input, fuel } => show_run(alloc, files, out, input, fuel),
        Command::Cost { input, fuel } => show_cost(alloc, files, out, input, fuel),
        Command::Typeof { input } => show_type(alloc, files, out, input),
        Command::Eval { input, turns } => show_value(alloc, files, out, input, turns),
        Command::Gen { seed, output } => show_seed(alloc, files, out, seed, output),
        Command::Show { input, form } => show_form(alloc, files, out, input, form),
        Command::Explain { input } => show_explanation(alloc, files, out, input),
        Command::Listing { input } => show_listing(alloc, files, out, input),
        Command::Types { input } => show_types(alloc, files, out, input),
        Command::Upgrade { input, output } => upgrade_file(alloc, files, input, output),
        Command::Native {
            input,
            output,
            heap,
        } => native_file(alloc, files, input, output, heap),
        Command::Disassembly { input, heap } => {
            show_native_listing(alloc, files, out, input, heap)
        }
        Command::Trace { input, from, to } => {
            show_trace(alloc, files, out, input, Window { from, to })
        }
    }
}
