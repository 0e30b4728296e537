// The description of the command line, as `clap` takes it.
ghost use Rattle.std.specs.Prelude.{◌≡◌, IfOk, codes, false, true};
ghost use Rattle.clap.specs.Words.{App, Rule, app_of, new_app, rule_of, with_rule, with_subcommand};
ghost use Rattle.talc_words.specs.Description.{file_rule, number_rule, registers_rule, compile_app, check_app, run_app};
ghost use Rattle.talc_words.specs.Description.{typeof_app, eval_app, gen_app, upgrade_app, trace_app};
ghost use Rattle.talc_words.specs.Description.{cost_app, explain_app, flag_rule, form_rule, listing_app, show_app};
ghost use Rattle.talc_words.specs.Description.{bare_app, heap_rule, native_app, optional_file_rule, talc_app};
ghost use Rattle.talc_words.specs.Description.{types_app};

use clap::builder::ValueParser;
use clap::{Arg, ArgAction, Command, value_parser};
use std::alloc::{AllocError, Global};

// A required text of one value, the name of a file.
fn file<'a>(alloc: Global, name: &'a str, help: &'a str) -> Arg<'a>
    ensures rule { rule_of result ≡ file_rule name.entry.now }
    ensures local { result.global ≡ false }
{
    let arg = Arg::new(alloc, name).help(help);
    arg.required(true).action(ArgAction::Set)
}

// A text of one value, the name of a file, that may be left out.
fn optional_file<'a>(alloc: Global, name: &'a str, help: &'a str) -> Arg<'a>
    ensures rule { rule_of result ≡ optional_file_rule name.entry.now }
    ensures local { result.global ≡ false }
{
    Arg::new(alloc, name).help(help).action(ArgAction::Set)
}

// A required option of one whole number below 2 ^ 64, called by its name.
fn number<'a>(alloc: Global, name: &'a str, help: &'a str) -> Arg<'a>
    ensures rule { rule_of result ≡ number_rule name.entry.now }
    ensures local { result.global ≡ false }
{
    let arg = Arg::new(alloc, name).help(help).long(name);
    arg.value_name("N")
        .required(true)
        .action(ArgAction::Set)
        .value_parser(value_parser!(u64))
}

// The option of the registers that a text may use, a whole number from 8 on and below 2 ^ 64.
fn registers<'a>(alloc: Global) -> Arg<'a>
    ensures rule { rule_of result ≡ registers_rule }
    ensures local { result.global ≡ false }
{
    let arg = Arg::new(alloc, "registers").help(
        "The greatest register that OUT may use, 8 at least",
    );
    arg.long("registers")
        .value_name("K")
        .action(ArgAction::Set)
        .value_parser(ValueParser::unsigned(8, u64::MAX))
}

// The option of the bytes of a heap, a whole number from 64 KiB to 1 TiB.
fn heap<'a>(alloc: Global) -> Arg<'a>
    ensures rule { rule_of result ≡ heap_rule }
    ensures local { result.global ≡ false }
{
    let arg = Arg::new(alloc, "heap").help(
        "The bytes of the heap, a multiple of 4096 from 65536 to 1099511627776; if left out, 1073741824",
    );
    arg.long("heap")
        .value_name("BYTES")
        .action(ArgAction::Set)
        .value_parser(ValueParser::unsigned(65536, 1_099_511_627_776))
}

// The required option of a form.
fn form<'a>(alloc: Global) -> Arg<'a>
    ensures rule { rule_of result ≡ form_rule }
    ensures local { result.global ≡ false }
{
    let arg = Arg::new(alloc, "form").help(
        "The form: source, cps, closed, hoisted, allocated or assembly",
    );
    arg.long("form")
        .value_name("F")
        .required(true)
        .action(ArgAction::Set)
}

// A flag, called by its name.
fn flag<'a>(alloc: Global, name: &'a str, help: &'a str) -> Arg<'a>
    ensures rule { rule_of result ≡ flag_rule name.entry.now }
    ensures local { result.global ≡ false }
{
    let arg = Arg::new(alloc, name).help(help).long(name);
    arg.action(ArgAction::SetTrue)
}

// A command without its arguments.
fn named<'a>(alloc: Global, name: &'a str, about: &'a str) -> Command<'a>
    ensures { app_of result ≡ new_app name.entry.now }
{
    Command::new(alloc, name).about(about)
}

// A command that reads a file.
fn reads<'a>(alloc: Global, name: &'a str, about: &'a str) -> Result<Command<'a>, AllocError>
    ensures { IfOk result (λ c. app_of c ≡ with_rule (new_app name.entry.now) (file_rule (codes "IN"))) }
{
    named(alloc, name, about).arg(file(alloc, "IN", "The file to read"))
}

// The file that a command writes.
fn written<'a>(alloc: Global) -> Arg<'a>
    ensures rule { rule_of result ≡ file_rule (codes "OUT") }
    ensures local { result.global ≡ false }
{
    file(alloc, "OUT", "The file to write over")
}

// A command with one more argument.
fn with<'a>(
    command: Result<Command<'a>, AllocError>,
    arg: Arg<'a>,
) -> Result<Command<'a>, AllocError>
    ensures { (above : App) (rule : Rule) → IfOk command.entry (λ c. app_of c ≡ above) →
        rule_of arg.entry ≡ rule → arg.entry.global ≡ false → IfOk result (λ c. app_of c ≡ with_rule above rule) }
{
    command?.arg(arg)
}

// A command with a text that shows how it is used.
fn with_usage<'a>(
    command: Result<Command<'a>, AllocError>,
    usage: &'a str,
) -> Result<Command<'a>, AllocError>
    ensures { (above : App) → IfOk command.entry (λ c. app_of c ≡ above) → IfOk result (λ c. app_of c ≡ above) }
{
    Ok(command?.override_usage(usage))
}

fn compile_words<'a>(alloc: Global) -> Result<Command<'a>, AllocError>
    ensures { IfOk result (λ c. app_of c ≡ compile_app) }
{
    let command = reads(
        alloc,
        "compile",
        "Compiles the source text IN into the TAL text OUT",
    );
    let command = with(command, written(alloc));
    with(command, registers(alloc))
}

fn check_words<'a>(alloc: Global) -> Result<Command<'a>, AllocError>
    ensures { IfOk result (λ c. app_of c ≡ check_app) }
{
    reads(alloc, "check", "Checks the TAL text IN")
}

fn run_words<'a>(alloc: Global) -> Result<Command<'a>, AllocError>
    ensures { IfOk result (λ c. app_of c ≡ run_app) }
{
    let command = reads(
        alloc,
        "run",
        "Runs the TAL text IN for at most N instructions",
    );
    with(
        command,
        number(alloc, "fuel", "The most instructions to make"),
    )
}

fn typeof_words<'a>(alloc: Global) -> Result<Command<'a>, AllocError>
    ensures { IfOk result (λ c. app_of c ≡ typeof_app) }
{
    reads(alloc, "typeof", "Shows the type of the source text IN")
}

fn eval_words<'a>(alloc: Global) -> Result<Command<'a>, AllocError>
    ensures { IfOk result (λ c. app_of c ≡ eval_app) }
{
    let command = reads(alloc, "eval", "Evaluates the source text IN within N turns");
    with(command, number(alloc, "turns", "The most turns to take"))
}

fn gen_words<'a>(alloc: Global) -> Result<Command<'a>, AllocError>
    ensures { IfOk result (λ c. app_of c ≡ gen_app) }
{
    let about = "Writes the source of the seed N to OUT, compiled, evaluated, checked and run";
    let command = with(Ok(named(alloc, "gen", about)), written(alloc));
    with(command, number(alloc, "seed", "The seed"))
}

fn upgrade_words<'a>(alloc: Global) -> Result<Command<'a>, AllocError>
    ensures { IfOk result (λ c. app_of c ≡ upgrade_app) }
{
    let command = reads(
        alloc,
        "upgrade",
        "Writes the program of the TAL text IN to OUT in the newest version of the language",
    );
    with(command, written(alloc))
}

fn trace_words<'a>(alloc: Global) -> Result<Command<'a>, AllocError>
    ensures { IfOk result (λ c. app_of c ≡ trace_app) }
{
    let command = reads(
        alloc,
        "trace",
        "Runs the TAL text IN for at most --to instructions, and shows each state from --from on",
    );
    let command = with(
        command,
        number(
            alloc,
            "from",
            "The number of instructions before the first state that is shown",
        ),
    );
    with(
        command,
        number(alloc, "to", "The most instructions to make"),
    )
}

pub(crate) fn show_words<'a>(alloc: Global) -> Result<Command<'a>, AllocError>
    ensures { IfOk result (λ c. app_of c ≡ show_app) }
{
    let command = reads(
        alloc,
        "show",
        "Shows a form of the program of the source text IN",
    );
    let command = with(command, form(alloc));
    with(
        command,
        flag(
            alloc,
            "types",
            "Shows the type of what each `let` binds, in each form but source and assembly",
        ),
    )
}

fn explain_words<'a>(alloc: Global) -> Result<Command<'a>, AllocError>
    ensures { IfOk result (λ c. app_of c ≡ explain_app) }
{
    reads(
        alloc,
        "explain",
        "Shows what is wrong with the source text or TAL text IN",
    )
}

fn cost_words<'a>(alloc: Global) -> Result<Command<'a>, AllocError>
    ensures { IfOk result (λ c. app_of c ≡ cost_app) }
{
    let command = reads(
        alloc,
        "cost",
        "Runs the TAL text IN for at most N instructions, and shows what the run cost",
    );
    with(
        command,
        number(alloc, "fuel", "The most instructions to make"),
    )
}

fn listing_words<'a>(alloc: Global) -> Result<Command<'a>, AllocError>
    ensures { IfOk result (λ c. app_of c ≡ listing_app) }
{
    reads(
        alloc,
        "listing",
        "Shows the TAL text IN with the types of the registers at each place",
    )
}

fn types_words<'a>(alloc: Global) -> Result<Command<'a>, AllocError>
    ensures { IfOk result (λ c. app_of c ≡ types_app) }
{
    reads(
        alloc,
        "types",
        "Shows the names that the source text IN binds, with their types",
    )
}

// `native`, with a usage that shows its two forms.
pub(crate) fn native_words<'a>(alloc: Global) -> Result<Command<'a>, AllocError>
    ensures { IfOk result (λ c. app_of c ≡ native_app) }
{
    let about =
        "Writes an x86-64 Linux executable of the TAL text IN to OUT, or shows its instructions";
    let command = reads(alloc, "native", about);
    let command = with(
        command,
        optional_file(alloc, "OUT", "The executable file to write over"),
    );
    let command = with(
        command,
        flag(
            alloc,
            "listing",
            "Shows the instructions that the file would have, and writes no file",
        ),
    );
    let command = with(command, heap(alloc));
    with_usage(
        command,
        "talc native [--heap <BYTES>] <IN> <OUT>
       talc native --listing [--heap <BYTES>] <IN>",
    )
}

// The command line without its subcommands: one must be given, and there is no `help` among them.
fn bare_words<'a>(alloc: Global) -> Command<'a>
    ensures { app_of result ≡ bare_app }
{
    Command::new(alloc, "talc")
        .subcommand_required(true)
        .disable_help_subcommand(true)
}

// The command line with one more subcommand, where no argument of that is global.
fn with_words<'a>(
    all: Result<Command<'a>, AllocError>,
    sub: Result<Command<'a>, AllocError>,
) -> Result<Command<'a>, AllocError>
    ensures { (above below : App) → IfOk all.entry (λ c. app_of c ≡ above) →
        IfOk sub.entry (λ c. app_of c ≡ below) → below.top.is_plain ≡ true →
        IfOk result (λ c. app_of c ≡ with_subcommand above below.top) }
{
    all?.subcommand(sub?)
}

// The whole description.
pub(crate) fn talc_words<'a>(alloc: Global) -> Result<Command<'a>, AllocError>
    ensures { IfOk result (λ c. app_of c ≡ talc_app) }
{
    let all = with_words(Ok(bare_words(alloc)), compile_words(alloc));
    let all = with_words(all, check_words(alloc));
    let all = with_words(all, run_words(alloc));
    let all = with_words(all, typeof_words(alloc));
    let all = with_words(all, eval_words(alloc));
    let all = with_words(all, gen_words(alloc));
    let all = with_words(all, upgrade_words(alloc));
    let all = with_words(all, trace_words(alloc));
    let all = with_words(all, show_words(alloc));
    let all = with_words(all, explain_words(alloc));
    let all = with_words(all, cost_words(alloc));
    let all = with_words(all, listing_words(alloc));
    let all = with_words(all, types_words(alloc));
    with_words(all, native_words(alloc))
}
