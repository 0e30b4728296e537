// From the words of a command line to the command.
ghost use Rattle.std.specs.Prelude.{◌≡◌, Some, codes, is_some, map, string_bytes};
ghost use Rattle.std.specs.Option.{option_map};
ghost use Rattle.clap.specs.Words.{first_of, found_of, kind_of, one_of, rows_of, subcommand_rows_of};
ghost use Rattle.clap.specs.declared.error.kind.ErrorKind.TheVariants.{OutOfMemory};
ghost use Rattle.talc_words.specs.Command.{asked_between, asked_in, asked_of, asked_with, asked_within, form_in};
ghost use Rattle.talc_words.specs.Command.{asked_to_build, flag_in, heap_in, number_in, shown_in};
ghost use Rattle.talc_words.specs.Command.{Costs, Evaluates, Generates, Runs, Shows, Upgrades};
ghost use Rattle.talc_words.specs.Reads.{asked_by, AsksFor, Reads};

use crate::command::{Command, NoCommand};
use crate::description::{native_words, show_words, talc_words};
use crate::form::{Form, form_named, with_types};
use clap::error::ErrorKind;
use clap::{ArgMatches, Error};
use std::alloc::{AllocError, Global};

// The value of an argument.
fn value<'a>(matches: &ArgMatches<'a>, name: &str) -> Option<&'a str>
    ensures { option_map (λ s. s.now) result ≡ first_of name.now (rows_of (found_of matches.now)) }
{
    matches.get_str(name)
}

// The number that an option of whole numbers has.
fn number(matches: &ArgMatches, name: &str) -> Option<u64>
    ensures { result ≡ number_in name.now (rows_of (found_of matches.now)) }
{
    matches.get_one::<u64>(name)
}

// The form that the option has.
fn form(matches: &ArgMatches) -> Option<Form>
    ensures { result ≡ form_in (rows_of (found_of matches.now)) }
{
    form_named(value(matches, "form")?)
}

// Whether a flag was used.
fn flag(matches: &ArgMatches, name: &str) -> bool
    ensures { result ≡ flag_in name.now (rows_of (found_of matches.now)) }
{
    match value(matches, name) {
        Some(text) => text == "true",
        None => false,
    }
}

// The form that is to be shown, with types or without.
fn shown(matches: &ArgMatches) -> Option<Form>
    ensures { result ≡ shown_in (rows_of (found_of matches.now)) }
{
    let form = form(matches)?;
    if flag(matches, "types") {
        return with_types(form);
    }
    Some(form)
}

// Whether an argument has a value.
fn is_there(matches: &ArgMatches, name: &str) -> bool
    ensures { result ≡ is_some (one_of name.now (rows_of (found_of matches.now))) }
{
    value(matches, name).is_some()
}

// What `compile` asks for, with its option or without.
fn compiling<'a>(matches: &ArgMatches<'a>) -> Option<Command<'a>>
    ensures { option_map asked_by result ≡ asked_within (first_of (codes "IN") (rows_of (found_of matches.now)))
        (first_of (codes "OUT") (rows_of (found_of matches.now)))
        (one_of (codes "registers") (rows_of (found_of matches.now))) }
{
    let (input, output) = (value(matches, "IN")?, value(matches, "OUT")?);
    if !is_there(matches, "registers") {
        return Some(Command::Compile { input, output });
    }
    let registers = number(matches, "registers")?;
    Some(Command::CompileWithin {
        input,
        output,
        registers,
    })
}

// What `run` asks for.
fn running<'a>(matches: &ArgMatches<'a>) -> Option<Command<'a>>
    ensures { option_map asked_by result ≡ asked_with Runs (first_of (codes "IN") (rows_of (found_of matches.now)))
        (number_in (codes "fuel") (rows_of (found_of matches.now))) }
{
    let (input, fuel) = (value(matches, "IN")?, number(matches, "fuel")?);
    Some(Command::Run { input, fuel })
}

// What `eval` asks for.
fn evaluating<'a>(matches: &ArgMatches<'a>) -> Option<Command<'a>>
    ensures { option_map asked_by result ≡ asked_with Evaluates (first_of (codes "IN") (rows_of (found_of matches.now)))
        (number_in (codes "turns") (rows_of (found_of matches.now))) }
{
    let (input, turns) = (value(matches, "IN")?, number(matches, "turns")?);
    Some(Command::Eval { input, turns })
}

// What `gen` asks for.
fn generating<'a>(matches: &ArgMatches<'a>) -> Option<Command<'a>>
    ensures { option_map asked_by result ≡ asked_with (λ output seed. Generates seed output)
        (first_of (codes "OUT") (rows_of (found_of matches.now)))
        (number_in (codes "seed") (rows_of (found_of matches.now))) }
{
    let (output, seed) = (value(matches, "OUT")?, number(matches, "seed")?);
    Some(Command::Gen { seed, output })
}

// What `upgrade` asks for.
fn upgrading<'a>(matches: &ArgMatches<'a>) -> Option<Command<'a>>
    ensures { option_map asked_by result ≡ asked_with Upgrades (first_of (codes "IN") (rows_of (found_of matches.now)))
        (first_of (codes "OUT") (rows_of (found_of matches.now))) }
{
    let input = value(matches, "IN")?;
    let output = value(matches, "OUT")?;
    Some(Command::Upgrade { input, output })
}

// What `trace` asks for.
fn tracing<'a>(matches: &ArgMatches<'a>) -> Option<Command<'a>>
    ensures { option_map asked_by result ≡ asked_between (first_of (codes "IN") (rows_of (found_of matches.now)))
        (number_in (codes "from") (rows_of (found_of matches.now)))
        (number_in (codes "to") (rows_of (found_of matches.now))) }
{
    let (input, from) = (value(matches, "IN")?, number(matches, "from")?);
    let to = number(matches, "to")?;
    Some(Command::Trace { input, from, to })
}

// What `show` asks for.
fn showing<'a>(matches: &ArgMatches<'a>) -> Option<Command<'a>>
    ensures { option_map asked_by result ≡ asked_with Shows (first_of (codes "IN") (rows_of (found_of matches.now)))
        (shown_in (rows_of (found_of matches.now))) }
{
    let (input, form) = (value(matches, "IN")?, shown(matches)?);
    Some(Command::Show { input, form })
}

// What `cost` asks for.
fn costing<'a>(matches: &ArgMatches<'a>) -> Option<Command<'a>>
    ensures { option_map asked_by result ≡ asked_with Costs (first_of (codes "IN") (rows_of (found_of matches.now)))
        (number_in (codes "fuel") (rows_of (found_of matches.now))) }
{
    let (input, fuel) = (value(matches, "IN")?, number(matches, "fuel")?);
    Some(Command::Cost { input, fuel })
}

// The heap that `native` asks for: a multiple of 4096 bytes, 1 GiB where none is given.
fn heap(matches: &ArgMatches) -> Option<u64>
    ensures { result ≡ heap_in (rows_of (found_of matches.now)) }
{
    if !is_there(matches, "heap") {
        return Some(1_073_741_824);
    }
    let bytes = number(matches, "heap")?;
    if bytes % 4096 != 0 {
        return None;
    }
    Some(bytes)
}

// What `native` asks for, with its flag or without.
fn building<'a>(matches: &ArgMatches<'a>) -> Option<Command<'a>>
    ensures { option_map asked_by result ≡ asked_to_build (flag_in (codes "listing") (rows_of (found_of matches.now)))
        (first_of (codes "IN") (rows_of (found_of matches.now)))
        (first_of (codes "OUT") (rows_of (found_of matches.now))) (heap_in (rows_of (found_of matches.now))) }
{
    let input = value(matches, "IN")?;
    let heap = heap(matches)?;
    match (flag(matches, "listing"), value(matches, "OUT")) {
        (false, Some(output)) => Some(Command::Native {
            input,
            output,
            heap,
        }),
        (true, None) => Some(Command::Disassembly { input, heap }),
        _ => None,
    }
}

// What the subcommand that was entered asks for.
fn entered<'a>(name: &str, matches: &ArgMatches<'a>) -> Option<Command<'a>>
    ensures { option_map asked_by result ≡ asked_in name.now (rows_of (found_of matches.now)) }
{
    match name {
        "compile" => compiling(matches),
        "check" => {
            let input = value(matches, "IN")?;
            Some(Command::Check { input })
        }
        "run" => running(matches),
        "typeof" => {
            let input = value(matches, "IN")?;
            Some(Command::Typeof { input })
        }
        "eval" => evaluating(matches),
        "gen" => generating(matches),
        "upgrade" => upgrading(matches),
        "trace" => tracing(matches),
        "show" => showing(matches),
        "explain" => {
            let input = value(matches, "IN")?;
            Some(Command::Explain { input })
        }
        "cost" => costing(matches),
        "listing" => {
            let input = value(matches, "IN")?;
            Some(Command::Listing { input })
        }
        "types" => {
            let input = value(matches, "IN")?;
            Some(Command::Types { input })
        }
        "native" => building(matches),
        _ => None,
    }
}

// What the subcommand of a parse asks for.
fn asked<'a>(matches: &ArgMatches<'a>) -> Option<Command<'a>>
    ensures { option_map asked_by result ≡ asked_of (subcommand_rows_of matches.now) }
{
    match matches.subcommand() {
        Some((name, matches)) => entered(name, matches),
        None => None,
    }
}

// The text of an error without `clap`'s tips, which guess at what was meant: no name is refused with a hint at a
// similar one.
fn without_tips(alloc: Global, text: &str) -> Result<String, AllocError> {
    let mut made = String::new(alloc);
    let mut behind_tip = false;
    for line in text.lines() {
        let is_tip = line.starts_with("  tip:");
        if !is_tip && !(behind_tip && line.is_empty()) {
            made.push_str(line)?;
            made.push_str("\n")?;
        }
        behind_tip = is_tip;
    }
    Ok(made)
}

// The text of an error, as it is told.
fn text_of(alloc: Global, error: &Error) -> Result<String, AllocError> {
    let text = format!(in alloc; "{error}")?;
    without_tips(alloc, text.as_str())
}

// The text of an error, unless the error is itself want of memory.
fn not_taken(alloc: Global, error: &Error) -> NoCommand
    ensures { kind_of error.now ≡ OutOfMemory → result ≡ NoCommand.Memory }
{
    if error.kind() == ErrorKind::OutOfMemory {
        return NoCommand::Memory;
    }
    match text_of(alloc, error) {
        Ok(text) => NoCommand::Usage(text),
        Err(_) => NoCommand::Memory,
    }
}

// `clap`'s error on a value of `form` that names no form, or one that is not shown with types.
fn no_form(alloc: Global, name: &str) -> Result<Error, AllocError> {
    let mut show = show_words(alloc)?.bin_name("talc show")?;
    if form_named(name).is_some() {
        let text = format!(in alloc; "the argument '--types' cannot be used with '--form {name}'")?;
        return show.error(ErrorKind::ArgumentConflict, text.as_str());
    }
    let text = format!(in alloc;
        "invalid value '{name}' for '--form <F>'
  [possible values: source, cps, closed, hoisted, allocated, assembly]"
    )?;
    show.error(ErrorKind::InvalidValue, text.as_str())
}

// `clap`'s error on a value of `heap` that is no multiple of 4096, on OUT and `--listing` together, and on neither.
fn no_file(alloc: Global, found: &ArgMatches) -> Result<Error, AllocError> {
    let mut native = native_words(alloc)?.bin_name("talc native")?;
    if heap(found).is_none() {
        let bytes = value(found, "heap").unwrap_or("");
        let text = format!(in alloc;
            "invalid value '{bytes}' for '--heap <BYTES>': {bytes} is not a multiple of 4096"
        )?;
        return native.error(ErrorKind::ValueValidation, text.as_str());
    }
    if flag(found, "listing") {
        let text = "the argument '--listing' cannot be used with '[OUT]'";
        return native.error(ErrorKind::ArgumentConflict, text);
    }
    let text = "the following required arguments were not provided:
  <OUT>";
    native.error(ErrorKind::MissingRequiredArgument, text)
}

// `clap`'s error on a value of a subcommand that it takes, and that asks for nothing.
fn no_value(alloc: Global, name: &str, found: &ArgMatches) -> Result<Error, AllocError> {
    if name == "native" {
        return no_file(alloc, found);
    }
    no_form(alloc, value(found, "form").unwrap_or(""))
}

// The text on words that `clap` takes, and that ask for nothing.
fn not_asked(alloc: Global, matches: &ArgMatches) -> NoCommand {
    let made = match matches.subcommand() {
        Some((name, found)) => no_value(alloc, name, found),
        None => no_form(alloc, ""),
    };
    match made {
        Ok(error) => not_taken(alloc, &error),
        Err(_) => NoCommand::Memory,
    }
}

// What the words of a parse ask for, or the text where they ask for nothing.
fn asked_or_not<'a>(alloc: Global, matches: &ArgMatches<'a>) -> Result<Command<'a>, NoCommand>
    ensures { AsksFor (asked_of (subcommand_rows_of matches.now)) result }
{
    match asked(matches) {
        Some(command) => Ok(command),
        None => Err(not_asked(alloc, matches)),
    }
}

/// What the words ask for, where they are a command by the description of the command line; the program's own name is
/// the first of them, a form has one of the six names, with `--types` it is one that can be shown with types, a heap is
/// a multiple of 4096 bytes, and `native` has either OUT or `--listing`. Words that are none come back as `clap`'s text
/// for the user.
pub fn read<'a>(alloc: Global, words: &'a Vec<String>) -> Result<Command<'a>, NoCommand>
    ensures { Reads (map string_bytes words.entry.now.items) result }
{
    let Ok(description) = talc_words(alloc) else {
        return Err(NoCommand::Memory);
    };
    match description.try_get_matches_from(words.as_slice()) {
        Ok(matches) => asked_or_not(alloc, &matches),
        Err(error) => Err(not_taken(alloc, &error)),
    }
}
