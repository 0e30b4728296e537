// The commands of a file, each with what it prints.
use io_core::{DiskFiles, Files, OutSink, Sink};
use std::alloc::{AllocError, Global};
use talc_core::{Status, talc};

fn words(alloc: Global, line: &str) -> Result<Vec<String>, AllocError> {
    let mut words = Vec::new(alloc);
    for word in line.split_whitespace() {
        words.push(String::from_str(alloc, word)?)?;
    }
    Ok(words)
}

// What goes to the standard error of `talc` is shown with the rest.
fn show_command<F: Files, O: Sink, E: Sink>(
    alloc: Global,
    files: &mut F,
    out: &mut O,
    err: &mut E,
    line: &str,
) -> Option<()> {
    let words = words(alloc, line).ok()?;
    let status = talc(alloc, &words, files, out, err);
    if status == Status::Done {
        return Some(());
    }
    let ended = format!(in alloc; "status {}\n", status.number()).ok()?;
    out.put(alloc, ended.as_bytes()).ok()
}

fn show_file<F: Files, O: Sink>(
    alloc: Global,
    files: &mut F,
    out: &mut O,
    name: &str,
) -> Option<()> {
    let text = files.read_all(alloc, name).ok()?;
    out.put(alloc, &text).ok()
}

fn show<F: Files, O: Sink, E: Sink>(
    alloc: Global,
    files: &mut F,
    out: &mut O,
    err: &mut E,
    line: &str,
) -> Option<()> {
    let shown = format!(in alloc; "$ {line}\n").ok()?;
    out.put(alloc, shown.as_bytes()).ok()?;
    match line.strip_prefix("cat ") {
        Some(name) => show_file(alloc, files, out, name),
        None => show_command(alloc, files, out, err, line),
    }
}

fn show_lines<F: Files, O: Sink, E: Sink>(
    alloc: Global,
    files: &mut F,
    out: &mut O,
    err: &mut E,
    commands: &str,
) -> Option<()> {
    for line in commands.lines() {
        show(alloc, files, out, err, line)?;
    }
    Some(())
}

/// Does the commands of a file, one a line, and shows each with what it prints: those of `talc`, with the status where
/// it is not 0, and `cat FILE`, which shows a file. They read and write files of the disk.
pub fn show_commands(rt: HostRuntime, alloc: Global, name: &str) -> Option<()> {
    let mut out = OutSink::new(rt.stdout());
    let mut err = OutSink::new(rt.stdout());
    let mut files = DiskFiles::new(rt);
    let commands = files.read_all(alloc, name).ok()?;
    let commands = str::from_utf8(&commands).ok()?;
    show_lines(alloc, &mut files, &mut out, &mut err, commands)
}
