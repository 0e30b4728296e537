//! Compares what `talc` answers with the rows of the files of TOML that are named on the command line, and does the
//! commands of the file that is named last. Of a file of rows it prints a line with the number of its rows, behind
//! lines for each row that does not hold, and of a command what it prints. It ends with a failure where a row does not
//! hold. CONTRIBUTING.md says what a row file has.
#![tactic(auto)]

mod checking;
mod commands;
mod content;
mod files;
mod keys;
mod row;
mod row_file;
mod scant;
mod text;
mod unlike;
mod value;

use anyhow::{Result, ensure};
use commands::show_commands;
use row_file::check_file;
use std::alloc::Global;
use std::env;

// All words of the command line.
fn words(rt: &HostRuntime, alloc: Global) -> Result<Vec<String>> {
    let mut words = Vec::new(alloc);
    for word in env::args(rt)? {
        words.push(word)?;
    }
    Ok(words)
}

// How many rows of these files do not hold.
fn check_files(rt: &HostRuntime, alloc: Global, names: &[String]) -> Result<u64> {
    let mut unlike: u64 = 0;
    for name in names {
        unlike = unlike.saturating_add(check_file(rt, alloc, name)?);
    }
    Ok(unlike)
}

fn main(rt: HostRuntime) -> Result<()> {
    let alloc = rt.alloc();
    let words = words(&rt, alloc)?;
    let [_, rows @ .., commands] = words.as_slice() else {
        return Ok(());
    };
    let unlike = check_files(&rt, alloc, rows)?;
    let shown = show_commands(rt, alloc, commands);
    ensure!(shown.is_some(), "{commands}: a command could not be shown");
    ensure!(unlike == 0, "{unlike} rows do not hold");
    Ok(())
}
