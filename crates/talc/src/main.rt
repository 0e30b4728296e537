//! The program `talc`: it hands the words of the command line, the disk and the standard streams to the library's top
//! call, and ends with its status.
#![tactic(auto)]

use io_core::{DiskFiles, OutSink, Sink};
use std::alloc::Global;
use std::env;
use std::io::ErrorKind;
use std::process::ExitCode;
use talc_core::{Status, talc};

// All words of the command line. Words that are not UTF-8 are no command, as no words are.
fn read_words(rt: &HostRuntime, alloc: Global) -> Option<Vec<String>> {
    let mut words = Vec::new(alloc);
    match env::args(rt) {
        Ok(arguments) => {
            for word in arguments {
                words.push(word).ok()?;
            }
            Some(words)
        }
        Err(error) if error.kind() == ErrorKind::OutOfMemory => None,
        Err(_) => Some(words),
    }
}

fn run(rt: HostRuntime) -> Status {
    let alloc = rt.alloc();
    let mut out = OutSink::new(rt.stdout());
    let mut err = OutSink::new(rt.stderr());
    let Some(words) = read_words(&rt, alloc) else {
        let _ = err.put(alloc, b"out of memory\n");
        return Status::Memory;
    };
    let mut files = DiskFiles::new(rt);
    talc(alloc, &words, &mut files, &mut out, &mut err)
}

fn main(rt: HostRuntime) -> ExitCode {
    ExitCode::from(run(rt).number())
}
