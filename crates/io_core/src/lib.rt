//! What the compiler reads and writes: files and sinks, in memory and at the system.
#![tactic(auto)]

mod calls;
mod disk_files;
mod failing;
mod mem_files;
mod mem_sink;
mod out_sink;
mod outside;

pub use calls::MadeCall;
pub use disk_files::DiskFiles;
pub use mem_files::MemFiles;
pub use mem_sink::MemSink;
pub use out_sink::OutSink;
pub use outside::{Files, Sink, Stop};
