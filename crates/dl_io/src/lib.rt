//! The outside of the programs: files that are read and sinks that are written, each with a count of its faults.
#![tactic(auto)]

mod files;
mod memory_files;
mod memory_sink;
mod sinks;
mod std_files;
mod std_sink;

pub use files::{Files, FilesRefusal};
pub use memory_files::MemoryFiles;
pub use memory_sink::MemorySink;
pub use sinks::{Put, Sink, WriteFault, write_all};
pub use std_files::StdFiles;
pub use std_sink::StdSink;
