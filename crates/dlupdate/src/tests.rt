//! Runs over files and a sink in memory.

mod applying;
mod checking;
mod documents;
mod outside;
mod scripting;

use crate::offline::run_offline;
use dl_io::{MemoryFiles, MemorySink};
use std::alloc::{AllocError, Global};
use std::process::Abort;

/// A file: its name, and its content in pieces.
type File = (&'static str, &'static [&'static str]);

/// A run: its words, its files, and the status and text that must come.
#[derive(Clone, Copy)]
struct Row {
    words: &'static [&'static str],
    files: &'static [File],
    status: u8,
    printed: &'static str,
}

/// Words that hold copies of these.
fn words_of(alloc: Global, words: &[&str]) -> Result<Vec<String>, AllocError> {
    let mut all = Vec::new(alloc);
    for word in words {
        all.push(String::from_str(alloc, word)?)?;
    }
    Ok(all)
}

/// The pieces, one behind another.
fn joined(alloc: Global, pieces: &[&str]) -> Result<Vec<u8>, AllocError> {
    let mut all = Vec::new(alloc);
    for piece in pieces {
        all.extend_from_slice(piece.as_bytes())?;
    }
    Ok(all)
}

/// Files in memory that hold copies of these, of whose reads some fail.
fn files_of(alloc: Global, files: &[File], failing: &[u64]) -> Result<MemoryFiles, AllocError> {
    let mut all = Vec::new(alloc);
    for (name, pieces) in files {
        all.push((String::from_str(alloc, name)?, joined(alloc, pieces)?))?;
    }
    Ok(MemoryFiles::new(all, Vec::from_slice(alloc, failing)?))
}

/// The status of the run, and what is written to a sink for so many bytes.
fn outcome(
    alloc: Global,
    row: Row,
    capacity: usize,
    failing: &[u64],
) -> Result<(u8, Vec<u8>), AllocError> {
    let words = words_of(alloc, row.words)?;
    let mut files = files_of(alloc, row.files, failing)?;
    let mut sink = MemorySink::new(alloc, capacity, Vec::new(alloc))?;
    let status = run_offline(alloc, words.as_slice(), &mut files, &mut sink);
    let written = Vec::from_slice(alloc, sink.bytes())?;
    Ok((status, written))
}

/// The run comes to what its row says.
fn comes(rt: &impl Abort, alloc: Global, row: Row) -> Result<(), AllocError> {
    let (status, written) = outcome(alloc, row, 4096, &[])?;
    assert_eq!(rt; status, row.status);
    assert_eq!(rt; written.as_slice(), row.printed.as_bytes());
    Ok(())
}
