//! `dlupdate`: updates of facts under an ontology, offline.
#![tactic(auto)]

mod commands;
mod committing;
mod files;
mod following;
mod laws;
mod offline;
mod opening;
mod reports;
#[cfg(test)]
mod tests;
mod texts;
mod words;

use dl_io::{StdFiles, StdSink};
use offline::run_offline;
use std::process::ExitCode;
use std::{env, io};

fn main(rt: HostRuntime) -> ExitCode {
    let mut files = StdFiles::new(&rt);
    let mut out = StdSink::new(io::writer(&rt));
    let mut words = Vec::new(rt.alloc());
    if let Ok(all) = env::args(&rt) {
        for word in all.skip(1) {
            if let Err(_) = words.push(word) {
                return ExitCode::from(8);
            }
        }
    }
    ExitCode::from(run_offline(rt.alloc(), words.as_slice(), &mut files, &mut out))
}
