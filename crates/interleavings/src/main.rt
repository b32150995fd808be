//! `interleavings`: drives the core through every merge of what two editors do, for each of some rows, and compares each reply, each entry and
//! each version with a plain replay of the requests.
#![tactic(auto)]

mod acts;
mod comparing;
mod ending;
mod merging;
mod replay;
mod rows;
mod serving;
mod trouble;

use acts::{LIMIT, acts, change};
use dl_base::{Ontology, sorted_once};
use dl_io::{Files, StdFiles};
use merging::Race;
use owl_read::read_ontology;
use rows::{ROWS, Row};
use std::alloc::Global;
use std::process::ExitCode;
use std::sync::Arc;
use trouble::Trouble;
use update_engine::Rules;

/// What the row says, read.
fn race<F: Files>(
    alloc: Global,
    files: &mut F,
    ontology: &Ontology,
    row: &Row,
) -> Result<Race, Trouble> {
    let (facts, _) = change(alloc, ontology, row.facts)?;
    let rules = Rules::compile(alloc, ontology)?;
    let Ok(rules) = Arc::new(alloc, rules) else {
        return Err(Trouble::OutOfMemory);
    };
    Ok(Race {
        rules,
        facts: sorted_once(facts.into_vec())?,
        limit: row.limit,
        first: acts(alloc, files, ontology, row.first)?,
        second: acts(alloc, files, ontology, row.second)?,
    })
}

/// How many merges of the row there are, and how many differ.
fn tried<F: Files>(
    alloc: Global,
    files: &mut F,
    ontology: &Ontology,
    row: &Row,
) -> Result<(u64, u64), Trouble> {
    race(alloc, files, ontology, row)?.tried(alloc)
}

fn main(rt: HostRuntime) -> ExitCode {
    let mut files = StdFiles::new(&rt);
    let Ok(bytes) = files.read(rt.alloc(), "university.ofn", LIMIT) else {
        return ExitCode::from(3);
    };
    let Ok(read) = read_ontology(rt.alloc(), bytes.as_slice()) else {
        return ExitCode::from(3);
    };
    let mut status = 0;
    for row in &ROWS {
        let printed = match tried(rt.alloc(), &mut files, &read.ontology, row) {
            Ok((merges, differ)) => {
                if differ > 0 {
                    status = 1;
                }
                println!(rt; "{}: {merges} merges, {differ} differ", row.name)
            }
            Err(trouble) => {
                status = 1;
                println!(rt; "{}: {trouble:?}", row.name)
            }
        };
        if printed.is_err() {
            return ExitCode::from(7);
        }
    }
    ExitCode::from(status)
}
