//! `read_tree FILE`: parses the text of an ontology and says how many nodes its `Ontology` has at the top. The scripts of bench/ measure it.
#![tactic(auto)]

use dl_io::{Files, StdFiles};
use owl_syntax::{Document, Node, parse};
use std::env;
use std::process::ExitCode;

/// The most bytes that a text may have.
const LIMIT: usize = 256 << 20;

/// How many nodes stand in the document's `Ontology`.
fn nodes_of(document: &Document<'_>) -> usize {
    match &document.root {
        Node::Word { args, .. } => args.len(),
        _ => 0,
    }
}

fn main(rt: HostRuntime) -> ExitCode {
    let mut words = Vec::new(rt.alloc());
    if let Ok(all) = env::args(&rt) {
        for word in all.skip(1) {
            if words.push(word).is_err() {
                return ExitCode::from(8);
            }
        }
    }
    let Some(name) = words.first() else {
        return ExitCode::from(2);
    };
    let mut files = StdFiles::new(&rt);
    let Ok(bytes) = files.read(rt.alloc(), name, LIMIT) else {
        return ExitCode::from(3);
    };
    let Ok(document) = parse(rt.alloc(), bytes.as_slice()) else {
        return ExitCode::from(3);
    };
    let nodes = nodes_of(&document);
    match println!(rt; "nodes {nodes}") {
        Ok(()) => ExitCode::from(0),
        Err(_) => ExitCode::from(7),
    }
}
