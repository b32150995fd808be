//! `transaction_turns ONTOLOGY FACTS UPDATE COUNT`: opens the facts, and then so many times begins a transaction over them, makes the update in it,
//! asks for the first fact of a class that the update inserts, and gives the transaction up. The scripts of bench/ measure it.
#![tactic(auto)]

mod bases;
mod turns;

use dl_io::{Files, StdFiles};
use loading::{Opened, load};
use std::env;
use std::process::ExitCode;
use turns::Turns;

/// The most bytes that a file may have.
const LIMIT: usize = 1 << 30;

fn main(rt: HostRuntime) -> ExitCode {
    let mut words = Vec::new(rt.alloc());
    if let Ok(all) = env::args(&rt) {
        for word in all.skip(1) {
            if words.push(word).is_err() {
                return ExitCode::from(8);
            }
        }
    }
    let [ontology, facts, update, count] = words.as_slice() else {
        return ExitCode::from(2);
    };
    let Ok(count) = count.parse::<u64>() else {
        return ExitCode::from(2);
    };
    let mut files = StdFiles::new(&rt);
    let Ok(ontology) = files.read(rt.alloc(), ontology, LIMIT) else {
        return ExitCode::from(3);
    };
    let Ok(facts) = files.read(rt.alloc(), facts, LIMIT) else {
        return ExitCode::from(3);
    };
    let Ok(update) = files.read(rt.alloc(), update, LIMIT) else {
        return ExitCode::from(3);
    };
    let Ok(opened) = load(rt.alloc(), ontology.as_slice(), facts.as_slice()) else {
        return ExitCode::from(4);
    };
    let Some(turns) = Turns::of(rt.alloc(), opened, update.as_slice()) else {
        return ExitCode::from(5);
    };
    if println!(rt; "opened").is_err() {
        return ExitCode::from(7);
    }
    let mut answers = 0;
    for _ in 0..count {
        match turns.turn(rt.alloc()) {
            Ok(found) => answers = found,
            Err(_) => return ExitCode::from(5),
        }
    }
    match println!(rt; "transactions {count} answers {answers}") {
        Ok(()) => ExitCode::from(0),
        Err(_) => ExitCode::from(7),
    }
}
