use crate::rows::Move;
use crate::trouble::Trouble;
use dl_base::{Facts, Kind, Ontology, OutOfMemory, Pattern};
use dl_io::Files;
use owl_read::read_ontology_over;
use std::alloc::Global;
use std::sync::Arc;
use update_read::read_update;

/// What an editor does, read.
#[derive(Drop)]
pub enum Act {
    Begin,
    Change(Facts, Facts),
    Ask(Pattern),
    Commit,
    Abort,
    Replace(Arc<Ontology>),
}

/// The most bytes that a file may have.
pub const LIMIT: usize = 1 << 20;

/// What the moves do, over the ontology.
pub fn acts<F: Files>(
    alloc: Global,
    files: &mut F,
    ontology: &Ontology,
    moves: &[Move],
) -> Result<Vec<Act>, Trouble> {
    let mut acts = Vec::new(alloc);
    for next in moves {
        let act = act_of(alloc, files, ontology, next)?;
        if acts.push(act).is_err() {
            return Err(Trouble::OutOfMemory);
        }
    }
    Ok(acts)
}

fn act_of<F: Files>(
    alloc: Global,
    files: &mut F,
    ontology: &Ontology,
    next: &Move,
) -> Result<Act, Trouble> {
    match next {
        Move::Begin => Ok(Act::Begin),
        Move::Change(text) => {
            let (inserts, deletes) = change(alloc, ontology, text)?;
            Ok(Act::Change(inserts, deletes))
        }
        Move::Ask(class) => match ontology.term(in_namespace(alloc, class)?.as_slice()) {
            Some((term, Kind::Class)) => Ok(Act::Ask(Pattern::Class(term))),
            _ => Err(Trouble::Unreadable),
        },
        Move::Commit => Ok(Act::Commit),
        Move::Abort => Ok(Act::Abort),
        Move::Replace(name) => Ok(Act::Replace(replacement(alloc, files, ontology, name)?)),
    }
}

/// The facts that the update inserts, and those that it deletes.
pub fn change(alloc: Global, ontology: &Ontology, text: &str) -> Result<(Facts, Facts), Trouble> {
    let mut bytes = Vec::new(alloc);
    for part in ["PREFIX : <http://u.example/> ", text] {
        if bytes.extend_from_slice(part.as_bytes()).is_err() {
            return Err(Trouble::OutOfMemory);
        }
    }
    match read_update(alloc, bytes.as_slice(), ontology) {
        Ok(update) => Ok((update.inserts, update.deletes)),
        Err(_) => Err(Trouble::Unreadable),
    }
}

fn in_namespace(alloc: Global, local: &str) -> Result<Vec<u8>, OutOfMemory> {
    let mut name = Vec::new(alloc);
    name.extend_from_slice(b"http://u.example/")?;
    name.extend_from_slice(local.as_bytes())?;
    Ok(name)
}

fn replacement<F: Files>(
    alloc: Global,
    files: &mut F,
    ontology: &Ontology,
    name: &str,
) -> Result<Arc<Ontology>, Trouble> {
    let Ok(bytes) = files.read(alloc, name, LIMIT) else {
        return Err(Trouble::Unreadable);
    };
    let Ok(read) = read_ontology_over(alloc, bytes.as_slice(), ontology) else {
        return Err(Trouble::Unreadable);
    };
    match Arc::new(alloc, read.ontology) {
        Ok(ontology) => Ok(ontology),
        Err(_) => Err(Trouble::OutOfMemory),
    }
}
