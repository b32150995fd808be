mod lines;
mod refusals;
mod writing;

use crate::{print_facts, read_facts};
use dl_base::{Kind, Name, Ontology};
use dl_text::ReadRefusal;
use std::alloc::Global;
use std::test::Fail;

/// The class `u:C`, the role `u:p`, the attribute `u:u` and the annotation property `u:n`, numbered from 0.
pub fn small(alloc: Global) -> Result<Ontology, Fail> {
    let mut terms = Vec::new(alloc);
    for (name, kind) in [
        ("u:C", Kind::Class),
        ("u:p", Kind::Role),
        ("u:u", Kind::Attr),
        ("u:n", Kind::Note),
    ] {
        terms.push((Name::of(alloc, name.as_bytes())?, kind))?;
    }
    Ok(Ontology::of(alloc, terms, Vec::new(alloc))?)
}

/// The lines of the facts of the text and the number of skipped triples, or the kind of the refusal and its line.
pub fn told(alloc: Global, text: &[u8]) -> Result<String, Fail> {
    let ontology = small(alloc)?;
    match read_facts(alloc, text, &ontology) {
        Ok(read) => {
            let lines = print_facts(alloc, read.facts.as_slice(), &ontology)?;
            let lines = String::from_utf8(lines).ok().ok_or("UTF-8")?;
            Ok(format!(in alloc; "{}{}", lines, read.skipped)?)
        }
        Err(ReadRefusal::Refused { line, kind }) => {
            Ok(format!(in alloc; "{} {}", kind.name(), line)?)
        }
        Err(ReadRefusal::OutOfMemory) => Ok(format!(in alloc; "out of memory")?),
    }
}
