ghost use Rattle.std.specs.Prelude.{◌≡◌, ◌+◌, ◌≤◌, ◌<◌, ◌^◌, All, IfOk, OnOk};
ghost use Rattle.dl_base.specs.Ontologies.{Knows};
ghost use Rattle.ntriples.specs.Files.{Reads, ReadsLines, skips_of, number_after};
ghost use Rattle.ntriples.specs.Gathering.{IsKept};

use crate::gathering::Gathered;
use crate::meaning::line_says;
use dl_base::{Facts, Ontology, OutOfMemory};
use dl_runs::cut_at_either;
use dl_text::{NamePool, ReadKind, ReadRefusal, line_at, utf8_fault};
use std::alloc::Global;
use triples::Said;

/// The facts of a file in its order, repeats dropped, and how many triples it skips.
#[derive(Debug, Drop)]
pub struct ReadFacts {
    pub facts: Facts,
    pub skipped: u64,
}

/// Keeps a fact, and counts a skipped triple.
fn keep(facts: &mut Gathered, it: Option<Said>) -> Result<u64, OutOfMemory>
    ensures facts { OnOk result (IsKept facts.old it facts.new) }
    ensures skipped { IfOk result (λ n. n ≡ skips_of it) }
    ensures at_most { IfOk result (λ n. n ≤ 1) }
{
    match it {
        None => Ok(0),
        Some(Said::Skipped) => Ok(1),
        Some(Said::Fact(fact)) => {
            facts.join(fact)?;
            Ok(0)
        }
    }
}

/// The number of the line behind this end.
fn number_after(line: u64, end: u8) -> u64
    requires { line < 2 ^ 63 }
    ensures value { result ≡ number_after line end }
    ensures at_most { result ≤ line + 1 }
{
    if end == b'\n' { line + 1 } else { line }
}

/// The facts that the lines of a text say.
fn read_lines(alloc: Global, bytes: &[u8], ontology: &Ontology) -> Result<ReadFacts, ReadRefusal>
    ensures { ReadsLines ontology.now bytes.now result }
{
    let mut facts = Gathered::new(alloc);
    let mut pool = NamePool::new(alloc);
    let mut skipped = 0;
    let mut line = 1;
    let mut rest = bytes;
    while let Some((front, end, behind)) = cut_at_either(rest, b'\n', b'\r') {
        let it = match line_says(alloc, &mut pool, ontology, front) {
            Ok(it) => it,
            Err(fault) => return Err(fault.at(line)),
        };
        match keep(&mut facts, it) {
            Ok(more) => skipped += more,
            Err(_) => return Err(ReadRefusal::OutOfMemory),
        }
        line = number_after(line, end);
        rest = behind;
    }
    let it = match line_says(alloc, &mut pool, ontology, rest) {
        Ok(it) => it,
        Err(fault) => return Err(fault.at(line)),
    };
    match keep(&mut facts, it) {
        Ok(more) => Ok(ReadFacts {
            facts: facts.into_facts(alloc)?,
            skipped: skipped + more,
        }),
        Err(_) => Err(ReadRefusal::OutOfMemory),
    }
}

/// The facts of a file of RDF 1.1 N-Triples under the ontology, in the order of the file, repeats dropped, and how many triples it skips:
/// annotations, and that something is an individual. Refused is the first of: the first byte that isn't UTF-8; then the first line that
/// has a refusal, with its number from 1, and in it first a token that is none or has a fault, then the first token with which no triple goes
/// on, then a literal that has no value of its datatype, then a name that is no term (`UnknownTerm`) or one of another kind (`WrongKind`).
pub fn read_facts(
    alloc: Global,
    bytes: &[u8],
    ontology: &Ontology,
) -> Result<ReadFacts, ReadRefusal>
    ensures reads { Reads ontology.now bytes.now result }
    ensures known { IfOk result (λ read. All (Knows ontology.now) read.facts) }
{
    if let Some(place) = utf8_fault(bytes) {
        return Err(ReadRefusal::Refused {
            line: line_at(bytes, place),
            kind: ReadKind::BadUtf8,
        });
    }
    read_lines(alloc, bytes, ontology)
}
