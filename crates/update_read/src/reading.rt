ghost use Rattle.std.specs.Prelude.{◌≡◌, ◌==◌, count_by, List, IfOk};
ghost use Rattle.dl_text.specs.Prefixes.{Bindings};
ghost use Rattle.dl_base.specs.Ontologies as ontologies;
ghost use Rattle.update_read.specs.Grammar as grammar;
ghost use Rattle.update_read.specs.Tokens as lexemes;
ghost use Rattle.update_read.specs.Taking.{Gathers};
ghost use Rattle.update_read.specs.Going.{may_end, IsRead, Fits, IsTold, IsFinished};
ghost use Rattle.update_read.specs.Outcomes.{ReadsText, ReadsUpdate, KnowsUpdate};

use crate::ahead::prefixless_to;
use crate::cutting::cut;
use crate::lexing::token_of;
use crate::lists::{Gathered, Lists};
use crate::meaning::refusal_of;
use crate::progress::{Progress, refused_at};
use crate::spots::Spot;
use dl_base::{Facts, Ontology, OutOfMemory, once};
use dl_text::{NamePool, Prefixes, ReadKind, ReadRefusal, line_at, utf8_fault};
use std::alloc::Global;

/// The facts of an update: those of all `INSERT DATA` parts and those of all `DELETE DATA` parts, each list in the order of the
/// text with repeats dropped, and the number of triples that were skipped.
#[derive(Debug, Drop)]
pub struct ReadUpdate {
    pub inserts: Facts,
    pub deletes: Facts,
    pub skipped: u64,
}

/// What the triples of a whole update say.
fn told(alloc: Global, gathered: Gathered) -> Result<ReadUpdate, ReadRefusal>
    ensures { (theory : ontologies.Theory) (statements : List grammar.Statement) → Gathers theory statements gathered → IsTold theory statements result }
{
    match gathered {
        Gathered::Going(lists) => {
            let inserts = once(alloc, lists.inserts.as_slice())?;
            let deletes = once(alloc, lists.deletes.as_slice())?;
            Ok(ReadUpdate {
                inserts: Facts::of(inserts),
                deletes: Facts::of(deletes),
                skipped: lists.skipped,
            })
        }
        Gathered::Refused { line, kind } => Err(ReadRefusal::Refused { line, kind }),
    }
}

/// Whether an update may end behind the spot.
fn may_end(spot: &Spot) -> bool
    ensures { result ≡ may_end spot.now }
{
    match spot {
        Spot::Start => true,
        Spot::Done => true,
        _ => false,
    }
}

/// The update at the end of its tokens, behind a spot.
fn ended(
    alloc: Global,
    spot: &Spot,
    gathered: Gathered,
    end: u64,
) -> Result<ReadUpdate, ReadRefusal>
    ensures { (theory : ontologies.Theory) (bindings : Bindings) (all : List lexemes.Lexeme) → IsRead theory spot.now bindings gathered all → IsFinished theory all end result }
{
    if may_end(spot) {
        return told(alloc, gathered);
    }
    let (line, kind) = refused_at(spot, end, ReadKind::Syntax);
    Err(ReadRefusal::Refused { line, kind })
}

/// The update at the end of its tokens.
fn finish(alloc: Global, progress: Progress, end: u64) -> Result<ReadUpdate, ReadRefusal>
    ensures { (theory : ontologies.Theory) (all : List lexemes.Lexeme) → Fits theory progress all → IsFinished theory all end result }
{
    match progress {
        Progress::Going(spot, _, gathered) => ended(alloc, &spot, gathered, end),
        Progress::Stopped { line, kind } => Err(ReadRefusal::Refused { line, kind }),
    }
}

fn line_ends(bytes: &[u8]) -> u64
    ensures { result ≡ count_by (λ b. b == 10) bytes.now }
{
    bytes.iter().filter(|b| **b == b'\n').count() as u64
}

/// The update of a text that is UTF-8.
fn read(alloc: Global, bytes: &[u8], ontology: &Ontology) -> Result<ReadUpdate, ReadRefusal>
    ensures { ReadsText ontology.now bytes.now result }
{
    let mut pool = NamePool::new(alloc);
    let mut progress = Progress::start(alloc);
    let mut line = 1;
    let mut rest = bytes;
    let mut known = bytes.len();
    while !rest.is_empty() {
        known = prefixless_to(rest, known);
        let Some((piece, behind)) = cut(rest, known) else {
            return Err(ReadRefusal::Refused {
                line,
                kind: ReadKind::Syntax,
            });
        };
        let token = match token_of(alloc, &mut pool, piece) {
            Ok(token) => token,
            Err(fault) => return Err(refusal_of(fault, line)),
        };
        match progress.advance(alloc, &mut pool, ontology, line, token) {
            Ok(then) => progress = then,
            Err(OutOfMemory) => return Err(ReadRefusal::OutOfMemory),
        }
        line += line_ends(&rest[..rest.len() - behind.len()]);
        rest = behind;
    }
    finish(alloc, progress, line)
}

/// The facts of a ground SPARQL 1.1 Update under the ontology. The first pass that refuses decides, and in a pass the first place: the
/// first byte that isn't UTF-8 (`BadUtf8`); the first place where no token begins or one has no end (`Syntax`), or a token with a fault
/// of its own (`BadEscape`, `BadIri`, `NameTooLong`); the first token with which no update goes on (`Variable`, `BlankNode`,
/// `OtherOperation`, else `Syntax`); the first triple that is refused, where the order is `TooManyFacts` from the 10,001st on, then its
/// names and literal in the order of the text (`UnknownPrefix`, `BadIri`, `NameTooLong`, `BadLiteral`), then `UnknownTerm` or `WrongKind`.
///
/// SPARQL 1.1 Update, section 3.1, and SPARQL 1.1 Query Language, section 19.8.
pub fn read_update(
    alloc: Global,
    bytes: &[u8],
    ontology: &Ontology,
) -> Result<ReadUpdate, ReadRefusal>
    // Bytes, then tokens, then the grammar, then the meaning.
    ensures reads { ReadsUpdate ontology.now bytes.now result }
    ensures known { IfOk result (KnowsUpdate ontology.now) }
{
    match utf8_fault(bytes) {
        Some(place) => Err(ReadRefusal::Refused {
            line: line_at(bytes, place),
            kind: ReadKind::BadUtf8,
        }),
        None => read(alloc, bytes, ontology),
    }
}
