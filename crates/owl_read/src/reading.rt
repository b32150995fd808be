ghost use Rattle.std.specs.Prelude.{◌≡◌, List, Contains, IfOk};
ghost use Rattle.dl_base.specs.Ontologies.{Knows, Extends};
ghost use Rattle.dl_base.specs.Validity.{IsOntology};
ghost use Rattle.dl_base.specs.declared.statements.Fact as fact_type;
ghost use Rattle.dl_text.specs.Outcomes as texts;
ghost use Rattle.owl_read.specs.Documents.{theory_of, ReadsTo, Reads, ReadsOver, seen};
ghost use Rattle.owl_read.specs.Held.{held};
ghost use Rattle.owl_read.specs.Scopes.{IsSound};

use crate::documents::{bindings_of, take_document};
use crate::reader::Reader;
use crate::scope::Scope;
use dl_base::{Axiom, Fact, Kind, Name, Ontology, OntologyRefusal, OutOfMemory, once};
use dl_text::ReadRefusal;
use owl_syntax::parse;
use std::alloc::Global;

/// An ontology with its document's assertions in order, repeats dropped, and how many were skipped.
#[derive(Debug, Drop)]
pub struct ReadOntology {
    pub ontology: Ontology,
    pub facts: Vec<Fact>,
    pub skipped: u64,
}

/// What the document says, these terms first.
fn read(alloc: Global, bytes: &[u8], base: &[(Name, Kind)]) -> Result<Reader, ReadRefusal>
    requires { IsSound base.now }
    ensures { ReadsTo base.now bytes.now (texts.seen held result) }
{
    let document = parse(alloc, bytes)?;
    let prefixes = bindings_of(alloc, document.prefixes.as_slice())?;
    let mut reader = Reader::new(alloc, Scope::over(alloc, prefixes, base)?);
    take_document(alloc, &mut reader, &document.root)?;
    Ok(reader)
}

/// The ontology of terms and axioms that are known to make one.
fn made(alloc: Global, scope: &Scope, axioms: Vec<Axiom>) -> Result<Ontology, OutOfMemory>
    requires { IsOntology (record { terms = scope.now.terms; axioms = axioms.items }) }
    ensures { IfOk result (λ it. it ≡ record { terms = scope.now.terms; axioms = axioms.items }) }
{
    let terms = scope.entries()?;
    match Ontology::of(alloc, terms, axioms) {
        Ok(ontology) => Ok(ontology),
        Err(why) => {
            // The other refusals can't come.
            prove!(matches!(&why, OntologyRefusal::OutOfMemory));
            Err(OutOfMemory)
        }
    }
}

/// Reads an ontology document: its terms, numbered from 0 in the order in which they appear first, its axioms as far as they matter
/// for facts, and its assertions in order, repeats dropped. An assertion of `owl:Thing` is skipped and counted.
///
/// The refusals are those of `owl_syntax::parse`, and then the first from the left of these, with its line from 1: at a name
/// `UnknownPrefix`, `BadIri` and `NameTooLong`; `Syntax` where the count of an axiom's arguments or the kind of one is none of
/// OWL 2; `NotDlLite` for what isn't in DL-Lite_A; `Import`; `BlankNode` for an individual without a name; `TwoKinds` and
/// `TooManyTerms` (more than 4,000) for a term; `BadLiteral`; and behind an axiom's places `FunctionalSpecialised`.
///
/// OWL 2 Structural Specification and Functional-Style Syntax, sections 5 to 10.
pub fn read_ontology(alloc: Global, bytes: &[u8]) -> Result<ReadOntology, ReadRefusal>
    // Bytes, tokens and the tree, then the nodes of the tree from left to right.
    ensures read { Reads bytes.now (seen result) }
    // The ontology knows each assertion.
    ensures known { IfOk result (λ it. (f : fact_type.Fact) → Contains it.facts.items f → Knows it.ontology f) }
{
    let Reader {
        scope,
        axioms,
        facts,
        skipped,
    } = read(alloc, bytes, &[])?;
    let ontology = made(alloc, &scope, axioms)?;
    Ok(ReadOntology {
        ontology,
        facts: once(alloc, facts.as_slice())?,
        skipped,
    })
}

/// Reads an ontology document over the terms of a base, which come first with their numbers and kinds: a term of the base in another
/// kind is `TwoKinds`. The document's assertions are read and may be refused; none is kept, and each is counted as skipped. All else
/// is as in `read_ontology`.
pub fn read_ontology_over(
    alloc: Global,
    bytes: &[u8],
    base: &Ontology,
) -> Result<ReadOntology, ReadRefusal>
    // Bytes, tokens and the tree, then the nodes of the tree from left to right.
    ensures read { ReadsOver base.now.terms bytes.now (seen result) }
    ensures extends { IfOk result (λ it. Extends it.ontology base.now) }
{
    let Reader {
        scope,
        axioms,
        facts,
        skipped,
    } = read(alloc, bytes, base.entries())?;
    let ontology = made(alloc, &scope, axioms)?;
    match skipped.checked_add(facts.as_slice().len() as u64) {
        Some(skipped) => Ok(ReadOntology {
            ontology,
            facts: Vec::new(alloc),
            skipped,
        }),
        None => Err(ReadRefusal::OutOfMemory),
    }
}
