ghost use Rattle.ntriples.specs.Meaning.{IsLiteral, StandsFor, Means, Says, LineSays};

use crate::faults::LineFault;
use crate::grammar::{Object, Triple};
use crate::lines::parse_line;
use dl_base::Ontology;
use dl_text::{NamePool, TextFault, canonical_value};
use std::alloc::Global;
use triples::{Said, fact_of};

/// The value of a literal as an object.
fn literal(
    alloc: Global,
    text: &[u8],
    datatype: &[u8],
    tag: &[u8],
) -> Result<triples::Object, TextFault>
    ensures { Means (IsLiteral text.now datatype.now tag.now) result }
{
    match canonical_value(alloc, text, datatype, tag) {
        Ok(value) => Ok(triples::Object::Literal(value)),
        Err(fault) => Err(fault),
    }
}

/// What the object stands for. `BadLiteral`.
fn meant(alloc: Global, object: Object) -> Result<triples::Object, TextFault>
    ensures { Means (StandsFor object) result }
{
    match object {
        Object::Iri(name) => Ok(triples::Object::Iri(name)),
        Object::Plain(text) => literal(alloc, text.as_slice(), b"", b""),
        Object::Typed(text, datatype) => {
            literal(alloc, text.as_slice(), datatype.as_slice(), b"")
        }
        Object::Tagged(text, tag) => literal(alloc, text.as_slice(), b"", tag.as_slice()),
    }
}

/// What the triple says. `BadLiteral`, then `UnknownTerm` and `WrongKind`.
fn says(alloc: Global, ontology: &Ontology, triple: Triple) -> Result<Said, LineFault>
    ensures { Says ontology.now triple result }
{
    let Triple {
        subject,
        predicate,
        object,
    } = triple;
    let object = match meant(alloc, object) {
        Ok(object) => object,
        Err(fault) => return Err(LineFault::from(fault)),
    };
    match fact_of(ontology, subject, predicate.as_slice(), object) {
        Ok(said) => Ok(said),
        Err(fault) => Err(LineFault::Refused(fault.kind())),
    }
}

/// What a line says: the second to the fourth pass over it.
pub fn line_says(
    alloc: Global,
    pool: &mut NamePool,
    ontology: &Ontology,
    line: &[u8],
) -> Result<Option<Said>, LineFault>
    ensures { LineSays ontology.now line.now result }
{
    match parse_line(alloc, pool, line) {
        Ok(Some(triple)) => match says(alloc, ontology, triple) {
            Ok(said) => Ok(Some(said)),
            Err(fault) => Err(fault),
        },
        Ok(None) => Ok(None),
        Err(fault) => Err(fault),
    }
}
