ghost use Rattle.std.specs.Prelude.{◌≡◌};
ghost use Rattle.dl_text.specs.Kinds.{kind_of};
ghost use Rattle.update_read.specs.Meaning.{object_line};
ghost use Rattle.update_read.specs.Taking.{refusal_of, ReadsName, ReadsVerb, ReadsDatatype, ReadsObject, ReadsTriple};

use crate::syntax::{SpelledDatatype, SpelledName, SpelledObject, SpelledVerb, Stem};
use dl_base::{Name, Ontology};
use dl_text::{
    NamePool, Prefixes, ReadRefusal, TextFault, canonical_value, xsd_boolean, xsd_integer,
};
use std::alloc::Global;
use triples::{Object, Said, fact_of, rdf_type};

/// The refusal that a fault leads to on this line.
pub fn refusal_of(fault: TextFault, line: u64) -> ReadRefusal
    ensures { result ≡ refusal_of line (kind_of fault) }
{
    match fault.kind() {
        Some(kind) => ReadRefusal::Refused { line, kind },
        None => ReadRefusal::OutOfMemory,
    }
}

/// The name that a spelling stands for under the prefixes: `UnknownPrefix`, `BadIri` or `NameTooLong` at the name.
fn name_of(
    alloc: Global,
    pool: &mut NamePool,
    prefixes: &Prefixes,
    spelled: &SpelledName,
) -> Result<Name, ReadRefusal>
    ensures { ReadsName prefixes.now spelled.now result }
{
    match spelled {
        SpelledName::Full { line: _, iri } => Ok(iri.copy(alloc)?),
        SpelledName::Short {
            line,
            prefix,
            local,
        } => match prefixes.resolve(prefix.as_slice(), local.as_slice(), true) {
            Ok(name) => Ok(pool.name(name.as_slice())?),
            Err(fault) => Err(refusal_of(fault, *line)),
        },
    }
}

/// The name of a verb.
fn verb_name(
    alloc: Global,
    pool: &mut NamePool,
    prefixes: &Prefixes,
    verb: &SpelledVerb,
) -> Result<Name, ReadRefusal>
    ensures { ReadsVerb prefixes.now verb.now result }
{
    match verb {
        SpelledVerb::Named(spelled) => name_of(alloc, pool, prefixes, spelled),
        SpelledVerb::IsA => Ok(pool.name(rdf_type())?),
    }
}

/// The name of a datatype, empty where none is written.
fn datatype_name(
    alloc: Global,
    pool: &mut NamePool,
    prefixes: &Prefixes,
    datatype: &SpelledDatatype,
) -> Result<Name, ReadRefusal>
    ensures { ReadsDatatype prefixes.now datatype.now result }
{
    match datatype {
        SpelledDatatype::Untyped => Ok(pool.name(b"")?),
        SpelledDatatype::Integer => Ok(pool.name(xsd_integer())?),
        SpelledDatatype::Boolean => Ok(pool.name(xsd_boolean())?),
        SpelledDatatype::Written(spelled) => name_of(alloc, pool, prefixes, spelled),
    }
}

/// The object that a spelling stands for: a name's refusal, or `BadLiteral` at the string.
fn object_of(
    alloc: Global,
    pool: &mut NamePool,
    prefixes: &Prefixes,
    object: &SpelledObject,
) -> Result<Object, ReadRefusal>
    ensures { ReadsObject prefixes.now object.now result }
{
    match object {
        SpelledObject::Named(spelled) => {
            Ok(Object::Iri(name_of(alloc, pool, prefixes, spelled)?))
        }
        SpelledObject::Literal {
            line,
            text,
            tag,
            datatype,
        } => {
            let name = datatype_name(alloc, pool, prefixes, datatype)?;
            match canonical_value(alloc, text.as_slice(), name.as_slice(), tag.as_slice()) {
                Ok(value) => Ok(Object::Literal(value)),
                Err(fault) => Err(refusal_of(fault, *line)),
            }
        }
    }
}

/// The line of an object's first token.
pub fn object_line(object: &SpelledObject) -> u64
    ensures { result ≡ object_line object.now }
{
    match object {
        SpelledObject::Named(SpelledName::Full { line, iri: _ }) => *line,
        SpelledObject::Named(
            SpelledName::Short {
                line,
                prefix: _,
                local: _,
            },
        ) => *line,
        SpelledObject::Literal {
            line,
            text: _,
            tag: _,
            datatype: _,
        } => *line,
    }
}

/// What the triple says: names and literal in the order of the text, then `UnknownTerm` or `WrongKind` at the object.
pub fn said_by(
    alloc: Global,
    pool: &mut NamePool,
    ontology: &Ontology,
    prefixes: &Prefixes,
    stem: &Stem,
    object: &SpelledObject,
) -> Result<Said, ReadRefusal>
    ensures { ReadsTriple ontology.now (record { bindings = prefixes.now; stem = stem.now; object = object.now }) result }
{
    let subject = match name_of(alloc, pool, prefixes, &stem.subject) {
        Ok(name) => name,
        Err(refusal) => return Err(refusal),
    };
    let predicate = match verb_name(alloc, pool, prefixes, &stem.verb) {
        Ok(name) => name,
        Err(refusal) => return Err(refusal),
    };
    let meant = match object_of(alloc, pool, prefixes, object) {
        Ok(meant) => meant,
        Err(refusal) => return Err(refusal),
    };
    match fact_of(ontology, subject, predicate.as_slice(), meant) {
        Ok(said) => Ok(said),
        Err(fault) => Err(ReadRefusal::Refused {
            line: object_line(object),
            kind: fault.kind(),
        }),
    }
}
