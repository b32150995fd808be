ghost use Rattle.std.specs.Prelude.{◌≡◌, ◌+◌, ◌*◌, ◌≤◌, ◌^◌, ◌∷◌, length};
ghost use Rattle.dl_text.specs.Printing.{written, written_byte};
ghost use Rattle.ntriples.specs.Printing.{iri, line, literal, behind, triple};

use crate::printing::name;
use crate::writing::is_escaped;
use dl_base::{Fact, Ontology, Value};
use dl_text::xsd_string;
use triples::rdf_type;

/// The bytes of a text as it is written in a literal.
fn written_length(text: &[u8]) -> usize
    requires { length text.now ≤ 2 ^ 28 }
    ensures value { result ≡ length (written text.now) }
    ensures within { result ≤ 2 * length text.now }
{
    let mut count = 0;
    for b in text {
        count += if is_escaped(*b) { 2 } else { 1 };
    }
    count
}

/// The bytes behind the text of a literal.
fn behind_length(value: &Value) -> usize
    ensures value { result ≡ length (behind value.now) }
    ensures within { result ≤ 2 ^ 28 + 4 }
{
    let tag = value.tag.as_slice();
    let datatype = value.datatype.as_slice();
    if tag.is_empty() {
        if datatype == xsd_string() {
            0
        } else {
            datatype.len() + 4
        }
    } else {
        tag.len() + 1
    }
}

/// The bytes of a triple: of its three names or values, and eleven around them.
fn triple_length(subject: usize, predicate: usize, object: usize) -> usize
    requires subject { subject ≤ 2 ^ 28 }
    requires predicate { predicate ≤ 2 ^ 28 }
    requires object { object ≤ 2 ^ 31 }
    ensures { result ≡ subject + predicate + object + 9 }
{
    subject + predicate + object + 9
}

/// How many bytes `write_line` writes for the fact. It takes no memory.
pub fn line_length(fact: &Fact, ontology: &Ontology) -> usize
    ensures { result ≡ length (line ontology.now fact.now) }
{
    match fact {
        Fact::Class(class, a) => triple_length(
            a.as_slice().len(),
            rdf_type().len(),
            name(ontology, *class).len() + 2,
        ),
        Fact::Role(role, a, b) => triple_length(
            a.as_slice().len(),
            name(ontology, *role).len(),
            b.as_slice().len() + 2,
        ),
        Fact::Attr(attr, a, value) => triple_length(
            a.as_slice().len(),
            name(ontology, *attr).len(),
            written_length(value.text.as_slice()) + behind_length(value) + 2,
        ),
    }
}
