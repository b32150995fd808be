ghost use Rattle.std.specs.Prelude.{◌≡◌, ◌++◌, ◌∷◌, ◌<◌, ◌↔◌, codes, length, IsTrue, MatchOption};
ghost use Rattle.std.specs.List.{flat_map};
ghost use Rattle.dl_text.specs.Printing.{written, written_byte};
ghost use Rattle.ntriples.specs.Printing.{iri, line, triple, literal, behind};
ghost use Rattle.ntriples.specs.Writing.{IsEscaped, IsPut};

use crate::printing::name;
use dl_base::{Fact, Ontology, Value};
use dl_io::{Sink, WriteFault, write_all};
use dl_text::xsd_string;
use triples::rdf_type;

const OPEN: &[u8] = b"<";

const NEXT: &[u8] = b"> <";

const QUOTE: &[u8] = b"> \"";

const END: &[u8] = b"> .\n";

const AT: &[u8] = b"\"@";

const STOP: &[u8] = b" .\n";

const CLOSED: &[u8] = b"\" .\n";

const TYPED: &[u8] = b"\"^^<";

fn put<K: Sink>(sink: &mut K, bytes: &[u8]) -> Result<(), WriteFault>
    ensures { IsPut (K.written sink.old) (K.written sink.new) (K.faults sink.old) (K.faults sink.new) bytes.now result }
{
    write_all(sink, bytes)
}

fn put_parts<K: Sink>(sink: &mut K, parts: &[&[u8]]) -> Result<(), WriteFault>
    ensures { IsPut (K.written sink.old) (K.written sink.new) (K.faults sink.old) (K.faults sink.new) (flat_map (λ part. part.now) parts.now) result }
{
    for part in parts {
        if let Err(fault) = put(sink, *part) {
            return Err(fault);
        }
    }
    Ok(())
}

/// Writes the triple of three IRIs.
fn put_link<K: Sink>(
    sink: &mut K,
    subject: &[u8],
    predicate: &[u8],
    object: &[u8],
) -> Result<(), WriteFault>
    ensures { IsPut (K.written sink.old) (K.written sink.new) (K.faults sink.old) (K.faults sink.new) (triple subject.now predicate.now (iri object.now)) result }
{
    put_parts(sink, &[OPEN, subject, NEXT, predicate, NEXT, object, END])
}

/// Whether the text of a literal is written with an escape in place of the byte.
pub fn is_escaped(b: u8) -> bool
    ensures { IsTrue result ↔ IsEscaped b }
{
    b == b'"' || b == b'\\' || b == b'\n' || b == b'\r'
}

/// What stands for such a byte.
fn escape_of(b: u8) -> &'static [u8]
    requires { IsEscaped b }
    ensures { result.now ≡ written_byte b }
{
    match b {
        b'"' => b"\\\"",
        b'\\' => b"\\\\",
        b'\n' => b"\\n",
        _ => b"\\r",
    }
}

/// What stands in front of the first byte that is written with an escape, its escape, and what stands behind it.
fn cut_escaped(text: &[u8]) -> Option<(&[u8], &'static [u8], &[u8])>
    ensures { MatchOption result (written text.now ≡ text.now)
        (λ cut. (written text.now ≡ cut.0.now ++ (cut.1.now ++ written cut.2.now)) × (length cut.2.now < length text.now)) }
{
    for (at, b) in text.iter().enumerate() {
        if is_escaped(*b) {
            return Some((&text[..at], escape_of(*b), &text[at + 1..]));
        }
    }
    None
}

fn put_pair<K: Sink>(sink: &mut K, first: &[u8], second: &[u8]) -> Result<(), WriteFault>
    ensures { IsPut (K.written sink.old) (K.written sink.new) (K.faults sink.old) (K.faults sink.new) (first.now ++ second.now) result }
{
    match put(sink, first) {
        Ok(()) => put(sink, second),
        Err(fault) => Err(fault),
    }
}

/// Writes the text of a literal with its escapes.
fn put_text<K: Sink>(sink: &mut K, text: &[u8]) -> Result<(), WriteFault>
    ensures { IsPut (K.written sink.old) (K.written sink.new) (K.faults sink.old) (K.faults sink.new) (written text.now) result }
{
    let mut rest = text;
    while let Some((front, escape, behind)) = cut_escaped(rest) {
        if let Err(fault) = put_pair(sink, front, escape) {
            return Err(fault);
        }
        rest = behind;
    }
    put(sink, rest)
}

/// Writes what stands behind the text of a literal, with the end of the line.
fn put_end<K: Sink>(sink: &mut K, value: &Value) -> Result<(), WriteFault>
    ensures { IsPut (K.written sink.old) (K.written sink.new) (K.faults sink.old) (K.faults sink.new) (34 ∷ (behind value.now ++ codes " .\n")) result }
{
    let tag = value.tag.as_slice();
    let datatype = value.datatype.as_slice();
    if tag.is_empty() {
        if datatype == xsd_string() {
            put(sink, CLOSED)
        } else {
            put_parts(sink, &[TYPED, datatype, END])
        }
    } else {
        put_parts(sink, &[AT, tag, STOP])
    }
}

/// Writes the text of a literal and what stands behind it, with the end of the line.
fn put_rest<K: Sink>(sink: &mut K, value: &Value) -> Result<(), WriteFault>
    ensures { IsPut (K.written sink.old) (K.written sink.new) (K.faults sink.old) (K.faults sink.new) (written value.now.text ++ 34 ∷ (behind value.now ++ codes " .\n")) result }
{
    match put_text(sink, value.text.as_slice()) {
        Ok(()) => put_end(sink, value),
        Err(fault) => Err(fault),
    }
}

/// Writes the triple of two IRIs and a literal.
fn put_value<K: Sink>(
    sink: &mut K,
    subject: &[u8],
    predicate: &[u8],
    value: &Value,
) -> Result<(), WriteFault>
    ensures { IsPut (K.written sink.old) (K.written sink.new) (K.faults sink.old) (K.faults sink.new) (triple subject.now predicate.now (literal value.now)) result }
{
    match put_parts(sink, &[OPEN, subject, NEXT, predicate, QUOTE]) {
        Ok(()) => put_rest(sink, value),
        Err(fault) => Err(fault),
    }
}

/// Writes the line of the fact, as `print_facts` prints it. It takes no memory.
pub fn write_line<K: Sink>(fact: &Fact, ontology: &Ontology, sink: &mut K) -> Result<(), WriteFault>
    ensures { IsPut (K.written sink.old) (K.written sink.new) (K.faults sink.old) (K.faults sink.new) (line ontology.now fact.now) result }
{
    match fact {
        Fact::Class(class, a) => put_link(sink, a.as_slice(), rdf_type(), name(ontology, *class)),
        Fact::Role(role, a, b) => {
            put_link(sink, a.as_slice(), name(ontology, *role), b.as_slice())
        }
        Fact::Attr(attr, a, value) => {
            put_value(sink, a.as_slice(), name(ontology, *attr), value)
        }
    }
}
