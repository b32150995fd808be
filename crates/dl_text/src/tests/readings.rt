use super::gives;
use crate::{StringRule, TextFault, canonical_value, read_iri, read_string};
use std::alloc::{AllocError, Global};
use std::test::*;

/// IRIs without escapes, and what they are read as.
const PLAIN_IRIS: &str = "http://example.org/a#b | = http://example.org/a#b
a: | = a:
a+-.9:x | = a+-.9:x
urn:\u{e9}\u{20ac}\u{1f600} | = urn:\u{e9}\u{20ac}\u{1f600}
urn:a%20b~!$&'()*+,;=:@/?#[] | = urn:a%20b~!$&'()*+,;=:@/?#[]
 | BadIri
:a | BadIri
a | BadIri
9a:b | BadIri
a_b:c | BadIri
\u{e9}:c | BadIri
a/b:c | BadIri
urn:a b | BadIri
urn:a\t | BadIri
urn:< | BadIri
urn:> | BadIri
urn:\" | BadIri
urn:{ | BadIri
urn:} | BadIri
urn:| | BadIri
urn:^ | BadIri
urn:` | BadIri
urn:\\ | BadIri
urn:\\u0041 | BadIri";

/// IRIs with escapes: a bad escape comes before a bad IRI, wherever each stands.
const ESCAPED_IRIS: &str = "urn:a | = urn:a
urn:\\u00e9\\u00E9 | = urn:\u{e9}\u{e9}
\\u0075rn:\\U0001F600 | = urn:\u{1f600}
urn:\\U0010FFFF | = urn:\u{10ffff}
urn:\\uD7FF\\uE000 | = urn:\u{d7ff}\u{e000}
urn:\\u0020 | BadIri
urn:\\u003E | BadIri
urn:\\u005C | BadIri
urn \\u0041 | BadIri
urn:\\uD800 | BadEscape
urn:\\uDFFF | BadEscape
urn:\\U00110000 | BadEscape
urn:\\U0000D800 | BadEscape
urn:\\u12 | BadEscape
urn:\\u00g1 | BadEscape
urn:\\U1F600 | BadEscape
urn:\\n | BadEscape
urn:\\\\ | BadEscape
urn:\\ | BadEscape
< >\\q | BadEscape";

/// Strings of N-Triples and updates.
const FULL_STRINGS: &str = " | = 
a b\u{e9} | = a b\u{e9}
\\\"\\'\\\\ | = \"'\\
\\u0022\\U00000022 | = \"\"
\\uFFFF | = \u{ffff}
a\\\\u0041 | = a\\u0041
\\a | BadEscape
\\ | BadEscape
\\u123 | BadEscape
\\uDC00 | BadEscape
\\U00110000 | BadEscape
\\- | BadEscape";

/// Strings of ontologies.
const OWL_STRINGS: &str = "ab' | = ab'
\\\"\\\\ | = \"\\
\\' | BadEscape
\\n | BadEscape
\\u0041 | BadEscape
\\ | BadEscape";

#[test]
fn iris(rt: HostRuntime) {
    for (rows, escapes) in [(PLAIN_IRIS, false), (ESCAPED_IRIS, true)] {
        for row in rows.lines() {
            let Some((raw, want)) = row.split_once(" | ") else {
                continue;
            };
            let answer = read_iri(rt.alloc(), raw.as_bytes(), escapes);
            assert!(rt; gives(answer, want), "at {raw}");
        }
    }
}

#[test]
fn strings(rt: HostRuntime) {
    for (rows, rule) in [
        (FULL_STRINGS, StringRule::Full),
        (OWL_STRINGS, StringRule::Owl),
    ] {
        for row in rows.lines() {
            let Some((raw, want)) = row.split_once(" | ") else {
                continue;
            };
            let answer = read_string(rt.alloc(), raw.as_bytes(), rule);
            assert!(rt; gives(answer, want), "at {raw}");
        }
    }
}

#[test]
fn line_ends(rt: HostRuntime) {
    let answer = read_string(rt.alloc(), b"\\t\\b\\n\\r\\f\n", StringRule::Full);
    assert!(rt; gives(answer, "= \t\u{8}\n\r\u{c}\n"));
    let answer = read_string(rt.alloc(), b"a\nb", StringRule::Owl);
    assert!(rt; gives(answer, "= a\nb"));
    let answer = read_string(rt.alloc(), b"\\\n", StringRule::Owl);
    assert!(rt; gives(answer, "BadEscape"));
}

/// The front, and then the letter `a` up to this length.
fn long(alloc: Global, front: &[u8], length: usize) -> Result<Vec<u8>, AllocError> {
    let mut bytes = Vec::from_slice(alloc, front)?;
    for _ in front.len()..length {
        bytes.push(b'a')?;
    }
    Ok(bytes)
}

/// The length of the IRI, or 0 where it is too long.
fn iri_length(alloc: Global, front: &[u8], length: usize) -> Result<usize, TextFault> {
    let raw = long(alloc, front, length)?;
    match read_iri(alloc, raw.as_slice(), true) {
        Ok(name) => Ok(name.as_slice().len()),
        Err(TextFault::NameTooLong) => Ok(0),
        Err(fault) => Err(fault),
    }
}

/// The length of the text, or 0 where it is too long.
fn text_length(alloc: Global, front: &[u8], length: usize) -> Result<usize, TextFault> {
    let raw = long(alloc, front, length)?;
    match read_string(alloc, raw.as_slice(), StringRule::Full) {
        Ok(name) => Ok(name.as_slice().len()),
        Err(TextFault::NameTooLong) => Ok(0),
        Err(fault) => Err(fault),
    }
}

#[test]
fn lengths(rt: HostRuntime) {
    let alloc = rt.alloc();
    assert!(rt; iri_length(alloc, b"urn:", 4096) == Ok(4096));
    assert!(rt; iri_length(alloc, b"urn:", 4097) == Ok(0));
    // The length is that of the text, and not that of its escapes.
    assert!(rt; iri_length(alloc, b"\\u0075rn:", 4101) == Ok(4096));
    assert!(rt; iri_length(alloc, b"\\u0075rn:", 4102) == Ok(0));
    // What is bad is not too long.
    assert!(rt; iri_length(alloc, b"urn", 4097) == Err(TextFault::BadIri));
    assert!(rt; text_length(alloc, b"", 65536) == Ok(65536));
    assert!(rt; text_length(alloc, b"", 65537) == Ok(0));
    assert!(rt; text_length(alloc, b"\\u0061", 65541) == Ok(65536));
    assert!(rt; text_length(alloc, b"\\q", 65541) == Err(TextFault::BadEscape));
}

#[test]
fn long_values(rt: HostRuntime) -> Result<(), Fail> {
    // A value's text has no length here, nor has a tag.
    let longer = long(rt.alloc(), b"", 65537)?;
    let value = canonical_value(rt.alloc(), longer.as_slice(), b"", longer.as_slice())?;
    assert!(rt; value.text.as_slice() == longer.as_slice());
    Ok(())
}
