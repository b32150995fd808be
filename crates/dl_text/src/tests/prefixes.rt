use super::gives;
use crate::{NamePool, Prefixes, read_iri};
use dl_base::Name;
use std::test::*;

/// The names of `x` behind the standard prefixes, and behind others.
const STANDARD: &str = "rdf | = http://www.w3.org/1999/02/22-rdf-syntax-ns#x
rdfs | = http://www.w3.org/2000/01/rdf-schema#x
xsd | = http://www.w3.org/2001/XMLSchema#x
owl | = http://www.w3.org/2002/07/owl#x
 | UnknownPrefix
RDF | UnknownPrefix
rd | UnknownPrefix
xml | UnknownPrefix";

/// Prefixes that a text sets, in this order.
const OWN: &str = " | urn:none/
zz | urn:z
a | urn:old/
a | urn:a/
xsd | urn:mine#
rel | rel/
long | urn:";

/// Prefixed names of updates: an unknown prefix comes first, then a bad escape, then a bad IRI.
const RESOLVED: &str = " |  | = urn:none/
 | b | = urn:none/b
zz | top | = urn:ztop
a | b:c | = urn:a/b:c
xsd | b | = urn:mine#b
owl | b | = http://www.w3.org/2002/07/owl#b
a | %41%zz | = urn:a/%41%zz
a | \\_\\~\\.\\-\\!\\$\\&\\' | = urn:a/_~.-!$&'
a | \\(\\)\\*\\+\\,\\;\\=\\/\\?\\#\\@\\% | = urn:a/()*+,;=/?#@%
a | b\\ | BadEscape
a | \\u0041 | BadEscape
a | \\\\ | BadEscape
a | \\: | BadEscape
a | b c | BadIri
rel | b | BadIri
b | \\q < | UnknownPrefix
rel | \\q < | BadEscape";

#[test]
fn standard_prefixes(rt: HostRuntime) -> Result<(), Fail> {
    let prefixes = Prefixes::standard(rt.alloc())?;
    for row in STANDARD.lines() {
        let Some((prefix, want)) = row.split_once(" | ") else {
            continue;
        };
        let answer = prefixes.resolve(prefix.as_bytes(), b"x", false);
        assert!(rt; gives(answer, want), "at {prefix}");
    }
    Ok(())
}

#[test]
fn own_prefixes(rt: HostRuntime) -> Result<(), Fail> {
    let mut prefixes = Prefixes::standard(rt.alloc())?;
    for row in OWN.lines() {
        let Some((prefix, iri)) = row.split_once(" | ") else {
            continue;
        };
        prefixes.set(prefix.as_bytes(), &Name::of(rt.alloc(), iri.as_bytes())?)?;
    }
    for row in RESOLVED.lines() {
        let Some((prefix, rest)) = row.split_once(" | ") else {
            continue;
        };
        let Some((local, want)) = rest.split_once(" | ") else {
            continue;
        };
        let answer = prefixes.resolve(prefix.as_bytes(), local.as_bytes(), true);
        assert!(rt; gives(answer, want), "at {prefix}:{local}");
    }
    // In an ontology nothing is undone, and an IRI has no backslash.
    assert!(rt; gives(prefixes.resolve(b"a", b"\\-", false), "BadIri"));
    Ok(())
}

#[test]
fn long_names(rt: HostRuntime) -> Result<(), Fail> {
    let mut prefixes = Prefixes::standard(rt.alloc())?;
    prefixes.set(b"", &Name::of(rt.alloc(), b"urn:")?)?;
    let mut local = Vec::new(rt.alloc());
    for _ in 4..4096 {
        local.push(b'a')?;
    }
    let name = prefixes.resolve(b"", local.as_slice(), true)?;
    assert_eq!(rt; name.as_slice().len(), 4096);
    local.push(b'a')?;
    assert!(rt; gives(prefixes.resolve(b"", local.as_slice(), true), "NameTooLong"));
    Ok(())
}

#[test]
fn pool(rt: HostRuntime) -> Result<(), Fail> {
    let mut pool = NamePool::new(rt.alloc());
    for bytes in "urn:a urn:b urn:a  b ".split(' ') {
        let name = pool.name(bytes.as_bytes())?;
        assert!(rt; name.as_slice() == bytes.as_bytes(), "at {bytes}");
    }
    for raw in "urn:a urn:\\u0061 urn:b urn:\\q b urn:c urn:c".split(' ') {
        let same = match read_iri(rt.alloc(), raw.as_bytes(), true) {
            Ok(name) => pool.read_iri(raw.as_bytes(), true)? == name,
            Err(fault) => pool.read_iri(raw.as_bytes(), true) == Err(fault),
        };
        assert!(rt; same, "at {raw}");
    }
    Ok(())
}
