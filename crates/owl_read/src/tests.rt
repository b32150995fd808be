mod limits;
mod refusals;
mod rows;
mod whole;

use crate::read_ontology;
use dl_base::{Axiom, Basic, RoleSide};
use dl_text::ReadRefusal;
use std::alloc::Global;
use std::test::Fail;

/// A document with this inside, whose names are behind the empty prefix; the inside begins on line 2.
fn document(alloc: Global, inside: &str) -> Result<Vec<u8>, Fail> {
    let mut text = Vec::new(alloc);
    text.extend_from_slice(b"Prefix(:=<http://u.example/>) Ontology(\n")?;
    text.extend_from_slice(inside.as_bytes())?;
    text.extend_from_slice(b"\n)\n")?;
    Ok(text)
}

/// `ok`, or the refusal's name and line.
fn outcome(alloc: Global, text: &[u8]) -> Result<String, Fail> {
    match read_ontology(alloc, text) {
        Ok(_) => Ok(format!(in alloc; "ok")?),
        Err(ReadRefusal::Refused { line, kind }) => {
            let name = kind.name();
            Ok(format!(in alloc; "{name} {line}")?)
        }
        Err(ReadRefusal::OutOfMemory) => Ok(format!(in alloc; "no memory")?),
    }
}

fn role(alloc: Global, side: RoleSide) -> Result<String, Fail> {
    match side {
        RoleSide::Direct(p) => {
            let number = p.0;
            Ok(format!(in alloc; "{number}")?)
        }
        RoleSide::Inverse(p) => {
            let number = p.0;
            Ok(format!(in alloc; "{number}-")?)
        }
    }
}

fn concept(alloc: Global, concept: Basic) -> Result<String, Fail> {
    match concept {
        Basic::Class(c) => {
            let number = c.0;
            Ok(format!(in alloc; "{number}")?)
        }
        Basic::Exists(q) => {
            let side = role(alloc, q)?;
            Ok(format!(in alloc; "E{side}")?)
        }
        Basic::Domain(u) => {
            let number = u.0;
            Ok(format!(in alloc; "D{number}")?)
        }
    }
}

fn pair(alloc: Global, word: &str, one: &String, other: &String) -> Result<String, Fail> {
    let one = one.as_str();
    let other = other.as_str();
    Ok(format!(in alloc; "{word} {one} {other};")?)
}

/// An axiom in short: its form, and its terms by number, with `-` behind an inverse role, `E` for some partner and `D` for some value.
fn short(alloc: Global, given: &Axiom) -> Result<String, Fail> {
    match given {
        Axiom::ConceptIn(b, c) => pair(alloc, "in", &concept(alloc, *b)?, &concept(alloc, *c)?),
        Axiom::ConceptApart(b, c) => pair(
            alloc,
            "apart",
            &concept(alloc, *b)?,
            &concept(alloc, *c)?,
        ),
        Axiom::RoleIn(q, r) => pair(alloc, "role", &role(alloc, *q)?, &role(alloc, *r)?),
        Axiom::RoleApart(q, r) => pair(alloc, "rapart", &role(alloc, *q)?, &role(alloc, *r)?),
        Axiom::AttrIn(u, w) => {
            let (u, w) = (u.0, w.0);
            Ok(format!(in alloc; "attr {u} {w};")?)
        }
        Axiom::AttrApart(u, w) => {
            let (u, w) = (u.0, w.0);
            Ok(format!(in alloc; "aapart {u} {w};")?)
        }
        Axiom::Range(u, datatype) => {
            let (u, length) = (u.0, datatype.as_slice().len());
            Ok(format!(in alloc; "range {u} {length};")?)
        }
        Axiom::FunctionalRole(q) => {
            let side = role(alloc, *q)?;
            Ok(format!(in alloc; "fun {side};")?)
        }
        Axiom::FunctionalAttr(u) => {
            let number = u.0;
            Ok(format!(in alloc; "afun {number};")?)
        }
        Axiom::ConceptSome(b, q, c) => {
            let one = concept(alloc, *b)?;
            let side = role(alloc, *q)?;
            let other = concept(alloc, *c)?;
            Ok(format!(in alloc; "some {one} {side} {other};")?)
        }
    }
}

/// The axioms of a document in short, or why it is refused.
fn axioms(alloc: Global, text: &[u8]) -> Result<String, Fail> {
    let Ok(read) = read_ontology(alloc, text) else {
        return outcome(alloc, text);
    };
    let mut all = String::new(alloc);
    for given in read.ontology.axioms() {
        let line = short(alloc, given)?;
        all.push_str(line.as_str())?;
    }
    Ok(all)
}
