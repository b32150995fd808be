ghost use Rattle.std.specs.Prelude.{◌≡◌};
ghost use Rattle.dl_text.specs.Outcomes.{IsNamed, NamesIri, ReadsIri, ReadsString, seen, rule_of};

use crate::escapes::{Escapes, undo};
use crate::faults::TextFault;
use crate::iris::is_iri;
use dl_base::Name;
use std::alloc::Global;

/// The bytes of the longest IRI.
pub const LONGEST_IRI: usize = 4096;

/// The bytes of the longest text of a literal.
pub const LONGEST_TEXT: usize = 65_536;

/// Which escapes a literal's text has.
#[derive(Clone, Copy, Debug, PartialEq, Eq)]
pub enum StringRule {
    Full,
    Owl,
}

/// The name with these bytes, of at most so many.
fn name_of(alloc: Global, text: &[u8], longest: usize) -> Result<Name, TextFault>
    ensures { IsNamed longest text.now result }
{
    if text.len() > longest {
        return Err(TextFault::NameTooLong);
    }
    match Name::of(alloc, text) {
        Ok(name) => Ok(name),
        Err(_) => Err(TextFault::OutOfMemory),
    }
}

/// The name of an IRI.
pub fn iri_name(alloc: Global, text: &[u8]) -> Result<Name, TextFault>
    ensures { NamesIri text.now result }
{
    if is_iri(text) {
        name_of(alloc, text, LONGEST_IRI)
    } else {
        Err(TextFault::BadIri)
    }
}

/// The IRI between `<` and `>`.
pub fn read_iri(alloc: Global, bytes: &[u8], escapes: bool) -> Result<Name, TextFault>
    ensures { ReadsIri escapes bytes.now result }
{
    if is_iri(bytes) {
        return name_of(alloc, bytes, LONGEST_IRI);
    }
    if !escapes {
        return Err(TextFault::BadIri);
    }
    let text = match undo(alloc, bytes, Escapes::Iri) {
        Ok(text) => text,
        Err(fault) => return Err(fault),
    };
    iri_name(alloc, text.as_slice())
}

fn rule_of(rule: StringRule) -> Escapes
    ensures { result ≡ rule_of rule }
{
    match rule {
        StringRule::Full => Escapes::Full,
        StringRule::Owl => Escapes::Owl,
    }
}

/// The text of a literal, with its escapes undone.
pub fn read_string(alloc: Global, bytes: &[u8], rule: StringRule) -> Result<Name, TextFault>
    ensures { ReadsString (rule_of rule) bytes.now result }
{
    match undo(alloc, bytes, rule_of(rule)) {
        Ok(text) => name_of(alloc, text.as_slice(), LONGEST_TEXT),
        Err(fault) => Err(fault),
    }
}
