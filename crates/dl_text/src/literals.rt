ghost use Rattle.std.specs.Prelude.{◌≡◌, IfOk, MatchOption, MatchBool, map};
ghost use Rattle.std.specs.Char.{to_ascii_lowercase};
ghost use Rattle.dl_text.specs.Literals.{datatype_of, IsYes, IsNo, SpellsText, SpellsTruth, ReadsValue};
ghost use Rattle.dl_text.specs.Values.{IsInteger, integer_text, IsMade};

use crate::faults::TextFault;
use crate::namespaces::{lang_string, xsd_boolean, xsd_integer, xsd_string};
use crate::values::integer_text;
use dl_base::{Name, OutOfMemory, Value};
use std::alloc::{AllocError, Global};

const TRUE: &[u8] = b"true";

const ONE: &[u8] = b"1";

const FALSE: &[u8] = b"false";

const ZERO: &[u8] = b"0";

fn datatype_of<'a>(datatype: &'a [u8], tag: &[u8]) -> &'a [u8]
    ensures { result.now ≡ datatype_of datatype.now tag.now }
{
    if !tag.is_empty() {
        return lang_string();
    }
    if datatype.is_empty() {
        xsd_string()
    } else {
        datatype
    }
}

fn truth_of(text: &[u8]) -> Option<bool>
    ensures { MatchOption result ((¬ IsYes text.now) × (¬ IsNo text.now)) (λ b. MatchBool b (IsYes text.now) (IsNo text.now)) }
{
    if text == TRUE || text == ONE {
        return Some(true);
    }
    if text == FALSE || text == ZERO {
        Some(false)
    } else {
        None
    }
}

/// The canonical text of an integer.
fn integer_name(alloc: Global, text: &[u8]) -> Result<Name, TextFault>
    ensures { IsMade (IsInteger text.now) (integer_text text.now) result }
{
    let canonical = integer_text(alloc, text)?;
    Ok(Name::of(alloc, canonical.as_slice())?)
}

/// The canonical text of a truth value.
fn truth_name(alloc: Global, text: &[u8]) -> Result<Name, TextFault>
    ensures { SpellsTruth text.now result }
{
    match truth_of(text) {
        Some(true) => Ok(Name::of(alloc, TRUE)?),
        Some(false) => Ok(Name::of(alloc, FALSE)?),
        None => Err(TextFault::BadLiteral),
    }
}

/// The canonical text of a text of the datatype.
fn canonical_text(alloc: Global, text: &[u8], datatype: &[u8]) -> Result<Name, TextFault>
    ensures { SpellsText datatype.now text.now result }
{
    if datatype == xsd_integer() {
        return integer_name(alloc, text);
    }
    if datatype == xsd_boolean() {
        return truth_name(alloc, text);
    }
    Ok(Name::of(alloc, text)?)
}

/// A tag in ASCII small letters.
fn small_tag(alloc: Global, tag: &[u8]) -> Result<Name, OutOfMemory>
    ensures { IfOk result (λ small. small ≡ map to_ascii_lowercase tag.now) }
{
    let small: Vec<u8> = tag.iter().map(|b| b.to_ascii_lowercase()).collect(alloc)?;
    Name::of(alloc, small.as_slice())
}

/// The value of a literal with this text, its escapes undone, and this datatype and tag, empty where none is written:
/// with a tag the datatype is `rdf:langString`, and with neither `xsd:string`. `BadLiteral` where the text is none of `xsd:integer` or
/// `xsd:boolean`. The length of the text is no matter here: whoever cuts the text has tested it.
pub fn canonical_value(
    alloc: Global,
    text: &[u8],
    datatype: &[u8],
    tag: &[u8],
) -> Result<Value, TextFault>
    ensures { ReadsValue text.now datatype.now tag.now result }
{
    let datatype = datatype_of(datatype, tag);
    let text = canonical_text(alloc, text, datatype)?;
    Ok(Value {
        datatype: Name::of(alloc, datatype)?,
        tag: small_tag(alloc, tag)?,
        text,
    })
}
