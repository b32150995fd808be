ghost use Rattle.std.specs.Prelude.{◌≡◌, []};
ghost use Rattle.update_read.specs.declared.syntax.SpelledDatatype.TheVariants as datatypes;
ghost use Rattle.update_read.specs.declared.syntax.SpelledObject.TheVariants as objects;
ghost use Rattle.update_read.specs.Tokens.{at};
ghost use Rattle.update_read.specs.Grammar as grammar;
ghost use Rattle.update_read.specs.Reading.{Makes};

use crate::syntax::{SpelledDatatype, SpelledName, SpelledObject, SpelledVerb};
use crate::tokens::{Keyword, Mark, Token};
use dl_base::{Name, OutOfMemory};
use std::alloc::Global;

impl Token {
    pub fn mark(&self) -> Option<Mark>
        ensures { result ≡ grammar.sign_in self.now }
    {
        match self {
            Token::Sign(mark) => Some(*mark),
            _ => None,
        }
    }

    pub fn keyword(&self) -> Option<Keyword>
        ensures { result ≡ grammar.word_in self.now }
    {
        match self {
            Token::Word(keyword) => Some(*keyword),
            _ => None,
        }
    }

    pub fn tag(&self, alloc: Global) -> Result<Option<Name>, OutOfMemory>
        ensures { Makes (grammar.tag_in self.now) result }
    {
        match self {
            Token::Tag(tag) => Ok(Some(tag.copy(alloc)?)),
            _ => Ok(None),
        }
    }

    pub fn full_iri(&self, alloc: Global) -> Result<Option<Name>, OutOfMemory>
        ensures { Makes (grammar.iri_in self.now) result }
    {
        match self {
            Token::Iri(iri) => Ok(Some(iri.copy(alloc)?)),
            _ => Ok(None),
        }
    }

    /// The name of a prefix: a prefixed name without a local part.
    pub fn prefix_name(&self, alloc: Global) -> Result<Option<Name>, OutOfMemory>
        ensures { Makes (grammar.prefix_in self.now) result }
    {
        match self {
            Token::Prefixed(prefix, local) => {
                if local.as_slice().is_empty() {
                    Ok(Some(prefix.copy(alloc)?))
                } else {
                    Ok(None)
                }
            }
            _ => Ok(None),
        }
    }

    /// The text of a string.
    pub fn string(&self, alloc: Global, line: u64) -> Result<Option<(u64, Name)>, OutOfMemory>
        ensures { Makes (grammar.string (at line self.now)) result }
    {
        match self {
            Token::Text(text) => Ok(Some((line, text.copy(alloc)?))),
            _ => Ok(None),
        }
    }

    pub fn name(&self, alloc: Global, line: u64) -> Result<Option<SpelledName>, OutOfMemory>
        ensures { Makes (grammar.name (at line self.now)) result }
    {
        match self {
            Token::Iri(iri) => Ok(Some(SpelledName::Full {
                line,
                iri: iri.copy(alloc)?,
            })),
            Token::Prefixed(prefix, local) => Ok(Some(SpelledName::Short {
                line,
                prefix: prefix.copy(alloc)?,
                local: local.copy(alloc)?,
            })),
            _ => Ok(None),
        }
    }

    /// A name or `a`.
    pub fn verb(&self, alloc: Global, line: u64) -> Result<Option<SpelledVerb>, OutOfMemory>
        ensures { Makes (grammar.verb (at line self.now)) result }
    {
        match self {
            Token::Word(Keyword::A) => Ok(Some(SpelledVerb::IsA)),
            _ => match self.name(alloc, line)? {
                Some(name) => Ok(Some(SpelledVerb::Named(name))),
                None => Ok(None),
            },
        }
    }

    /// An object of one token: a name, a number or a truth value.
    pub fn object(&self, alloc: Global, line: u64) -> Result<Option<SpelledObject>, OutOfMemory>
        ensures { Makes (grammar.object (at line self.now)) result }
    {
        match self {
            Token::Number(text) => {
                let text = text.copy(alloc)?;
                Ok(Some(literal(alloc, line, text, SpelledDatatype::Integer)?))
            }
            Token::Word(Keyword::True) => Ok(Some(truth(alloc, line, b"true")?)),
            Token::Word(Keyword::False) => Ok(Some(truth(alloc, line, b"false")?)),
            _ => match self.name(alloc, line)? {
                Some(name) => Ok(Some(SpelledObject::Named(name))),
                None => Ok(None),
            },
        }
    }
}

/// A literal without a tag.
pub fn literal(
    alloc: Global,
    line: u64,
    text: Name,
    datatype: SpelledDatatype,
) -> Result<SpelledObject, OutOfMemory>
    ensures { Makes (objects.Literal line text [] datatype) result }
{
    let tag = Name::of(alloc, b"")?;
    Ok(SpelledObject::Literal {
        line,
        text,
        tag,
        datatype,
    })
}

fn truth(alloc: Global, line: u64, text: &[u8]) -> Result<SpelledObject, OutOfMemory>
    ensures { Makes (objects.Literal line text.now [] datatypes.Boolean) result }
{
    let text = Name::of(alloc, text)?;
    literal(alloc, line, text, SpelledDatatype::Boolean)
}
