ghost use Rattle.std.specs.Prelude.{◌≡◌, IfOk};

use dl_base::{Name, OutOfMemory};
use std::alloc::Global;

/// A name as an update spells it, with the line of its token.
#[derive(Debug, Drop)]
pub enum SpelledName {
    Full {
        line: u64,
        iri: Name,
    },
    Short {
        line: u64,
        prefix: Name,
        local: Name,
    },
}

/// A verb: a name, or `a`.
#[derive(Debug, Drop)]
pub enum SpelledVerb {
    Named(SpelledName),
    IsA,
}

/// The datatype of a literal: none where it is a string, with a tag or without one.
#[derive(Debug, Drop)]
pub enum SpelledDatatype {
    Untyped,
    Integer,
    Boolean,
    Written(SpelledName),
}

/// An object, with the line of its first token.
#[derive(Debug, Drop)]
pub enum SpelledObject {
    Named(SpelledName),
    Literal {
        line: u64,
        text: Name,
        tag: Name,
        datatype: SpelledDatatype,
    },
}

#[derive(Clone, Copy, Debug, PartialEq, Eq)]
pub enum Operation {
    Insert,
    Delete,
}

/// A triple without its object.
#[derive(Debug, Drop)]
pub struct Stem {
    pub operation: Operation,
    pub subject: SpelledName,
    pub verb: SpelledVerb,
}

impl SpelledName {
    pub fn copy(&self, alloc: Global) -> Result<SpelledName, OutOfMemory>
        ensures { IfOk result (λ copied. copied ≡ self.now) }
    {
        match self {
            SpelledName::Full { line, iri } => Ok(SpelledName::Full {
                line: *line,
                iri: iri.copy(alloc)?,
            }),
            SpelledName::Short {
                line,
                prefix,
                local,
            } => Ok(SpelledName::Short {
                line: *line,
                prefix: prefix.copy(alloc)?,
                local: local.copy(alloc)?,
            }),
        }
    }
}

impl SpelledVerb {
    pub fn copy(&self, alloc: Global) -> Result<SpelledVerb, OutOfMemory>
        ensures { IfOk result (λ copied. copied ≡ self.now) }
    {
        match self {
            SpelledVerb::Named(name) => Ok(SpelledVerb::Named(name.copy(alloc)?)),
            SpelledVerb::IsA => Ok(SpelledVerb::IsA),
        }
    }
}

impl Stem {
    pub fn copy(&self, alloc: Global) -> Result<Stem, OutOfMemory>
        ensures { IfOk result (λ copied. copied ≡ self.now) }
    {
        Ok(Stem {
            operation: self.operation,
            subject: self.subject.copy(alloc)?,
            verb: self.verb.copy(alloc)?,
        })
    }
}
