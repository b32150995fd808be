use crate::syntax::{Operation, SpelledName, SpelledObject, Stem};
use dl_base::Name;

/// What has been read of an update: what stands in front of the next token.
#[derive(Debug, Drop)]
pub enum Spot {
    /// The beginning of an update, or a line of its prologue.
    Start,
    /// `PREFIX`, and then the name of the prefix.
    Prefix,
    Named(Name),
    /// `BASE`.
    Base,
    /// The word of an operation on this line, and then `DATA`.
    Word(Operation, u64),
    Data(Operation),
    /// `{` or a dot.
    Group(Operation),
    Subject(Operation, SpelledName),
    /// A verb or a comma.
    Verb(Stem),
    /// A string, and then `^^`.
    Text(Stem, u64, Name),
    Hats(Stem, u64, Name),
    /// A whole object.
    Object(Stem),
    Semicolon(Operation, SpelledName),
    /// `}`.
    Done,
}

/// What a token does at a spot.
#[derive(Debug, Drop)]
pub enum Step {
    /// No update goes on with it.
    Stuck,
    On(Spot),
    /// It ends a line of the prologue.
    Bind {
        prefix: Name,
        iri: Name,
    },
    /// It ends a triple or shows that one has ended.
    Say {
        stem: Stem,
        object: SpelledObject,
        then: Spot,
    },
}
