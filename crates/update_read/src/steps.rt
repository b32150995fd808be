ghost use Rattle.std.specs.Prelude.{◌≡◌};
ghost use Rattle.update_read.specs.Tokens.{at};
ghost use Rattle.update_read.specs.Reading.{Makes, start_step, behind_object, behind_semicolon, prefix_step, iri_step, base_step, data_step, open_step, group_step, subject_step, object_step, text_step, hats_step, mark_step, semicolon_step, done_step, step_of, said_then};

use crate::spots::{Spot, Step};
use crate::syntax::{Operation, SpelledDatatype, SpelledName, SpelledObject, SpelledVerb, Stem};
use crate::tokens::{Keyword, Mark, Token};
use crate::views::literal;
use dl_base::{Name, OutOfMemory};
use std::alloc::Global;

/// A word where an operation or a line of the prologue may stand.
fn start_step(line: u64, keyword: Option<Keyword>) -> Step
    ensures { result ≡ start_step line keyword }
{
    match keyword {
        Some(Keyword::Prefix) => Step::On(Spot::Prefix),
        Some(Keyword::Base) => Step::On(Spot::Base),
        Some(Keyword::Insert) => Step::On(Spot::Word(Operation::Insert, line)),
        Some(Keyword::Delete) => Step::On(Spot::Word(Operation::Delete, line)),
        _ => Step::Stuck,
    }
}

/// The name of a prefix.
fn prefix_step(named: Option<Name>) -> Step
    ensures { result ≡ prefix_step named }
{
    match named {
        Some(named) => Step::On(Spot::Named(named)),
        None => Step::Stuck,
    }
}

/// The IRI of a prefix.
fn iri_step(named: Name, iri: Option<Name>) -> Step
    ensures { result ≡ iri_step named iri }
{
    match iri {
        Some(iri) => Step::Bind { prefix: named, iri },
        None => Step::Stuck,
    }
}

fn base_step(iri: Option<Name>) -> Step
    ensures { result ≡ base_step iri }
{
    match iri {
        Some(_) => Step::On(Spot::Start),
        None => Step::Stuck,
    }
}

fn data_step(operation: Operation, keyword: Option<Keyword>) -> Step
    ensures { result ≡ data_step operation keyword }
{
    match keyword {
        Some(Keyword::Data) => Step::On(Spot::Data(operation)),
        _ => Step::Stuck,
    }
}

fn open_step(operation: Operation, mark: Option<Mark>) -> Step
    ensures { result ≡ open_step operation mark }
{
    match mark {
        Some(Mark::OpenBrace) => Step::On(Spot::Group(operation)),
        _ => Step::Stuck,
    }
}

/// A subject, or the end of an operation.
fn group_step(operation: Operation, subject: Option<SpelledName>, mark: Option<Mark>) -> Step
    ensures { result ≡ group_step operation subject mark }
{
    match subject {
        Some(subject) => Step::On(Spot::Subject(operation, subject)),
        None => match mark {
            Some(Mark::CloseBrace) => Step::On(Spot::Done),
            _ => Step::Stuck,
        },
    }
}

fn subject_step(operation: Operation, subject: SpelledName, verb: Option<SpelledVerb>) -> Step
    ensures { result ≡ subject_step operation subject verb }
{
    match verb {
        Some(verb) => Step::On(Spot::Verb(Stem {
            operation,
            subject,
            verb,
        })),
        None => Step::Stuck,
    }
}

/// An object of one token, or a string.
fn object_step(
    alloc: Global,
    stem: Stem,
    object: Option<SpelledObject>,
    text: Option<(u64, Name)>,
) -> Result<Step, OutOfMemory>
    ensures { Makes (object_step stem object text) result }
{
    match object {
        Some(object) => {
            let then = Spot::Object(stem.copy(alloc)?);
            Ok(Step::Say { stem, object, then })
        }
        None => match text {
            Some((line, text)) => Ok(Step::On(Spot::Text(stem, line, text))),
            None => Ok(Step::Stuck),
        },
    }
}

/// A sign behind an object.
fn behind_object(stem: Stem, mark: Option<Mark>) -> Option<Spot>
    ensures { result ≡ behind_object stem mark }
{
    match mark {
        Some(Mark::Comma) => Some(Spot::Verb(stem)),
        Some(Mark::Semicolon) => {
            let Stem {
                operation,
                subject,
                verb: _,
            } = stem;
            Some(Spot::Semicolon(operation, subject))
        }
        Some(Mark::Dot) => Some(Spot::Group(stem.operation)),
        Some(Mark::CloseBrace) => Some(Spot::Done),
        _ => None,
    }
}

fn mark_step(stem: Stem, mark: Option<Mark>) -> Step
    ensures { result ≡ mark_step stem mark }
{
    match behind_object(stem, mark) {
        Some(then) => Step::On(then),
        None => Step::Stuck,
    }
}

/// A triple that has ended, where the sign behind it may stand.
fn said_then(stem: Stem, object: SpelledObject, then: Option<Spot>) -> Step
    ensures { result ≡ said_then stem object then }
{
    match then {
        Some(then) => Step::Say { stem, object, then },
        None => Step::Stuck,
    }
}

/// A tag, `^^` or a sign behind a string.
fn text_step(
    alloc: Global,
    stem: Stem,
    line: u64,
    text: Name,
    tag: Option<Name>,
    mark: Option<Mark>,
) -> Result<Step, OutOfMemory>
    ensures { Makes (text_step stem line text tag mark) result }
{
    if let Some(tag) = tag {
        let then = Spot::Object(stem.copy(alloc)?);
        let object = SpelledObject::Literal {
            line,
            text,
            tag,
            datatype: SpelledDatatype::Untyped,
        };
        return Ok(Step::Say { stem, object, then });
    }
    if let Some(Mark::Hats) = mark {
        return Ok(Step::On(Spot::Hats(stem, line, text)));
    }
    let then = behind_object(stem.copy(alloc)?, mark);
    let object = literal(alloc, line, text, SpelledDatatype::Untyped)?;
    Ok(said_then(stem, object, then))
}

/// The datatype of a string.
fn hats_step(
    alloc: Global,
    stem: Stem,
    line: u64,
    text: Name,
    datatype: Option<SpelledName>,
) -> Result<Step, OutOfMemory>
    ensures { Makes (hats_step stem line text datatype) result }
{
    let Some(datatype) = datatype else {
        return Ok(Step::Stuck);
    };
    let then = Spot::Object(stem.copy(alloc)?);
    let object = literal(alloc, line, text, SpelledDatatype::Written(datatype))?;
    Ok(Step::Say { stem, object, then })
}

/// A sign behind a semicolon.
fn behind_semicolon(operation: Operation, subject: SpelledName, mark: Option<Mark>) -> Step
    ensures { result ≡ behind_semicolon operation subject mark }
{
    match mark {
        Some(Mark::Semicolon) => Step::On(Spot::Semicolon(operation, subject)),
        Some(Mark::Dot) => Step::On(Spot::Group(operation)),
        Some(Mark::CloseBrace) => Step::On(Spot::Done),
        _ => Step::Stuck,
    }
}

/// A verb or a sign behind a semicolon.
fn semicolon_step(
    operation: Operation,
    subject: SpelledName,
    verb: Option<SpelledVerb>,
    mark: Option<Mark>,
) -> Step
    ensures { result ≡ semicolon_step operation subject verb mark }
{
    match verb {
        Some(verb) => Step::On(Spot::Verb(Stem {
            operation,
            subject,
            verb,
        })),
        None => behind_semicolon(operation, subject, mark),
    }
}

fn done_step(mark: Option<Mark>) -> Step
    ensures { result ≡ done_step mark }
{
    match mark {
        Some(Mark::Semicolon) => Step::On(Spot::Start),
        _ => Step::Stuck,
    }
}

/// What the token does at the spot.
pub fn step_of(alloc: Global, spot: Spot, line: u64, token: &Token) -> Result<Step, OutOfMemory>
    ensures { Makes (step_of spot (at line token.now)) result }
{
    match spot {
        Spot::Start => Ok(start_step(line, token.keyword())),
        Spot::Prefix => Ok(prefix_step(token.prefix_name(alloc)?)),
        Spot::Named(named) => Ok(iri_step(named, token.full_iri(alloc)?)),
        Spot::Base => Ok(base_step(token.full_iri(alloc)?)),
        Spot::Word(operation, _) => Ok(data_step(operation, token.keyword())),
        Spot::Data(operation) => Ok(open_step(operation, token.mark())),
        Spot::Group(operation) => Ok(group_step(operation, token.name(alloc, line)?, token.mark())),
        Spot::Subject(operation, subject) => Ok(subject_step(
            operation,
            subject,
            token.verb(alloc, line)?,
        )),
        Spot::Verb(stem) => object_step(
            alloc,
            stem,
            token.object(alloc, line)?,
            token.string(alloc, line)?,
        ),
        Spot::Text(stem, at, text) => {
            text_step(alloc, stem, at, text, token.tag(alloc)?, token.mark())
        }
        Spot::Hats(stem, at, text) => hats_step(alloc, stem, at, text, token.name(alloc, line)?),
        Spot::Object(stem) => Ok(mark_step(stem, token.mark())),
        Spot::Semicolon(operation, subject) => Ok(semicolon_step(
            operation,
            subject,
            token.verb(alloc, line)?,
            token.mark(),
        )),
        Spot::Done => Ok(done_step(token.mark())),
    }
}
