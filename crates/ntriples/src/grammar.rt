ghost use Rattle.std.specs.Prelude.{◌≡◌, ◌++◌, ◌∷◌, [], List, Ok, Err};
ghost use Rattle.ntriples.specs.declared.tokens.Token as token_type;
ghost use Rattle.ntriples.specs.Grammar.{after, so_far, kind_at, Fits, Finishes};

use crate::tokens::Token;
use dl_base::Name;
use dl_text::ReadKind;

/// The object of a triple.
#[derive(Debug, Drop)]
pub enum Object {
    Iri(Name),
    Plain(Name),
    Typed(Name, Name),
    Tagged(Name, Name),
}

/// A triple of a line.
#[derive(Debug, Drop)]
pub struct Triple {
    pub subject: Name,
    pub predicate: Name,
    pub object: Object,
}

/// What of a triple has been read.
#[derive(Debug, Drop)]
pub enum State {
    Start,
    Subject(Name),
    Predicate(Name, Name),
    Linked(Name, Name, Name),
    Valued(Name, Name, Name),
    Typing(Name, Name, Name),
    Typed(Name, Name, Name, Name),
    Tagged(Name, Name, Name, Name),
    Whole(Triple),
}

/// What has been read of a line whose tokens go on, or why they stop.
#[derive(Debug, Drop)]
pub enum Progress {
    Going(State),
    Stopped(ReadKind),
}

fn kind_at(token: &Token) -> ReadKind
    ensures { result ≡ kind_at token.now }
{
    match token {
        Token::Node => ReadKind::BlankNode,
        _ => ReadKind::Syntax,
    }
}

fn next(state: State, token: Token) -> Option<State>
    ensures { result ≡ after state token }
{
    match (state, token) {
        (State::Start, Token::Iri(a)) => Some(State::Subject(a)),
        (State::Subject(s), Token::Iri(p)) => Some(State::Predicate(s, p)),
        (State::Predicate(s, p), Token::Iri(o)) => Some(State::Linked(s, p, o)),
        (State::Predicate(s, p), Token::Text(t)) => Some(State::Valued(s, p, t)),
        (State::Linked(s, p, o), Token::Dot) => Some(State::Whole(Triple {
            subject: s,
            predicate: p,
            object: Object::Iri(o),
        })),
        (State::Valued(s, p, t), Token::Dot) => Some(State::Whole(Triple {
            subject: s,
            predicate: p,
            object: Object::Plain(t),
        })),
        (State::Valued(s, p, t), Token::Hats) => Some(State::Typing(s, p, t)),
        (State::Valued(s, p, t), Token::Tag(l)) => Some(State::Tagged(s, p, t, l)),
        (State::Typing(s, p, t), Token::Iri(d)) => Some(State::Typed(s, p, t, d)),
        (State::Typed(s, p, t, d), Token::Dot) => Some(State::Whole(Triple {
            subject: s,
            predicate: p,
            object: Object::Typed(t, d),
        })),
        (State::Tagged(s, p, t, l), Token::Dot) => Some(State::Whole(Triple {
            subject: s,
            predicate: p,
            object: Object::Tagged(t, l),
        })),
        _ => None,
    }
}

/// One token more.
pub fn advance(progress: Progress, token: Token) -> Progress
    ensures { (tokens : List token_type.Token) → Fits progress tokens → Fits result (tokens ++ token ∷ []) }
{
    match progress {
        Progress::Going(state) => {
            let kind = kind_at(&token);
            match next(state, token) {
                Some(then) => Progress::Going(then),
                None => Progress::Stopped(kind),
            }
        }
        Progress::Stopped(kind) => Progress::Stopped(kind),
    }
}

/// The triple of a line at its end, `None` for a line without one.
pub fn finish(progress: Progress) -> Result<Option<Triple>, ReadKind>
    ensures { (tokens : List token_type.Token) → Fits progress tokens → Finishes tokens result }
{
    match progress {
        Progress::Going(state) => whole(state),
        Progress::Stopped(kind) => Err(kind),
    }
}

fn whole(state: State) -> Result<Option<Triple>, ReadKind>
    ensures { (tokens : List token_type.Token) → tokens ≡ so_far state → Finishes tokens result }
{
    match state {
        State::Start => Ok(None),
        State::Whole(triple) => Ok(Some(triple)),
        _ => Err(ReadKind::Syntax),
    }
}
