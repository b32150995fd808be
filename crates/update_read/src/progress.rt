ghost use Rattle.std.specs.Prelude.{◌≡◌, ◌∷◌, []};
ghost use Rattle.update_read.specs.Tokens.{at, lexemes_at};
ghost use Rattle.update_read.specs.Going.{kind_in, word_kind, refused_at, IsApplied, IsTaken, IsAdvanced, Fits};
ghost use Rattle.dl_base.specs.Ontologies as ontologies;

use crate::lists::{Gathered, Lists};
use crate::spots::{Spot, Step};
use crate::steps::step_of;
use crate::tokens::{Keyword, Mark, Token};
use dl_base::{Ontology, OutOfMemory};
use dl_text::{NamePool, Prefixes, ReadKind};
use std::alloc::Global;

/// What has been read of an update whose tokens go on, or where and why they stop.
#[derive(Drop)]
pub enum Progress {
    Going(Spot, Prefixes, Gathered),
    Stopped { line: u64, kind: ReadKind },
}

/// The kind of refusal of a word that the spot doesn't take.
fn word_kind(spot: &Spot, word: Keyword) -> ReadKind
    ensures { result ≡ word_kind spot.now word }
{
    match spot {
        Spot::Start => ReadKind::OtherOperation,
        Spot::Group(_) => match word {
            Keyword::Graph => ReadKind::OtherOperation,
            _ => ReadKind::Syntax,
        },
        _ => ReadKind::Syntax,
    }
}

/// The kind of refusal of a token that the spot doesn't take.
fn kind_in(spot: &Spot, token: &Token) -> ReadKind
    ensures { result ≡ kind_in spot.now token.now }
{
    match token {
        Token::Variable => ReadKind::Variable,
        Token::Blank => ReadKind::BlankNode,
        Token::Sign(Mark::Open) => ReadKind::BlankNode,
        Token::Word(word) => word_kind(spot, *word),
        _ => ReadKind::Syntax,
    }
}

/// Where the refusal is: behind the word of an operation at that word, as another operation.
pub fn refused_at(spot: &Spot, line: u64, kind: ReadKind) -> (u64, ReadKind)
    ensures { result ≡ refused_at spot.now line kind }
{
    match spot {
        Spot::Word(_, at) => (*at, ReadKind::OtherOperation),
        _ => (line, kind),
    }
}

/// What a step makes of the prefixes and of what was gathered.
fn applied(
    alloc: Global,
    pool: &mut NamePool,
    ontology: &Ontology,
    prefixes: Prefixes,
    gathered: Gathered,
    step: Step,
) -> Result<Option<(Spot, Prefixes, Gathered)>, OutOfMemory>
    ensures { IsApplied ontology.now prefixes gathered step result }
{
    match step {
        Step::Stuck => Ok(None),
        Step::On(spot) => Ok(Some((spot, prefixes, gathered))),
        Step::Bind { prefix, iri } => {
            let mut prefixes = prefixes;
            prefixes.set(prefix.as_slice(), &iri)?;
            Ok(Some((Spot::Start, prefixes, gathered)))
        }
        Step::Say { stem, object, then } => {
            let gathered = gathered.take(alloc, pool, ontology, &prefixes, &stem, &object)?;
            Ok(Some((then, prefixes, gathered)))
        }
    }
}

/// One token more behind a spot.
fn taken(
    alloc: Global,
    pool: &mut NamePool,
    ontology: &Ontology,
    spot: Spot,
    prefixes: Prefixes,
    gathered: Gathered,
    line: u64,
    token: &Token,
) -> Result<Progress, OutOfMemory>
    ensures { IsTaken ontology.now spot prefixes gathered (at line token.now) result }
{
    let (place, kind) = refused_at(&spot, line, kind_in(&spot, token));
    let step = step_of(alloc, spot, line, token)?;
    match applied(alloc, pool, ontology, prefixes, gathered, step)? {
        Some((spot, prefixes, gathered)) => Ok(Progress::Going(spot, prefixes, gathered)),
        None => Ok(Progress::Stopped { line: place, kind }),
    }
}

impl Progress {
    /// Nothing read.
    pub fn start(alloc: Global) -> Progress
        ensures { (theory : ontologies.Theory) → Fits theory result [] }
    {
        let prefixes = Prefixes::none(alloc);
        Progress::Going(Spot::Start, prefixes, Gathered::Going(Lists::new(alloc)))
    }

    /// One token more.
    fn with(
        self,
        alloc: Global,
        pool: &mut NamePool,
        ontology: &Ontology,
        line: u64,
        token: &Token,
    ) -> Result<Progress, OutOfMemory>
        ensures { IsAdvanced ontology.now self (at line token.now ∷ []) result }
    {
        match self {
            Progress::Going(spot, prefixes, gathered) => {
                taken(alloc, pool, ontology, spot, prefixes, gathered, line, token)
            }
            Progress::Stopped { line, kind } => Ok(Progress::Stopped { line, kind }),
        }
    }

    /// One piece more, which is a token or none.
    pub fn advance(
        self,
        alloc: Global,
        pool: &mut NamePool,
        ontology: &Ontology,
        line: u64,
        token: Option<Token>,
    ) -> Result<Progress, OutOfMemory>
        ensures { IsAdvanced ontology.now self (lexemes_at line token) result }
    {
        match token {
            None => Ok(self),
            Some(token) => self.with(alloc, pool, ontology, line, &token),
        }
    }
}
