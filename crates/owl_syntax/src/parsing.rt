ghost use Rattle.std.specs.Prelude.{◌≡◌, ◌==◌, ◌+◌, ◌-◌, ◌<◌, ◌^◌, ◌∷◌, [], count_by, take, length, List, IfOk};
ghost use Rattle.dl_text.specs.Outcomes.{seen};
ghost use Rattle.owl_syntax.specs.Shapes.{Token, at, shape_of};
ghost use Rattle.owl_syntax.specs.Trees.{content_of, attach, none, word, forest_of};
ghost use Rattle.owl_syntax.specs.Outcomes.{Parses, ParsesText};
ghost use Rattle.owl_syntax.specs.Cutting.{Cuts};
ghost use Rattle.owl_syntax.specs.Tokens.{tokens_at, IsSound};
ghost use Rattle.owl_syntax.specs.Reading.{state_of, is_full, kind_in, Fits, IsRead, IsTaken, IsStepped, IsFinished, BeginsNoBlank};

use crate::body::root_of;
use crate::cutting::cut;
use crate::frame::next;
use crate::nodes::Document;
use crate::pieces::Piece;
use crate::prefixes::Prefixes;
use crate::states::{Nest, Phase, State};
use crate::texts::fault_of;
use dl_base::OutOfMemory;
use dl_runs::is_blank;
use dl_text::{ReadKind, ReadRefusal, line_at, utf8_fault};
use std::alloc::Global;

/// Where and why a document's tokens stop.
#[derive(Clone, Copy, Debug)]
struct Stop {
    line: u64,
    kind: ReadKind,
}

/// What has been read of a document, and where its tokens stopped, if they did.
#[derive(Debug, Drop)]
struct Progress<'b> {
    state: State<'b>,
    stopped: Option<Stop>,
}

/// How many parentheses may be open at once.
const DEEPEST: usize = 16;

impl<'b> Progress<'b> {
    /// Before the first token.
    fn new(alloc: Global) -> Progress<'b>
        ensures { Fits result [] }
    {
        Progress {
            state: State {
                prefixes: Prefixes::new(alloc),
                line: 1,
                text: b"",
                nest: Nest::new(alloc),
                phase: Phase::Lines,
            },
            stopped: None,
        }
    }
}

/// Whether so many parentheses are open that no more may be.
fn is_full(state: &State<'_>) -> bool
    ensures { result ≡ is_full (state_of state.now) }
{
    match state.phase {
        Phase::Body => state.nest.depth() >= DEEPEST - 1,
        _ => false,
    }
}

fn kind_at(state: &State<'_>, piece: Piece<'_>) -> ReadKind
    ensures { result ≡ kind_in (state_of state.now) (shape_of piece.entry) }
{
    match piece {
        Piece::Open => {
            if is_full(state) {
                ReadKind::TooDeep
            } else {
                ReadKind::Syntax
            }
        }
        _ => ReadKind::Syntax,
    }
}

/// One token more behind a state, and whether the tokens stop there.
fn taken<'b>(
    alloc: Global,
    state: &mut State<'b>,
    piece: Piece<'b>,
    line: u64,
) -> Result<Option<Stop>, OutOfMemory>
    ensures { IsTaken state.old state.new (at line (shape_of piece.entry)) result }
{
    let kind = kind_at(state, piece);
    if let ReadKind::TooDeep = kind {
        return Ok(Some(Stop { line, kind }));
    }
    if next(alloc, state, piece, line)? {
        Ok(None)
    } else {
        Ok(Some(Stop { line, kind }))
    }
}

/// One token more.
fn advance<'b>(
    alloc: Global,
    progress: &mut Progress<'b>,
    piece: Piece<'b>,
    line: u64,
) -> Result<(), OutOfMemory>
    ensures { IfOk result (λ _. IsStepped progress.old progress.new (at line (shape_of piece.entry) ∷ [])) }
{
    if let None = progress.stopped {
        // Nothing is written where the tokens go on, as most do.
        if let Some(stop) = taken(alloc, &mut progress.state, piece, line)? {
            progress.stopped = Some(stop);
        }
    }
    Ok(())
}

fn line_ends(bytes: &[u8]) -> u64
    ensures { result ≡ count_by (λ b. b == 10) bytes.now }
{
    bytes.iter().filter(|b| **b == b'\n').count() as u64
}

/// The line ends between the front of a piece and what stands behind it. Only a string has any.
fn ends_within(piece: Piece<'_>, here: &[u8], behind: &[u8]) -> u64
    requires cuts { Cuts here.now (shape_of piece) behind.now }
    requires no_blank { BeginsNoBlank here.now }
    requires sound { IsSound (shape_of piece) }
    ensures { result ≡ count_by (λ b. b == 10) (take (length here.now - length behind.now) here.now) }
{
    match piece {
        Piece::Text(_) => line_ends(&here[..here.len() - behind.len()]),
        _ => 0,
    }
}

/// The line behind a byte of a line.
fn line_after(line: u64, byte: u8) -> u64
    requires { line < 2 ^ 63 }
    ensures { result ≡ line + count_by (λ b. b == 10) (byte ∷ []) }
{
    if byte == b'\n' { line + 1 } else { line }
}

/// The document whose last parenthesis is closed.
fn document_of<'b>(state: State<'b>) -> Document<'b>
    ensures prefixes { result.prefixes.items ≡ state.entry.prefixes.lines.items }
    ensures root { attach none result.root ≡ word none state.entry.line state.entry.text.now (forest_of state.entry.nest.since.items) }
{
    let State {
        prefixes,
        line,
        text,
        nest,
        phase: _,
    } = state;
    Document {
        prefixes: prefixes.into_lines(),
        root: root_of(line, text, nest.since),
    }
}

/// The document at the end of a state's tokens.
fn ended<'b>(state: State<'b>, end: u64) -> Result<Document<'b>, ReadRefusal>
    ensures { (tokens : List Token) → IsRead state.entry tokens → IsFinished tokens end (seen content_of result) }
{
    match state.phase {
        Phase::Done => Ok(document_of(state)),
        _ => Err(ReadRefusal::Refused {
            line: end,
            kind: ReadKind::Syntax,
        }),
    }
}

/// The document at the end of its tokens.
fn finish<'b>(progress: Progress<'b>, end: u64) -> Result<Document<'b>, ReadRefusal>
    ensures { (tokens : List Token) → Fits progress.entry tokens → IsFinished tokens end (seen content_of result) }
{
    let Progress { state, stopped } = progress;
    match stopped {
        None => ended(state, end),
        Some(Stop { line, kind }) => Err(ReadRefusal::Refused { line, kind }),
    }
}

/// One piece more, which gives a token or none.
fn step<'b>(
    alloc: Global,
    progress: &mut Progress<'b>,
    piece: Piece<'b>,
    line: u64,
) -> Result<(), OutOfMemory>
    ensures { IfOk result (λ _. IsStepped progress.old progress.new (tokens_at line (shape_of piece.entry))) }
{
    match piece {
        Piece::Gap => Ok(()),
        _ => advance(alloc, progress, piece, line),
    }
}

/// The document of a text that is UTF-8.
fn read(alloc: Global, bytes: &[u8]) -> Result<Document<'_>, ReadRefusal>
    ensures { ParsesText bytes.now (seen content_of result) }
{
    let mut progress = Progress::new(alloc);
    let mut line = 1;
    let mut rest = bytes;
    while let Some((first, after)) = rest.split_first() {
        if is_blank(*first) {
            line = line_after(line, *first);
            rest = after;
            continue;
        }
        let Some((piece, behind)) = cut(rest) else {
            return Err(ReadRefusal::Refused {
                line,
                kind: ReadKind::Syntax,
            });
        };
        if let Some(kind) = fault_of(piece) {
            return Err(ReadRefusal::Refused { line, kind });
        }
        step(alloc, &mut progress, piece, line)?;
        line += ends_within(piece, rest, behind);
        rest = behind;
    }
    finish(progress, line)
}

/// The prefix lines and the tree of an ontology document. The first pass that refuses decides, and in a pass the first
/// place: the first byte that isn't UTF-8 (`BadUtf8`); the first place where no token begins or one has no end
/// (`Syntax`), or a token with a fault of its own (`BadIri`, `BadEscape`, `NameTooLong`); the first token with which no
/// document goes on, which is `TooDeep` at the seventeenth open parenthesis and else `Syntax`, as for the second
/// `Prefix` line of a name, at that name. The second pass goes to the end of the text before the third refuses.
///
/// OWL 2 Structural Specification and Functional-Style Syntax, sections 2.2 and 3.7.
pub fn parse(alloc: Global, bytes: &[u8]) -> Result<Document<'_>, ReadRefusal>
    // Bytes, then tokens, then the grammar.
    ensures { Parses bytes.now (seen content_of result) }
{
    match utf8_fault(bytes) {
        Some(place) => Err(ReadRefusal::Refused {
            line: line_at(bytes, place),
            kind: ReadKind::BadUtf8,
        }),
        None => read(alloc, bytes),
    }
}
