ghost use Rattle.std.specs.Prelude.{◌≡◌, ◌++◌, ◌∷◌, [], IfOk};
ghost use Rattle.dl_text.specs.Outcomes.{seen};
ghost use Rattle.owl_syntax.specs.declared.states.Phase.TheVariants as phases;
ghost use Rattle.owl_syntax.specs.Shapes.{shape_of, Prefixed};
ghost use Rattle.owl_syntax.specs.Reading.{Lines, Started, part_of, state_of, maybe, onward, between, begun, next_part, prefix_step, after_shape, Gives};

use crate::pieces::Piece;
use crate::prefixes::Prefixes;
use crate::states::{Nest, Part, Phase, State, Turn};
use dl_base::OutOfMemory;
use std::alloc::Global;
use std::mem;

/// A token between `Prefix` lines.
fn between<'b>(state: &mut State<'b>, piece: Piece<'b>, line: u64) -> bool
    ensures { onward (state_of state.new) result ≡ between state.old.prefixes.lines.items line (shape_of piece.entry) }
{
    let Piece::Word(text) = piece else {
        return false;
    };
    state.line = line;
    if text == b"Prefix".as_slice() {
        state.phase = Phase::Prefix(Part::Begun);
        return true;
    }
    if text == b"Ontology".as_slice() {
        state.text = text;
        state.phase = Phase::Root;
        return true;
    }
    false
}

/// The name of a `Prefix` line, which no line before it has.
fn named<'b>(
    alloc: Global,
    prefixes: &Prefixes,
    name: &'b [u8],
    local: &'b [u8],
) -> Result<Option<Part<'b>>, OutOfMemory>
    ensures { Gives (next_part prefixes.now.lines.items Started (Prefixed name.now local.now)) (seen (maybe part_of) result) }
{
    if !local.is_empty() || prefixes.has(alloc, name)? {
        return Ok(None);
    }
    Ok(Some(Part::Named(name)))
}

/// A token in a `Prefix` line before its last parenthesis.
fn next_part<'b>(
    alloc: Global,
    prefixes: &Prefixes,
    part: Part<'b>,
    piece: Piece<'b>,
) -> Result<Option<Part<'b>>, OutOfMemory>
    ensures { Gives (next_part prefixes.now.lines.items (part_of part.entry) (shape_of piece.entry)) (seen (maybe part_of) result) }
{
    match part {
        Part::Begun => match piece {
            Piece::Open => Ok(Some(Part::Opened)),
            _ => Ok(None),
        },
        Part::Opened => match piece {
            Piece::Prefixed(name, local) => named(alloc, prefixes, name, local),
            _ => Ok(None),
        },
        Part::Named(name) => match piece {
            Piece::Equals => Ok(Some(Part::Equalled(name))),
            _ => Ok(None),
        },
        Part::Equalled(name) => match piece {
            Piece::Iri(iri) => Ok(Some(Part::Valued(name, iri))),
            _ => Ok(None),
        },
        Part::Valued(_, _) => Ok(None),
    }
}

/// The last parenthesis of a `Prefix` line.
fn end_line<'b>(
    alloc: Global,
    state: &mut State<'b>,
    name: &'b [u8],
    iri: &'b [u8],
) -> Result<(), OutOfMemory>
    ensures { IfOk result (λ _. state_of state.new ≡ Lines (state.old.prefixes.lines.items ++ record { line = state.old.line; name = name.now; iri = iri.now } ∷ [])) }
{
    let prefixes = mem::replace(&mut state.prefixes, Prefixes::new(alloc));
    state.prefixes = prefixes.with(alloc, state.line, name, iri)?;
    state.phase = Phase::Lines;
    Ok(())
}

/// A token in a `Prefix` line.
fn in_prefix<'b>(
    alloc: Global,
    state: &mut State<'b>,
    part: Part<'b>,
    piece: Piece<'b>,
) -> Result<bool, OutOfMemory>
    ensures { Gives (prefix_step state.old.prefixes.lines.items state.old.line (part_of part.entry) (shape_of piece.entry)) (seen (onward (state_of state.new)) result) }
{
    match part {
        Part::Valued(name, iri) => match piece {
            Piece::Close => {
                end_line(alloc, state, name, iri)?;
                Ok(true)
            }
            _ => Ok(false),
        },
        _ => match next_part(alloc, &state.prefixes, part, piece)? {
            Some(then) => {
                state.phase = Phase::Prefix(then);
                Ok(true)
            }
            None => Ok(false),
        },
    }
}

/// A token behind the word `Ontology`.
fn begin<'b>(alloc: Global, state: &mut State<'b>, piece: Piece<'b>) -> bool
    ensures { onward (state_of state.new) result ≡ begun state.old.prefixes.lines.items state.old.line state.old.text.now (shape_of piece.entry) }
{
    match piece {
        Piece::Open => {
            state.nest = Nest::new(alloc);
            state.phase = Phase::Body;
            true
        }
        _ => false,
    }
}

/// A token in `Ontology( .. )`.
fn in_body<'b>(
    alloc: Global,
    state: &mut State<'b>,
    piece: Piece<'b>,
    line: u64,
) -> Result<bool, OutOfMemory>
    requires { state.old.phase ≡ phases.Body }
    ensures { Gives (after_shape (state_of state.old) line (shape_of piece.entry)) (seen (onward (state_of state.new)) result) }
{
    match state.nest.step(alloc, piece, line)? {
        Turn::On => Ok(true),
        Turn::Closed => {
            state.phase = Phase::Done;
            Ok(true)
        }
        Turn::Stuck => Ok(false),
    }
}

/// One token more. False where no document goes on with it, and then nothing is said of the state.
pub fn next<'b>(
    alloc: Global,
    state: &mut State<'b>,
    piece: Piece<'b>,
    line: u64,
) -> Result<bool, OutOfMemory>
    ensures { Gives (after_shape (state_of state.old) line (shape_of piece.entry)) (seen (onward (state_of state.new)) result) }
{
    match state.phase {
        Phase::Lines => Ok(between(state, piece, line)),
        Phase::Prefix(part) => in_prefix(alloc, state, part, piece),
        Phase::Root => Ok(begin(alloc, state, piece)),
        Phase::Body => in_body(alloc, state, piece, line),
        Phase::Done => Ok(false),
    }
}
