ghost use Rattle.ntriples.specs.Cutting.{shape_of};
ghost use Rattle.ntriples.specs.Lines.{Parses};
ghost use Rattle.ntriples.specs.Steps.{IsStep};

use crate::cutting::cut;
use crate::faults::LineFault;
use crate::grammar::{Progress, State, Triple, advance, finish};
use crate::pieces::Piece;
use crate::tokens::token_of;
use dl_text::{NamePool, ReadKind};
use std::alloc::Global;

fn step(
    alloc: Global,
    pool: &mut NamePool,
    progress: Progress,
    piece: Piece<'_>,
) -> Result<Progress, LineFault>
    ensures { IsStep progress (shape_of piece.entry) result }
{
    match token_of(alloc, pool, piece) {
        Ok(Some(token)) => Ok(advance(progress, token)),
        Ok(None) => Ok(progress),
        Err(fault) => Err(fault),
    }
}

/// The triple of a line, `None` for a line without one.
pub fn parse_line(
    alloc: Global,
    pool: &mut NamePool,
    line: &[u8],
) -> Result<Option<Triple>, LineFault>
    ensures { Parses line.now result }
{
    let mut progress = Progress::Going(State::Start);
    let mut rest = line;
    while !rest.is_empty() {
        let Some((piece, behind)) = cut(rest) else {
            return Err(LineFault::Refused(ReadKind::Syntax));
        };
        match step(alloc, pool, progress, piece) {
            Ok(then) => progress = then,
            Err(fault) => return Err(fault),
        }
        rest = behind;
    }
    match finish(progress) {
        Ok(triple) => Ok(triple),
        Err(kind) => Err(LineFault::Refused(kind)),
    }
}
