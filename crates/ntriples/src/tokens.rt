ghost use Rattle.std.specs.Prelude.{◌≡◌, List, ℕ};
ghost use Rattle.dl_text.specs.Outcomes.{ReadsString};
ghost use Rattle.dl_text.specs.declared.escapes.Escapes.TheVariants.{Full};
ghost use Rattle.ntriples.specs.Cutting.{shape_of};
ghost use Rattle.ntriples.specs.Tokens.{IsToken};

use crate::faults::LineFault;
use crate::pieces::Piece;
use dl_base::Name;
use dl_text::{LONGEST_TEXT, NamePool, StringRule, TextFault, cut_at, read_string};
use std::alloc::Global;

/// A token of a line: an IRI, the text of a literal with its escapes undone, a language tag as it is written, `^^`, a point or a blank node.
#[derive(Debug, Drop)]
pub enum Token {
    Iri(Name),
    Text(Name),
    Tag(Name),
    Hats,
    Dot,
    Node,
}

/// The text of a literal: without a backslash as it stands.
fn read_text(alloc: Global, pool: &mut NamePool, inner: &[u8]) -> Result<Name, TextFault>
    ensures { ReadsString Full inner.now result }
{
    match cut_at(inner, b'\\') {
        None => {
            if inner.len() > LONGEST_TEXT {
                return Err(TextFault::NameTooLong);
            }
            Ok(pool.name(inner)?)
        }
        Some(_) => read_string(alloc, inner, StringRule::Full),
    }
}

/// The token of a piece, `None` for a blank or a comment.
pub fn token_of(
    alloc: Global,
    pool: &mut NamePool,
    piece: Piece<'_>,
) -> Result<Option<Token>, LineFault>
    ensures { IsToken (shape_of piece.entry) result }
{
    match piece {
        Piece::Gap => Ok(None),
        Piece::Dot => Ok(Some(Token::Dot)),
        Piece::Hats => Ok(Some(Token::Hats)),
        Piece::Node(_) => Ok(Some(Token::Node)),
        Piece::Iri(inner) => Ok(Some(Token::Iri(pool.read_iri(inner, true)?))),
        Piece::Text(inner) => Ok(Some(Token::Text(read_text(alloc, pool, inner)?))),
        Piece::Tag(inner) => Ok(Some(Token::Tag(pool.name(inner)?))),
    }
}
