ghost use Rattle.std.specs.Prelude.{◌≡◌};
ghost use Rattle.std.specs.Str.{bytes_eq};
ghost use Rattle.update_read.specs.Shapes.{shape_of};
ghost use Rattle.update_read.specs.Tokens.{small, keyword_of};
ghost use Rattle.update_read.specs.Reading.{ReadsToken};

use crate::tokens::{Keyword, Piece, Token};
use dl_text::{LONGEST_TEXT, NamePool, StringRule, TextFault, read_string};
use std::alloc::Global;

/// Whether the word is the keyword, which is in small letters, in any ASCII case.
fn is_word(word: &[u8], keyword: &[u8]) -> bool
    ensures { result ≡ bytes_eq (small word.now) (small keyword.now) }
{
    word.eq_ignore_ascii_case(keyword)
}

/// What a bare word is.
fn keyword_of(word: &[u8]) -> Keyword
    ensures { result ≡ keyword_of word.now }
{
    if word == b"a".as_slice() {
        return Keyword::A;
    }
    if is_word(word, b"prefix") {
        return Keyword::Prefix;
    }
    if is_word(word, b"base") {
        return Keyword::Base;
    }
    if is_word(word, b"insert") {
        return Keyword::Insert;
    }
    if is_word(word, b"delete") {
        return Keyword::Delete;
    }
    if is_word(word, b"data") {
        return Keyword::Data;
    }
    if is_word(word, b"graph") {
        return Keyword::Graph;
    }
    if is_word(word, b"true") {
        return Keyword::True;
    }
    if is_word(word, b"false") {
        return Keyword::False;
    }
    Keyword::Other
}

/// The token of a piece, with its escapes undone; none where it is a blank or a comment. `BadEscape`, `BadIri` and `NameTooLong`.
pub fn token_of(
    alloc: Global,
    pool: &mut NamePool,
    piece: Piece<'_>,
) -> Result<Option<Token>, TextFault>
    ensures { ReadsToken (shape_of piece.entry) result }
{
    match piece {
        Piece::Gap => Ok(None),
        Piece::Variable => Ok(Some(Token::Variable)),
        Piece::Blank => Ok(Some(Token::Blank)),
        Piece::Sign(mark) => Ok(Some(Token::Sign(mark))),
        Piece::Number(text) => {
            if text.len() > LONGEST_TEXT {
                return Err(TextFault::NameTooLong);
            }
            Ok(Some(Token::Number(pool.name(text)?)))
        }
        Piece::Iri(inner) => Ok(Some(Token::Iri(pool.read_iri(inner, true)?))),
        Piece::Text(inner) => Ok(Some(Token::Text(read_string(alloc, inner, StringRule::Full)?))),
        Piece::Tag(tag) => Ok(Some(Token::Tag(pool.name(tag)?))),
        Piece::Word(word) => Ok(Some(Token::Word(keyword_of(word)))),
        Piece::Prefixed(prefix, local) => Ok(Some(Token::Prefixed(
            pool.name(prefix)?,
            pool.name(local)?,
        ))),
    }
}
