ghost use Rattle.std.specs.Prelude.{◌≡◌, ◌≢◌, ◌⊎◌, ◌↔◌, ◌∷◌, ◌++◌, ℕ, List, MatchOption, IsTrue, false};
ghost use Rattle.std.specs.Char.{is_ascii_digit};
ghost use Rattle.dl_runs.specs.Classes.{IsBlank, IsLongest, IsName, IsPrefix};
ghost use Rattle.dl_runs.specs.declared.runs.Class.TheVariants as classes;
ghost use Rattle.update_read.specs.Ahead.{IsPrefixless};
ghost use Rattle.update_read.specs.Cutting.{mark_of, CutsAt, Cuts};
ghost use Rattle.update_read.specs.Names.{BeginsNumber, CutsName};
ghost use Rattle.update_read.specs.Shapes.{Shape, shape_of};

use crate::ahead::prefix_in_front;
use crate::locals::cut_local;
use crate::numbers::cut_number;
use crate::texts::cut_string;
use crate::tokens::{Mark, Piece};
use dl_runs::{Class, after_comment, behind_byte, cut_name, cut_some, cut_tag, is_blank};
use dl_text::cut_at;

/// The sign that the byte is.
fn mark_of(byte: u8) -> Option<Mark>
    ensures { result ≡ mark_of byte }
{
    match byte {
        b'.' => Some(Mark::Dot),
        b',' => Some(Mark::Comma),
        b';' => Some(Mark::Semicolon),
        b'{' => Some(Mark::OpenBrace),
        b'}' => Some(Mark::CloseBrace),
        b'(' | b'[' => Some(Mark::Open),
        b')' | b']' => Some(Mark::Close),
        _ => None,
    }
}

/// What stands behind the label of a blank node, in front of which `_` stands.
fn behind_label(bytes: &[u8]) -> Option<&[u8]>
    ensures { MatchOption result ((after label rest : List ℕ) → bytes.now ≡ 58 ∷ after → ¬ IsLongest (IsName classes.LabelStart classes.Prefix) after label rest)
        (λ rest. (after label : List ℕ) × (bytes.now ≡ 58 ∷ after) × IsLongest (IsName classes.LabelStart classes.Prefix) after label rest.now) }
{
    let Some(after) = behind_byte(bytes, b':') else {
        return None;
    };
    match cut_name(after, Class::LabelStart, Class::Prefix) {
        None => None,
        Some((_, rest)) => Some(rest),
    }
}

/// A prefixed name, or else a word. It is known how far no prefix stands.
fn cut_word(bytes: &[u8], known: usize) -> Option<(Piece<'_>, &[u8])>
    requires { IsPrefixless bytes.now known }
    ensures { MatchOption result ((shape : Shape) (rest : List ℕ) → ¬ CutsName bytes.now shape rest) (λ cut. CutsName bytes.now (shape_of cut.0) cut.1.now) }
{
    match prefix_in_front(bytes, known) {
        Some((prefix, after)) => {
            let (local, rest) = cut_local(after);
            Some((Piece::Prefixed(prefix, local), rest))
        }
        None => match cut_some(bytes, Class::Letter) {
            Some((word, rest)) => Some((Piece::Word(word), rest)),
            None => None,
        },
    }
}

/// Whether a number may begin with the byte.
fn begins_number(byte: u8) -> bool
    ensures { IsTrue result ↔ BeginsNumber byte }
{
    byte.is_ascii_digit() || byte == b'+' || byte == b'-'
}

/// The string behind its first quote.
fn text_at(behind: &[u8], quote: u8) -> Option<(Piece<'_>, &[u8])>
    requires { (quote ≡ 34) ⊎ (quote ≡ 39) }
    ensures { MatchOption result ((shape : Shape) (rest : List ℕ) → ¬ CutsAt quote behind.now shape rest) (λ cut. CutsAt quote behind.now (shape_of cut.0) cut.1.now) }
{
    match cut_string(behind, quote) {
        Some((inner, rest)) => Some((Piece::Text(inner), rest)),
        None => None,
    }
}

/// The variable behind its first byte.
fn variable_at(behind: &[u8]) -> Option<(Piece<'_>, &[u8])>
    ensures { MatchOption result ((b : ℕ) (shape : Shape) (rest : List ℕ) → ((b ≡ 63) ⊎ (b ≡ 36)) → ¬ CutsAt b behind.now shape rest)
        (λ cut. (b : ℕ) → ((b ≡ 63) ⊎ (b ≡ 36)) → CutsAt b behind.now (shape_of cut.0) cut.1.now) }
{
    match cut_name(behind, Class::LabelStart, Class::Variable) {
        Some((_, rest)) => Some((Piece::Variable, rest)),
        None => None,
    }
}

/// The piece at the front of a text that begins with no blank, no sign and no number.
fn cut_token<'b>(
    here: &'b [u8],
    first: u8,
    behind: &'b [u8],
    known: usize,
) -> Option<(Piece<'b>, &'b [u8])>
    requires is { here.now ≡ first ∷ behind.now }
    requires no_blank { ¬ IsBlank first }
    requires no_number { ¬ BeginsNumber first }
    requires no_mark { mark_of first ≡ None }
    requires prefixless { IsPrefixless here.now known }
    ensures { MatchOption result ((shape : Shape) (rest : List ℕ) → ¬ CutsAt first behind.now shape rest) (λ cut. CutsAt first behind.now (shape_of cut.0) cut.1.now) }
{
    match first {
        b'#' => Some((Piece::Gap, after_comment(behind))),
        b'^' => match behind_byte(behind, b'^') {
            Some(rest) => Some((Piece::Sign(Mark::Hats), rest)),
            None => None,
        },
        b'@' => match cut_tag(behind) {
            Some((tag, rest)) => Some((Piece::Tag(tag), rest)),
            None => None,
        },
        b'<' => match cut_at(behind, b'>') {
            Some((inner, rest)) => Some((Piece::Iri(inner), rest)),
            None => None,
        },
        b'"' => text_at(behind, b'"'),
        b'\'' => text_at(behind, b'\''),
        b'?' => variable_at(behind),
        b'$' => variable_at(behind),
        b'_' => match behind_label(behind) {
            Some(rest) => Some((Piece::Blank, rest)),
            None => None,
        },
        _ => cut_word(here, known),
    }
}

/// The piece at the front of the text, and what stands behind it. It is known how far no prefix stands.
pub fn cut(here: &[u8], known: usize) -> Option<(Piece<'_>, &[u8])>
    requires { IsPrefixless here.now known }
    ensures { MatchOption result ((shape : Shape) (rest : List ℕ) → ¬ Cuts here.now shape rest) (λ cut. Cuts here.now (shape_of cut.0) cut.1.now) }
{
    let Some((first, behind)) = here.split_first() else {
        return None;
    };
    if is_blank(*first) {
        return Some((Piece::Gap, behind));
    }
    if let Some(mark) = mark_of(*first) {
        return Some((Piece::Sign(mark), behind));
    }
    if begins_number(*first) {
        return match cut_number(here) {
            Some((text, rest)) => Some((Piece::Number(text), rest)),
            None => None,
        };
    }
    cut_token(here, *first, behind, known)
}
