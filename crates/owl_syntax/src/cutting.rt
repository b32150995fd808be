ghost use Rattle.std.specs.Prelude.{◌≡◌, ℕ, List, ◌∷◌, MatchOption, false};
ghost use Rattle.std.specs.Char.{is_ascii_digit};
ghost use Rattle.dl_runs.specs.declared.runs.Class.TheVariants as classes;
ghost use Rattle.dl_runs.specs.Classes.{IsLongest, IsSome, IsBlank};
ghost use Rattle.owl_syntax.specs.Cutting.{IsLocal, CutsAt, Cuts};
ghost use Rattle.owl_syntax.specs.NameCuts.{CutsName};
ghost use Rattle.owl_syntax.specs.Shapes.{Shape, shape_of};

use crate::pieces::Piece;
use dl_runs::{
    Class, after_comment, behind_byte, behind_one, cut_prefix, cut_some, cut_tag, cut_text,
    is_blank, run, run_undotted,
};
use dl_text::cut_at;

/// The label in front, behind the `_` of a blank node.
fn cut_label(bytes: &[u8]) -> Option<(&[u8], &[u8])>
    ensures { MatchOption result ((label rest after : List ℕ) → bytes.now ≡ 58 ∷ after → ¬ IsLongest (IsSome classes.Name) after label rest)
        (λ cut. (after : List ℕ) × (bytes.now ≡ 58 ∷ after) × IsLongest (IsSome classes.Name) after cut.0.now cut.1.now) }
{
    match behind_byte(bytes, b':') {
        None => None,
        Some(behind) => cut_some(behind, Class::Name),
    }
}

/// The local part in front, as long as it can be.
fn cut_local(bytes: &[u8]) -> (&[u8], &[u8])
    ensures { IsLongest IsLocal bytes.now result.0.now result.1.now }
{
    match behind_one(bytes, Class::LocalStart) {
        None => bytes.split_at(0),
        Some(_) => run_undotted(bytes, Class::Local),
    }
}

/// A prefixed name, or else a word.
fn cut_name(bytes: &[u8]) -> Option<(Piece<'_>, &[u8])>
    ensures { MatchOption result ((shape : Shape) (rest : List ℕ) → ¬ CutsName bytes.now shape rest)
        (λ cut. CutsName bytes.now (shape_of cut.0) cut.1.now) }
{
    match cut_prefix(bytes) {
        Some((prefix, after)) => {
            let (local, rest) = cut_local(after);
            Some((Piece::Prefixed(prefix, local), rest))
        }
        None => match cut_some(bytes, Class::Letter) {
            Some((word, rest)) => Some((Piece::Word(word), rest)),
            None => None,
        },
    }
}

/// The piece at the front of a text that begins with no blank and no digit.
fn cut_sign<'b>(here: &'b [u8], first: u8, behind: &'b [u8]) -> Option<(Piece<'b>, &'b [u8])>
    requires is { here.now ≡ first ∷ behind.now }
    requires no_blank { ¬ IsBlank first }
    requires no_digit { is_ascii_digit first ≡ false }
    ensures { MatchOption result ((shape : Shape) (rest : List ℕ) → ¬ CutsAt first behind.now shape rest) (λ cut. CutsAt first behind.now (shape_of cut.0) cut.1.now) }
{
    match first {
        b'#' => Some((Piece::Gap, after_comment(behind))),
        b'(' => Some((Piece::Open, behind)),
        b')' => Some((Piece::Close, behind)),
        b'=' => Some((Piece::Equals, behind)),
        b'^' => match behind_byte(behind, b'^') {
            Some(rest) => Some((Piece::Hats, rest)),
            None => None,
        },
        b'@' => match cut_tag(behind) {
            Some((tag, rest)) => Some((Piece::Tag(tag), rest)),
            None => None,
        },
        b'<' => match cut_at(behind, b'>') {
            Some((inner, rest)) => Some((Piece::Iri(inner), rest)),
            None => None,
        },
        b'"' => match cut_text(behind) {
            Some((inner, rest)) => Some((Piece::Text(inner), rest)),
            None => None,
        },
        b'_' => match cut_label(behind) {
            Some((label, rest)) => Some((Piece::Blank(label), rest)),
            None => None,
        },
        _ => cut_name(here),
    }
}

/// The piece at the front of the text, and what stands behind it.
pub fn cut(here: &[u8]) -> Option<(Piece<'_>, &[u8])>
    ensures { MatchOption result ((shape : Shape) (rest : List ℕ) → ¬ Cuts here.now shape rest) (λ cut. Cuts here.now (shape_of cut.0) cut.1.now) }
{
    let Some((first, behind)) = here.split_first() else {
        return None;
    };
    if is_blank(*first) {
        return Some((Piece::Gap, behind));
    }
    if first.is_ascii_digit() {
        let (digits, rest) = run(here, Class::Digit);
        return Some((Piece::Digits(digits), rest));
    }
    cut_sign(here, *first, behind)
}
