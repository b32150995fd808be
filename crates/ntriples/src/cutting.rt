ghost use Rattle.std.specs.Prelude.{◌≡◌, ◌≢◌, ℕ, List, ◌∷◌, MatchOption};
ghost use Rattle.dl_runs.specs.Classes.{IsLabel, IsLongest};
ghost use Rattle.ntriples.specs.Cutting.{Shape, shape_of, Cuts};

use crate::pieces::Piece;
use dl_runs::{cut_label, cut_tag, cut_text};
use dl_text::cut_at;

/// The label behind the `_` of a blank node, and what stands behind it.
fn cut_node(behind: &[u8]) -> Option<(&[u8], &[u8])>
    ensures { MatchOption result ((label rest after : List ℕ) → behind.now ≡ 58 ∷ after → ¬ IsLongest IsLabel after label rest)
        (λ cut. (after : List ℕ) × (behind.now ≡ 58 ∷ after) × IsLongest IsLabel after cut.0.now cut.1.now) }
{
    match behind.split_first() {
        Some((b':', after)) => cut_label(after),
        _ => None,
    }
}

/// The piece at the front of a line, and what stands behind it.
pub fn cut(line: &[u8]) -> Option<(Piece<'_>, &[u8])>
    ensures { MatchOption result ((shape : Shape) (rest : List ℕ) → ¬ Cuts line.now shape rest)
        (λ cut. Cuts line.now (shape_of cut.0) cut.1.now) }
{
    let Some((first, behind)) = line.split_first() else {
        return None;
    };
    match *first {
        b' ' | b'\t' => Some((Piece::Gap, behind)),
        b'#' => Some((Piece::Gap, &line[line.len()..])),
        b'.' => Some((Piece::Dot, behind)),
        b'<' => match cut_at(behind, b'>') {
            Some((inner, rest)) => Some((Piece::Iri(inner), rest)),
            None => None,
        },
        b'"' => match cut_text(behind) {
            Some((inner, rest)) => Some((Piece::Text(inner), rest)),
            None => None,
        },
        b'^' => match behind.split_first() {
            Some((b'^', rest)) => Some((Piece::Hats, rest)),
            _ => None,
        },
        b'@' => match cut_tag(behind) {
            Some((tag, rest)) => Some((Piece::Tag(tag), rest)),
            None => None,
        },
        b'_' => match cut_node(behind) {
            Some((label, rest)) => Some((Piece::Node(label), rest)),
            None => None,
        },
        _ => None,
    }
}
