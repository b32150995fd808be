ghost use Rattle.std.specs.Prelude.{◌≡◌, ◌⊎◌, ◌↔◌, ◌∷◌, [], MatchOption, IsTrue, List, ℕ};
ghost use Rattle.dl_text.specs.Escapes.{Stands};
ghost use Rattle.dl_text.specs.declared.escapes.Escapes.TheVariants.{Owl};
ghost use Rattle.owl_syntax.specs.Shapes.{shape_of, Text, Iri};
ghost use Rattle.owl_syntax.specs.Tokens.{IsSound, HasFault};

use crate::pieces::Piece;
use dl_text::{LONGEST_IRI, LONGEST_TEXT, ReadKind, cut_at, is_iri};

/// Whether a backslash may stand before the byte.
fn is_escaped(byte: u8) -> bool
    ensures { IsTrue result ↔ ((byte ≡ 34) ⊎ (byte ≡ 92)) }
{
    byte == b'"' || byte == b'\\'
}

/// What stands behind the escape whose backslash stands before the bytes.
fn behind_escape(after: &[u8]) -> Option<&[u8]>
    ensures { MatchOption result ((out rest : List ℕ) → ¬ Stands Owl (92 ∷ after.now) out rest) (λ rest. (b : ℕ) × Stands Owl (92 ∷ after.now) (b ∷ []) rest.now) }
{
    match after.split_first() {
        None => None,
        Some((escaped, behind)) => {
            if is_escaped(*escaped) {
                Some(behind)
            } else {
                None
            }
        }
    }
}

/// The fault of what stands between the quotes of a literal.
fn text_fault(inner: &[u8]) -> Option<ReadKind>
    ensures { MatchOption result (IsSound (Text inner.now)) (HasFault (Text inner.now)) }
{
    let mut length = 0;
    let mut rest = inner;
    while let Some((front, after)) = cut_at(rest, b'\\') {
        let Some(behind) = behind_escape(after) else {
            return Some(ReadKind::BadEscape);
        };
        length += front.len() + 1;
        rest = behind;
    }
    if length + rest.len() > LONGEST_TEXT {
        return Some(ReadKind::NameTooLong);
    }
    None
}

/// The fault of what stands between `<` and `>`.
fn iri_fault(inner: &[u8]) -> Option<ReadKind>
    ensures { MatchOption result (IsSound (Iri inner.now)) (HasFault (Iri inner.now)) }
{
    if !is_iri(inner) {
        return Some(ReadKind::BadIri);
    }
    if inner.len() > LONGEST_IRI {
        return Some(ReadKind::NameTooLong);
    }
    None
}

/// The fault that a piece has of its own.
pub fn fault_of(piece: Piece<'_>) -> Option<ReadKind>
    ensures { MatchOption result (IsSound (shape_of piece.entry)) (HasFault (shape_of piece.entry)) }
{
    match piece {
        Piece::Iri(inner) => iri_fault(inner),
        Piece::Text(inner) => text_fault(inner),
        _ => None,
    }
}
