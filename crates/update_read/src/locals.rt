ghost use Rattle.std.specs.Prelude.{◌≡◌, ◌↔◌, ◌∷◌, ℕ, List, MatchOption, IsTrue};
ghost use Rattle.std.specs.Char.{is_ascii_hexdigit};
ghost use Rattle.dl_text.specs.Escapes.{is_local_escape};
ghost use Rattle.update_read.specs.Cutting.{LocalPiece, BeginsLocal, IsLocal};
ghost use Rattle.update_read.specs.LocalRuns.{IsMarked, EndsBehind};

use dl_runs::{Class, behind_one};

/// Whether a backslash may stand before the byte: `PN_LOCAL_ESC` of SPARQL 1.1.
fn is_escaped(byte: u8) -> bool
    ensures { result ≡ is_local_escape byte }
{
    matches!(
        byte,
        b'_' | b'~'
            | b'.'
            | b'-'
            | b'!'
            | b'$'
            | b'&'
            | b'\''
            | b'('
            | b')'
            | b'*'
            | b'+'
            | b','
            | b';'
            | b'='
            | b'/'
            | b'?'
            | b'#'
            | b'@'
            | b'%'
    )
}

/// What stands behind a hexadecimal digit in front.
fn behind_hex(bytes: &[u8]) -> Option<&[u8]>
    ensures { MatchOption result ((d : ℕ) (m : List ℕ) → IsTrue (is_ascii_hexdigit d) → ¬ (bytes.now ≡ d ∷ m)) (λ rest. (d : ℕ) × IsTrue (is_ascii_hexdigit d) × (bytes.now ≡ d ∷ rest.now)) }
{
    match bytes.split_first() {
        None => None,
        Some((digit, rest)) => {
            if digit.is_ascii_hexdigit() {
                Some(rest)
            } else {
                None
            }
        }
    }
}

/// What stands behind two hexadecimal digits in front.
fn behind_two_hex(bytes: &[u8]) -> Option<&[u8]>
    ensures { MatchOption result ((d e : ℕ) (m : List ℕ) → IsTrue (is_ascii_hexdigit d) → IsTrue (is_ascii_hexdigit e) → ¬ (bytes.now ≡ d ∷ e ∷ m))
        (λ rest. (d e : ℕ) × IsTrue (is_ascii_hexdigit d) × IsTrue (is_ascii_hexdigit e) × (bytes.now ≡ d ∷ e ∷ rest.now)) }
{
    match behind_hex(bytes) {
        None => None,
        Some(rest) => behind_hex(rest),
    }
}

/// What stands behind a byte in front that a backslash may stand before.
fn behind_escaped(bytes: &[u8]) -> Option<&[u8]>
    ensures { MatchOption result ((e : ℕ) (m : List ℕ) → IsTrue (is_local_escape e) → ¬ (bytes.now ≡ e ∷ m)) (λ rest. (e : ℕ) × IsTrue (is_local_escape e) × (bytes.now ≡ e ∷ rest.now)) }
{
    match bytes.split_first() {
        None => None,
        Some((byte, rest)) => { if is_escaped(*byte) { Some(rest) } else { None } }
    }
}

/// What stands behind `%` with two digits, or behind an escape.
fn behind_marked(here: &[u8]) -> Option<&[u8]>
    ensures { MatchOption result ((m : List ℕ) → ¬ IsMarked here.now m) (λ rest. IsMarked here.now rest.now) }
{
    match here.split_first() {
        Some((b'%', rest)) => behind_two_hex(rest),
        Some((b'\\', rest)) => behind_escaped(rest),
        _ => None,
    }
}

/// What stands behind one piece of a local part.
fn behind_local(here: &[u8], class: Class) -> Option<&[u8]>
    ensures { MatchOption result ((out m : List ℕ) → ¬ LocalPiece class here.now out m) (λ rest. (out : List ℕ) × LocalPiece class here.now out rest.now) }
{
    match behind_one(here, class) {
        Some(rest) => Some(rest),
        None => behind_marked(here),
    }
}

fn begins_local(bytes: &[u8]) -> bool
    ensures { IsTrue result ↔ BeginsLocal bytes.now }
{
    match behind_local(bytes, Class::LocalStart) {
        None => false,
        Some(_) => true,
    }
}

/// Where the text without dots at its end goes to behind one piece more.
fn end_behind<'b>(rest: &'b [u8], behind: &'b [u8], end: &'b [u8]) -> &'b [u8]
    ensures { EndsBehind rest.now behind.now end.now result.now }
{
    match rest.split_first() {
        Some((b'.', _)) => end,
        _ => behind,
    }
}

/// The local part in front, as long as it can be, and what stands behind it.
pub fn cut_local(bytes: &[u8]) -> (&[u8], &[u8])
    ensures { IsLocal bytes.now result.0.now result.1.now }
{
    if !begins_local(bytes) {
        return bytes.split_at(0);
    }
    let mut rest = bytes;
    let mut end = bytes;
    while let Some(behind) = behind_local(rest, Class::Local) {
        end = end_behind(rest, behind, end);
        rest = behind;
    }
    bytes.split_at(bytes.len() - end.len())
}
