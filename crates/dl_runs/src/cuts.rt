ghost use Rattle.std.specs.Prelude.{◌≡◌, ◌≢◌, ◌⊎◌, ℕ, List, [], ◌∷◌, ◌++◌, All, MatchOption, IsTrue, ◌↔◌};
ghost use Rattle.dl_runs.specs.declared.runs.Class.TheVariants as classes;
ghost use Rattle.dl_runs.specs.Classes.{IsComment, IsLongest, IsSome, IsName, IsLabel, IsSubtag, IsTag, IsPrefix, IsBlank};
ghost use Rattle.dl_runs.specs.Runs.{BeginsNo};

use crate::runs::{Class, behind_one, run, run_undotted};

/// What stands in front of the first of two bytes, which of them it is, and what stands behind it.
pub fn cut_at_either(bytes: &[u8], a: u8, b: u8) -> Option<(&[u8], u8, &[u8])>
    ensures { MatchOption result (All (λ c. (c ≢ a) × (c ≢ b)) bytes.now)
        (λ cut. (bytes.now ≡ cut.0.now ++ cut.1 ∷ cut.2.now) × ((cut.1 ≡ a) ⊎ (cut.1 ≡ b)) × All (λ c. (c ≢ a) × (c ≢ b)) cut.0.now) }
{
    match memchr::memchr2(a, b, bytes) {
        None => None,
        Some(at) => Some((&bytes[..at], bytes[at], &bytes[at + 1..])),
    }
}

/// What stands behind the comment: the end of its line, or nothing.
pub fn after_comment(bytes: &[u8]) -> &[u8]
    ensures { IsComment bytes.now result.now }
{
    match cut_at_either(bytes, b'\r', b'\n') {
        None => &bytes[bytes.len()..],
        Some((front, _, _)) => &bytes[front.len()..],
    }
}

/// What stands behind the byte in front, if that is this one.
pub fn behind_byte(bytes: &[u8], byte: u8) -> Option<&[u8]>
    ensures { MatchOption result ((after : List ℕ) → bytes.now ≢ byte ∷ after) (λ after. bytes.now ≡ byte ∷ after.now) }
{
    match bytes.split_first() {
        None => None,
        Some((first, after)) => { if *first == byte { Some(after) } else { None } }
    }
}

/// What stands behind a hyphen with letters and digits.
fn behind_subtag(bytes: &[u8]) -> Option<&[u8]>
    ensures { MatchOption result ((part rest : List ℕ) → ¬ IsSubtag bytes.now part rest)
        (λ rest. (part : List ℕ) × IsSubtag bytes.now part rest.now × BeginsNo classes.LetterOrDigit rest.now) }
{
    let Some(after) = behind_byte(bytes, b'-') else {
        return None;
    };
    let (part, rest) = run(after, Class::LetterOrDigit);
    if part.is_empty() { None } else { Some(rest) }
}

/// The tag in front, as long as it can be.
pub fn cut_tag(bytes: &[u8]) -> Option<(&[u8], &[u8])>
    ensures { MatchOption result ((tag rest : List ℕ) → ¬ IsLongest IsTag bytes.now tag rest)
        (λ cut. IsLongest IsTag bytes.now cut.0.now cut.1.now) }
{
    let (letters, behind) = run(bytes, Class::Letter);
    if letters.is_empty() {
        return None;
    }
    let mut rest = behind;
    while let Some(more) = behind_subtag(rest) {
        rest = more;
    }
    Some(bytes.split_at(bytes.len() - rest.len()))
}

/// The characters of the class in front, if there are any.
pub fn cut_some(bytes: &[u8], class: Class) -> Option<(&[u8], &[u8])>
    ensures { MatchOption result ((word rest : List ℕ) → ¬ IsLongest (IsSome class) bytes.now word rest)
        (λ cut. IsLongest (IsSome class) bytes.now cut.0.now cut.1.now) }
{
    let (word, rest) = run(bytes, class);
    if word.is_empty() {
        None
    } else {
        Some((word, rest))
    }
}

/// What stands behind the colon of a prefix, and the prefix.
pub fn cut_prefix(bytes: &[u8]) -> Option<(&[u8], &[u8])>
    ensures { MatchOption result ((prefix after : List ℕ) → bytes.now ≡ prefix ++ 58 ∷ after → ¬ IsPrefix prefix)
        (λ cut. (bytes.now ≡ cut.0.now ++ 58 ∷ cut.1.now) × IsPrefix cut.0.now) }
{
    let (prefix, behind) = run_undotted(bytes, Class::Prefix);
    let Some(after) = behind_byte(behind, b':') else {
        return None;
    };
    if prefix.is_empty() {
        return Some((prefix, after));
    }
    match behind_one(prefix, Class::Base) {
        None => None,
        Some(_) => Some((prefix, after)),
    }
}

/// Whether the byte is a space, a tab, CR or LF.
pub fn is_blank(byte: u8) -> bool
    ensures { IsTrue result ↔ IsBlank byte }
{
    byte == b' ' || byte == b'\t' || byte == b'\n' || byte == b'\r'
}

/// A name in front, as long as it can be: a character of the first class, then ones of the second, and no dot at its end.
pub fn cut_name(bytes: &[u8], first: Class, more: Class) -> Option<(&[u8], &[u8])>
    ensures { MatchOption result ((name rest : List ℕ) → ¬ IsLongest (IsName first more) bytes.now name rest)
        (λ cut. IsLongest (IsName first more) bytes.now cut.0.now cut.1.now) }
{
    let (name, rest) = run_undotted(bytes, more);
    match behind_one(name, first) {
        None => None,
        Some(_) => Some((name, rest)),
    }
}

/// The label behind the `_:` of a blank node, as long as it can be, and what stands behind it.
///
/// `BLANK_NODE_LABEL` of SPARQL 1.1 and N-Triples.
pub fn cut_label(bytes: &[u8]) -> Option<(&[u8], &[u8])>
    ensures { MatchOption result ((label rest : List ℕ) → ¬ IsLongest IsLabel bytes.now label rest)
        (λ cut. IsLongest IsLabel bytes.now cut.0.now cut.1.now) }
{
    cut_name(bytes, Class::LabelStart, Class::Prefix)
}
