ghost use Rattle.std.specs.Prelude.{◌≡◌, ◌++◌, ◌∷◌, [], ◌≤◌, ◌<◌, ◌≢◌, ◌⊎◌, List, ℕ, length, take, MatchOption, IsTrue};
ghost use Rattle.std.specs.Char.{encode_utf8, IsScalar};
ghost use Rattle.std.specs.Str.{StartsWithNoChar, IsUtf8};
ghost use Rattle.dl_runs.specs.Classes.{is_of, IsOf, BeginsWith};
ghost use Rattle.dl_runs.specs.Runs.{IsPlain, HasPlainFront, IsStretch, IsRun, IsUndotted};

use dl_text::{is_pn_base, is_pn_char};

/// A class of characters.
#[derive(Clone, Copy, Debug, PartialEq, Eq)]
pub enum Class {
    Letter,
    Digit,
    LetterOrDigit,
    Base,
    Name,
    Prefix,
    LocalStart,
    Local,
    LabelStart,
    Variable,
}

/// Whether the character is of the class.
fn is_of(class: Class, c: char) -> bool
    ensures { result ≡ is_of class c }
{
    match class {
        Class::Letter => c.is_ascii_alphabetic(),
        Class::Digit => c.is_ascii_digit(),
        Class::LetterOrDigit => c.is_ascii_alphanumeric(),
        Class::Base => is_pn_base(c),
        Class::Name => is_pn_char(c),
        Class::Prefix => is_pn_char(c) || c == '.',
        Class::LocalStart => is_pn_base(c) || c == '_' || c == ':' || c.is_ascii_digit(),
        Class::Local => is_pn_char(c) || c == '.' || c == ':',
        Class::LabelStart => is_pn_base(c) || c == '_' || c.is_ascii_digit(),
        Class::Variable => is_pn_char(c) && c != '-',
    }
}

/// The longest text at the front of the bytes.
fn front_text(bytes: &[u8]) -> &str
    ensures front { (rest : List ℕ) × (bytes.now ≡ result.now ++ rest) }
    ensures longest { (n : ℕ) → length result.now < n → n ≤ length bytes.now → ¬ IsUtf8 (take n bytes.now) }
{
    match str::from_utf8(bytes) {
        Ok(text) => text,
        Err(error) => match str::from_utf8(&bytes[..error.valid_up_to()]) {
            Ok(text) => text,
            Err(_) => unreachable!(),
        },
    }
}

/// The first four bytes, or all of fewer.
fn first_four(bytes: &[u8]) -> &[u8]
    ensures { result.now ≡ take 4 bytes.now }
{
    if bytes.len() < 4 { bytes } else { &bytes[..4] }
}

/// The character in front, of up to four bytes, and what stands behind it.
fn wide_char(bytes: &[u8]) -> Option<(char, &[u8])>
    ensures { MatchOption result (StartsWithNoChar bytes.now) (λ cut. (bytes.now ≡ encode_utf8 cut.0 ++ cut.1.now) × IsScalar cut.0) }
{
    match front_text(first_four(bytes)).chars().next() {
        None => None,
        Some(c) => Some((c, &bytes[c.len_utf8()..])),
    }
}

/// The character in front, and what stands behind it.
fn first_char(bytes: &[u8]) -> Option<(char, &[u8])>
    ensures { MatchOption result (StartsWithNoChar bytes.now) (λ cut. (bytes.now ≡ encode_utf8 cut.0 ++ cut.1.now) × IsScalar cut.0) }
{
    match bytes.split_first() {
        None => None,
        Some((first, behind)) => {
            if *first < 128 {
                Some((*first as char, behind))
            } else {
                wide_char(bytes)
            }
        }
    }
}

/// What stands behind the character in front, if that is of the class.
pub fn behind_one(bytes: &[u8], class: Class) -> Option<&[u8]>
    ensures { MatchOption result (¬ BeginsWith class bytes.now) (λ rest. (c : ℕ) × (bytes.now ≡ encode_utf8 c ++ rest.now) × IsOf class c) }
{
    match first_char(bytes) {
        None => None,
        Some((c, behind)) => { if is_of(class, c) { Some(behind) } else { None } }
    }
}

/// Whether the byte is an ASCII letter, a digit or a low line of the class, as most characters of names are.
fn is_plain(class: Class, byte: u8) -> bool
    ensures { IsTrue result → IsPlain class byte }
{
    match class {
        Class::Letter | Class::Base => byte.is_ascii_alphabetic(),
        Class::Digit => byte.is_ascii_digit(),
        Class::LetterOrDigit => byte.is_ascii_alphanumeric(),
        _ => byte.is_ascii_alphanumeric() || byte == b'_',
    }
}

/// What stands behind the plain bytes of the class in front.
fn behind_plain(bytes: &[u8], class: Class) -> &[u8]
    ensures { HasPlainFront class bytes.now result.now }
{
    let mut rest = bytes;
    while let Some((first, behind)) = rest.split_first() {
        if !is_plain(class, *first) {
            return rest;
        }
        rest = behind;
    }
    rest
}

/// What stands behind one or more characters of the class in front: all plain bytes there, or one character.
fn behind_some(bytes: &[u8], class: Class) -> Option<&[u8]>
    ensures { MatchOption result (¬ BeginsWith class bytes.now) (λ rest. IsStretch class bytes.now rest.now) }
{
    let rest = behind_plain(bytes, class);
    if rest.len() < bytes.len() {
        Some(rest)
    } else {
        behind_one(bytes, class)
    }
}

/// The characters of the class in front, as many as there are, and what stands behind them.
pub fn run(bytes: &[u8], class: Class) -> (&[u8], &[u8])
    ensures { IsRun class bytes.now result.0.now result.1.now }
{
    let mut rest = bytes;
    while let Some(behind) = behind_some(rest, class) {
        rest = behind;
    }
    bytes.split_at(bytes.len() - rest.len())
}

/// Where the text without dots at its end goes to behind a stretch more.
fn end_behind<'b>(rest: &'b [u8], behind: &'b [u8], end: &'b [u8]) -> &'b [u8]
    ensures { ((more : List ℕ) × (rest.now ≡ 46 ∷ more) × (result.now ≡ end.now)) ⊎ (((more : List ℕ) → rest.now ≢ 46 ∷ more) × (result.now ≡ behind.now)) }
{
    match rest.split_first() {
        Some((b'.', _)) => end,
        _ => behind,
    }
}

/// The characters of the class in front without the dots at their end, and what stands behind them.
pub fn run_undotted(bytes: &[u8], class: Class) -> (&[u8], &[u8])
    ensures { IsUndotted class bytes.now result.0.now result.1.now }
{
    let mut rest = bytes;
    let mut end = bytes;
    while let Some(behind) = behind_some(rest, class) {
        end = end_behind(rest, behind, end);
        rest = behind;
    }
    bytes.split_at(bytes.len() - end.len())
}
