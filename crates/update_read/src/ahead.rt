ghost use Rattle.std.specs.Prelude.{◌≡◌, ◌≢◌, ◌∷◌, ◌++◌, [], ℕ, List, MatchOption};
ghost use Rattle.std.specs.Bool.{OnTrue, OnFalse};
ghost use Rattle.dl_runs.specs.Classes.{IsPrefix};
ghost use Rattle.update_read.specs.Ahead.{is_name_byte, IsBehindNames, IsPrefixless};

use dl_runs::cut_prefix;
use dl_text::is_pn_char;

fn is_name_byte(byte: u8) -> bool
    ensures { result ≡ is_name_byte byte }
{
    byte >= 128 || is_pn_char(byte as char) || byte == b'.'
}

/// What stands behind the bytes in front that a prefix may have.
fn behind_names(bytes: &[u8]) -> &[u8]
    ensures { IsBehindNames bytes.now result.now }
{
    let mut rest = bytes;
    while let Some((first, behind)) = rest.split_first() {
        if !is_name_byte(*first) {
            return rest;
        }
        rest = behind;
    }
    rest
}

fn ends_with_dot(bytes: &[u8]) -> bool
    ensures { OnTrue result ((front : List ℕ) × (bytes.now ≡ front ++ 46 ∷ [])) }
{
    match bytes.split_last() {
        Some((last, _)) => *last == b'.',
        None => false,
    }
}

fn begins_colon(bytes: &[u8]) -> bool
    ensures { OnFalse result ((after : List ℕ) → bytes.now ≢ 58 ∷ after) }
{
    match bytes.split_first() {
        Some((first, _)) => *first == b':',
        None => false,
    }
}

/// Whether a word or a prefix may begin with the byte.
fn may_begin(byte: u8) -> bool {
    byte >= 128 || byte.is_ascii_alphabetic()
}

/// How many bytes are left where it isn't known any more that no prefix stands, where it was known as far as `known`. So that the
/// letters and digits of a long text without a colon are looked through once, and not again for each word among them.
pub fn prefixless_to(rest: &[u8], known: usize) -> usize
    requires { IsPrefixless rest.now known }
    ensures { IsPrefixless rest.now result }
{
    if rest.len() > known {
        return known;
    }
    match rest.split_first() {
        Some((first, _)) => {
            if may_begin(*first) {
                names_end(rest)
            } else {
                rest.len()
            }
        }
        None => rest.len(),
    }
}

/// The same at the first byte of a word or a prefix.
fn names_end(rest: &[u8]) -> usize
    ensures { IsPrefixless rest.now result }
{
    let behind = behind_names(rest);
    if !begins_colon(behind) {
        return behind.len();
    }
    if ends_with_dot(&rest[..rest.len() - behind.len()]) {
        return behind.len();
    }
    rest.len()
}

/// The prefix in front, and what stands behind its colon.
pub fn prefix_in_front(bytes: &[u8], known: usize) -> Option<(&[u8], &[u8])>
    requires { IsPrefixless bytes.now known }
    ensures { MatchOption result ((prefix after : List ℕ) → bytes.now ≡ prefix ++ 58 ∷ after → ¬ IsPrefix prefix)
        (λ cut. (bytes.now ≡ cut.0.now ++ 58 ∷ cut.1.now) × IsPrefix cut.0.now) }
{
    if bytes.len() > known {
        None
    } else {
        cut_prefix(bytes)
    }
}
