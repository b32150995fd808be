ghost use Rattle.std.specs.Prelude.{◌≡◌, ◌≤◌, ℕ, List, ◌∷◌, length, MatchOption, OnOk, ◌<◌, ◌++◌};
ghost use Rattle.std.specs.Char.{digit_value, encode_utf8};
ghost use Rattle.dl_text.specs.Escapes.{is_local_escape, short_of, width_of, backslash, Names, Stands};
ghost use Rattle.dl_text.specs.Outcomes.{IsUndone, seen};

use crate::faults::TextFault;
use crate::places::cut_at;
use std::alloc::{AllocError, Global};

/// Which escapes a text may have: those of IRIs and of strings in N-Triples and in updates, of strings in ontologies, or of local parts in updates.
#[derive(Clone, Copy, Debug, PartialEq, Eq)]
pub enum Escapes {
    Iri,
    Full,
    Owl,
    Local,
}

fn is_local_escape(e: u8) -> bool
    ensures { result ≡ is_local_escape e }
{
    matches!(
        e,
        b'_' | b'~'
            | b'.'
            | b'-'
            | b'!'
            | b'$'
            | b'&'
            | b'\''
            | b'('
            | b')'
            | b'*'
            | b'+'
            | b','
            | b';'
            | b'='
            | b'/'
            | b'?'
            | b'#'
            | b'@'
            | b'%'
    )
}

fn short_of(rule: Escapes, e: u8) -> Option<u8>
    ensures { result ≡ short_of rule e }
{
    match (rule, e) {
        (Escapes::Iri, _) => None,
        (Escapes::Local, _) => is_local_escape(e).then_some(e),
        (_, b'"') => Some(b'"'),
        (_, b'\\') => Some(b'\\'),
        (Escapes::Owl, _) => None,
        (_, b'\'') => Some(b'\''),
        (_, b't') => Some(9),
        (_, b'b') => Some(8),
        (_, b'n') => Some(10),
        (_, b'r') => Some(13),
        (_, b'f') => Some(12),
        _ => None,
    }
}

fn width_of(rule: Escapes, mark: u8) -> Option<usize>
    ensures { result ≡ width_of rule mark }
{
    match (rule, mark) {
        (Escapes::Owl | Escapes::Local, _) => None,
        (_, b'u') => Some(4),
        (_, b'U') => Some(8),
        _ => None,
    }
}

fn hex_digit(b: u8) -> Option<u32>
    ensures { MatchOption result (¬ (digit_value b < 16)) (λ d. (d ≡ digit_value b) × (d < 16)) }
{
    (b as char).to_digit(16)
}

/// The character that the hexadecimal digits name.
fn named_by(digits: &[u8]) -> Option<char>
    requires { length digits.now ≤ 8 }
    ensures { MatchOption result ((code : ℕ) → ¬ Names digits.now code) (λ c. Names digits.now c) }
{
    let mut code: u32 = 0;
    for digit in digits {
        let Some(value) = hex_digit(*digit) else {
            return None;
        };
        code = code * 16 + value;
    }
    char::from_u32(code)
}

/// The escape behind a backslash: its character, and what comes behind it.
fn escape_of(after: &[u8], rule: Escapes) -> Option<(char, &[u8])>
    ensures { MatchOption result ((out rest : List ℕ) → ¬ Stands rule (backslash ∷ after.now) out rest)
        (λ found. Stands rule (backslash ∷ after.now) (encode_utf8 found.0) found.1.now) }
{
    let Some((mark, behind)) = after.split_first() else {
        return None;
    };
    if let Some(b) = short_of(rule, *mark) {
        return Some((b as char, behind));
    }
    let Some(width) = width_of(rule, *mark) else {
        return None;
    };
    if behind.len() < width {
        return None;
    }
    let (digits, rest) = behind.split_at(width);
    match named_by(digits) {
        None => None,
        Some(c) => Some((c, rest)),
    }
}

/// The text that the bytes stand for.
pub fn undo(alloc: Global, bytes: &[u8], rule: Escapes) -> Result<Vec<u8>, TextFault>
    ensures { IsUndone rule bytes.now (seen (λ v. v.items) result) }
{
    let mut text = Vec::new(alloc);
    let mut rest = bytes;
    while let Some((front, after)) = cut_at(rest, b'\\') {
        text.extend_from_slice(front)?;
        let Some((c, behind)) = escape_of(after, rule) else {
            return Err(TextFault::BadEscape);
        };
        push_character(&mut text, c)?;
        rest = behind;
    }
    text.extend_from_slice(rest)?;
    Ok(text)
}

fn push_character(text: &mut Vec<u8>, c: char) -> Result<(), AllocError>
    ensures { OnOk result (text.new.items ≡ text.old.items ++ encode_utf8 c) }
{
    let mut room = [0; 4];
    text.extend_from_slice(c.encode_utf8(&mut room).as_bytes())
}
