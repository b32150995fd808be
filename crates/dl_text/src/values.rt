ghost use Rattle.std.specs.Prelude.{◌≡◌, ◌↔◌, IfOk, IsTrue};
ghost use Rattle.dl_text.specs.Outcomes.{seen};
ghost use Rattle.dl_text.specs.Values.{digits_of, is_minus, IsInteger, without_zeros, number_text, integer_text, IsMade};

use crate::faults::TextFault;
use std::alloc::{AllocError, Global};

fn digits_of(text: &[u8]) -> &[u8]
    ensures { result.now ≡ digits_of text.now }
{
    match text.split_first() {
        Some((b'+' | b'-', rest)) => rest,
        _ => text,
    }
}

fn is_minus(text: &[u8]) -> bool
    ensures { result ≡ is_minus text.now }
{
    match text.split_first() {
        Some((first, _)) => *first == b'-',
        None => false,
    }
}

fn is_integer(text: &[u8]) -> bool
    ensures { IsTrue result ↔ IsInteger text.now }
{
    let digits = digits_of(text);
    digits.len() > 0 && digits.iter().all(|b| b.is_ascii_digit())
}

fn without_zeros(digits: &[u8]) -> &[u8]
    ensures { result.now ≡ without_zeros digits.now }
{
    let mut rest = digits;
    while let Some((first, behind)) = rest.split_first() {
        if *first != b'0' {
            return rest;
        }
        rest = behind;
    }
    rest
}

fn number_text(alloc: Global, minus: bool, digits: &[u8]) -> Result<Vec<u8>, AllocError>
    ensures { IfOk result (λ v. v.items ≡ number_text minus digits.now) }
{
    let mut text = Vec::new(alloc);
    if digits.is_empty() {
        text.push(b'0')?;
        return Ok(text);
    }
    if minus {
        text.push(b'-')?;
    }
    text.extend_from_slice(digits)?;
    Ok(text)
}

/// The canonical text of an integer.
pub fn integer_text(alloc: Global, text: &[u8]) -> Result<Vec<u8>, TextFault>
    ensures { IsMade (IsInteger text.now) (integer_text text.now) (seen (λ v. v.items) result) }
{
    if !is_integer(text) {
        return Err(TextFault::BadLiteral);
    }
    match number_text(alloc, is_minus(text), without_zeros(digits_of(text))) {
        Ok(canonical) => Ok(canonical),
        Err(_) => Err(TextFault::OutOfMemory),
    }
}
