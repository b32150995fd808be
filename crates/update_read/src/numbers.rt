ghost use Rattle.std.specs.Prelude.{◌≡◌, ℕ, List, MatchOption};
ghost use Rattle.dl_text.specs.Values.{digits_of};
ghost use Rattle.update_read.specs.Cutting.{begins_digit, begins_signed, begins_exponent, goes_on, IsNumber};

use dl_runs::{Class, cut_some};

fn begins_digit(bytes: &[u8]) -> bool
    ensures { result ≡ begins_digit bytes.now }
{
    match bytes.split_first() {
        None => false,
        Some((byte, _)) => byte.is_ascii_digit(),
    }
}

/// Whether an optional sign and a digit stand in front.
fn begins_signed(bytes: &[u8]) -> bool
    ensures { result ≡ begins_signed bytes.now }
{
    match bytes.split_first() {
        None => false,
        Some((byte, rest)) => {
            byte.is_ascii_digit() || ((*byte == b'+' || *byte == b'-') && begins_digit(rest))
        }
    }
}

/// Whether the exponent of a double stands in front.
fn begins_exponent(bytes: &[u8]) -> bool
    ensures { result ≡ begins_exponent bytes.now }
{
    match bytes.split_first() {
        None => false,
        Some((byte, rest)) => (*byte == b'e' || *byte == b'E') && begins_signed(rest),
    }
}

/// Whether the digits before the bytes begin a decimal or a double.
fn goes_on(bytes: &[u8]) -> bool
    ensures { result ≡ goes_on bytes.now }
{
    match bytes.split_first() {
        None => false,
        Some((byte, rest)) => {
            (*byte == b'.' && (begins_digit(rest) || begins_exponent(rest)))
                || begins_exponent(bytes)
        }
    }
}

/// What stands behind the sign in front, if there is one.
fn behind_sign(bytes: &[u8]) -> &[u8]
    ensures { result.now ≡ digits_of bytes.now }
{
    match bytes.split_first() {
        Some((b'+' | b'-', rest)) => rest,
        _ => bytes,
    }
}

/// The number in front, with its sign, and what stands behind it. None where no digit stands, or where a decimal or a double does.
pub fn cut_number(bytes: &[u8]) -> Option<(&[u8], &[u8])>
    ensures { MatchOption result ((text rest : List ℕ) → ¬ IsNumber bytes.now text rest) (λ cut. IsNumber bytes.now cut.0.now cut.1.now) }
{
    let Some((_digits, rest)) = cut_some(behind_sign(bytes), Class::Digit) else {
        return None;
    };
    if goes_on(rest) {
        return None;
    }
    Some(bytes.split_at(bytes.len() - rest.len()))
}
