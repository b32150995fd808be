ghost use Rattle.std.specs.Prelude.{◌≡◌, ◌⊎◌, ◌∷◌, [], ◌↔◌, ℕ, List, MatchOption, IsTrue};
ghost use Rattle.update_read.specs.Cutting.{EndsAt, MayStand, InText, IsQuoted, BeginsTwo, IsString};

use dl_runs::behind_byte;

/// How many quotes a string has at either end.
#[derive(Clone, Copy, Debug, PartialEq, Eq)]
pub enum Quotes {
    One,
    Three,
}

/// What stands behind two quotes in front.
fn behind_two(bytes: &[u8], quote: u8) -> Option<&[u8]>
    ensures { MatchOption result (¬ BeginsTwo quote bytes.now) (λ after. bytes.now ≡ quote ∷ quote ∷ after.now) }
{
    match behind_byte(bytes, quote) {
        None => None,
        Some(after) => behind_byte(after, quote),
    }
}

/// What stands behind the quotes that end a string.
fn behind_end(here: &[u8], quote: u8, kind: Quotes) -> Option<&[u8]>
    ensures { MatchOption result ((rest : List ℕ) → ¬ EndsAt quote kind here.now rest) (λ rest. EndsAt quote kind here.now rest.now) }
{
    let Some(after) = behind_byte(here, quote) else {
        return None;
    };
    match kind {
        Quotes::One => Some(after),
        Quotes::Three => behind_two(after, quote),
    }
}

/// Whether the byte may stand in such a string.
fn may_stand(kind: Quotes, byte: u8) -> bool
    ensures { IsTrue result ↔ MayStand kind byte }
{
    match kind {
        Quotes::One => byte != b'\r' && byte != b'\n',
        Quotes::Three => true,
    }
}

/// What stands behind a backslash and the byte behind it.
fn behind_pair(after: &[u8], kind: Quotes) -> Option<&[u8]>
    ensures { MatchOption result ((e : ℕ) (m : List ℕ) → MayStand kind e → ¬ (after.now ≡ e ∷ m)) (λ rest. (e : ℕ) × MayStand kind e × (after.now ≡ e ∷ rest.now)) }
{
    match after.split_first() {
        None => None,
        Some((byte, rest)) => {
            if may_stand(kind, *byte) {
                Some(rest)
            } else {
                None
            }
        }
    }
}

/// What stands behind one piece inside a string that doesn't end here.
fn behind_piece(here: &[u8], quote: u8, kind: Quotes) -> Option<&[u8]>
    requires { (rest : List ℕ) → ¬ EndsAt quote kind here.now rest }
    ensures { MatchOption result ((out m : List ℕ) → ¬ InText quote kind here.now out m) (λ rest. (out : List ℕ) × InText quote kind here.now out rest.now) }
{
    let Some((byte, rest)) = here.split_first() else {
        return None;
    };
    if *byte == b'\\' {
        return behind_pair(rest, kind);
    }
    if may_stand(kind, *byte) {
        Some(rest)
    } else {
        None
    }
}

/// The text up to the quotes that end it, and what stands behind them.
fn cut_quoted(after: &[u8], quote: u8, kind: Quotes) -> Option<(&[u8], &[u8])>
    requires { (quote ≡ 34) ⊎ (quote ≡ 39) }
    ensures { MatchOption result ((inner rest : List ℕ) → ¬ IsQuoted quote kind after.now inner rest) (λ cut. IsQuoted quote kind after.now cut.0.now cut.1.now) }
{
    let mut here = after;
    loop {
        if let Some(rest) = behind_end(here, quote, kind) {
            return Some((&after[..after.len() - here.len()], rest));
        }
        let Some(behind) = behind_piece(here, quote, kind) else {
            return None;
        };
        here = behind;
    }
}

/// The string behind its first quote, and what stands behind it.
pub fn cut_string(after: &[u8], quote: u8) -> Option<(&[u8], &[u8])>
    requires { (quote ≡ 34) ⊎ (quote ≡ 39) }
    ensures { MatchOption result ((inner rest : List ℕ) → ¬ IsString quote after.now inner rest) (λ cut. IsString quote after.now cut.0.now cut.1.now) }
{
    match behind_two(after, quote) {
        Some(long) => cut_quoted(long, quote, Quotes::Three),
        None => cut_quoted(after, quote, Quotes::One),
    }
}
