ghost use Rattle.std.specs.Prelude.{◌≡◌, ◌↔◌, IsTrue};
ghost use Rattle.dl_text.specs.Iris.{is_iri_byte, is_scheme_byte, HasScheme, IsAbsolute, IsIri};

pub fn is_iri_byte(b: u8) -> bool
    ensures { result ≡ is_iri_byte b }
{
    b > b' '
        && !matches!(
            b,
            b'<' | b'>' | b'"' | b'{' | b'}' | b'|' | b'^' | b'`' | b'\\'
        )
}

fn is_scheme_byte(b: u8) -> bool
    ensures { result ≡ is_scheme_byte b }
{
    b.is_ascii_alphanumeric() || matches!(b, b'+' | b'-' | b'.')
}

fn is_absolute(bytes: &[u8]) -> bool
    ensures { IsTrue result ↔ IsAbsolute bytes.now }
{
    match bytes.split_first() {
        None => false,
        Some((first, rest)) => first.is_ascii_alphabetic() && has_scheme(rest),
    }
}

/// Whether the bytes are scheme bytes up to the first colon, which is there.
fn has_scheme(bytes: &[u8]) -> bool
    ensures { IsTrue result ↔ HasScheme bytes.now }
{
    for b in bytes {
        if *b == b':' {
            return true;
        }
        if !is_scheme_byte(*b) {
            return false;
        }
    }
    false
}

pub fn is_iri(bytes: &[u8]) -> bool
    ensures { IsTrue result ↔ IsIri bytes.now }
{
    is_absolute(bytes) && bytes.iter().all(|b| is_iri_byte(*b))
}
