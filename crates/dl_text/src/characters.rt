ghost use Rattle.std.specs.Prelude.{◌≡◌};
ghost use Rattle.dl_text.specs.Characters.{is_pn_base, is_pn_char};

/// Whether the character is a base letter of names: `PN_CHARS_BASE` of SPARQL 1.1.
pub fn is_pn_base(c: char) -> bool
    ensures { result ≡ is_pn_base c }
{
    matches!(
        c,
        'A'..='Z'
            | 'a'..='z'
            | '\u{C0}'..='\u{D6}'
            | '\u{D8}'..='\u{F6}'
            | '\u{F8}'..='\u{2FF}'
            | '\u{370}'..='\u{37D}'
            | '\u{37F}'..='\u{1FFF}'
            | '\u{200C}'..='\u{200D}'
            | '\u{2070}'..='\u{218F}'
            | '\u{2C00}'..='\u{2FEF}'
            | '\u{3001}'..='\u{D7FF}'
            | '\u{F900}'..='\u{FDCF}'
            | '\u{FDF0}'..='\u{FFFD}'
            | '\u{10000}'..='\u{EFFFF}'
    )
}

/// Whether the character may stand in a name: `PN_CHARS` of SPARQL 1.1.
pub fn is_pn_char(c: char) -> bool
    ensures { result ≡ is_pn_char c }
{
    is_pn_base(c)
        || matches!(
            c,
            '_' | '-' | '0'..='9' | '\u{B7}' | '\u{300}'..='\u{36F}' | '\u{203F}'..='\u{2040}'
        )
}
