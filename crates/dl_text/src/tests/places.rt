use crate::{ReadKind, cut_at, is_pn_base, is_pn_char, line_at, utf8_fault};
use std::test::*;

const NAMES: &str = "BadUtf8 BadIri BadEscape BadLiteral NameTooLong UnknownPrefix Syntax TooDeep \
    NotDlLite Import TwoKinds FunctionalSpecialised TooManyTerms \
    BlankNode UnknownTerm WrongKind Variable OtherOperation TooManyFacts";

#[test]
fn kinds(rt: HostRuntime) {
    let kinds = [
        (ReadKind::BadUtf8, 1),
        (ReadKind::BadIri, 2),
        (ReadKind::BadEscape, 3),
        (ReadKind::BadLiteral, 4),
        (ReadKind::NameTooLong, 5),
        (ReadKind::UnknownPrefix, 6),
        (ReadKind::Syntax, 10),
        (ReadKind::TooDeep, 11),
        (ReadKind::NotDlLite, 12),
        (ReadKind::Import, 13),
        (ReadKind::TwoKinds, 14),
        (ReadKind::FunctionalSpecialised, 15),
        (ReadKind::TooManyTerms, 16),
        (ReadKind::BlankNode, 20),
        (ReadKind::UnknownTerm, 21),
        (ReadKind::WrongKind, 22),
        (ReadKind::Variable, 23),
        (ReadKind::OtherOperation, 24),
        (ReadKind::TooManyFacts, 25),
    ];
    for ((kind, number), name) in kinds.into_iter().zip(NAMES.split(' ')) {
        assert_eq!(rt; kind.number(), number);
        assert!(rt; kind.name() == name, "at {name}");
    }
}

/// The first and the last letter of each range.
const LETTERS: &str =
    "AZaz\u{C0}\u{D6}\u{D8}\u{F6}\u{F8}\u{2FF}\u{370}\u{37D}\u{37F}\u{1FFF}\u{200C}\u{200D}\u{2070}\u{218F}\
    \u{2C00}\u{2FEF}\u{3001}\u{D7FF}\u{F900}\u{FDCF}\u{FDF0}\u{FFFD}\u{10000}\u{EFFFF}";

/// The first and the last of each range of name characters that are no letters.
const FURTHER: &str = "_-09\u{B7}\u{300}\u{36F}\u{203F}\u{2040}";

/// What stands beside the ranges.
const OTHERS: &str =
    "@[`{/:.%+ \u{0}\u{B6}\u{B8}\u{BF}\u{D7}\u{F7}\u{37E}\u{2000}\u{200B}\u{200E}\u{203E}\u{2041}\u{206F}\u{2190}\
    \u{2BFF}\u{2FF0}\u{3000}\u{E000}\u{F8FF}\u{FDD0}\u{FDEF}\u{FFFE}\u{FFFF}\u{F0000}\u{10FFFF}";

#[test]
fn characters(rt: HostRuntime) {
    for c in LETTERS.chars() {
        assert!(rt; is_pn_base(c) && is_pn_char(c), "at {c}");
    }
    for c in FURTHER.chars() {
        assert!(rt; !is_pn_base(c) && is_pn_char(c), "at {c}");
    }
    for c in OTHERS.chars() {
        assert!(rt; !is_pn_base(c) && !is_pn_char(c), "at {c}");
    }
}

#[test]
fn utf8_faults(rt: HostRuntime) {
    assert!(rt; utf8_fault(b"").is_none());
    assert!(rt; utf8_fault(b"a\xc3\xa9\xe2\x82\xac\xf0\x9f\x98\x80").is_none());
    assert!(rt; utf8_fault(b"\xef\xbb\xbfa").is_none());
    assert!(rt; utf8_fault(b"ab\xff") == Some(2));
    assert!(rt; utf8_fault(b"a\xe2\x82") == Some(1));
    assert!(rt; utf8_fault(b"\xc0\x80") == Some(0));
    assert!(rt; utf8_fault(b"a\xed\xa0\x80") == Some(1));
    assert!(rt; utf8_fault(b"\xc3\xa9\xc3(") == Some(2));
}

#[test]
fn lines(rt: HostRuntime) {
    let text = b"a\rb\r\nc\n\nd";
    for (place, line) in [
        (0, 1),
        (2, 1),
        (4, 1),
        (5, 2),
        (6, 2),
        (7, 3),
        (8, 4),
        (9, 4),
    ] {
        assert_eq!(rt; line_at(text, place), line);
    }
    if let Some((front, rest)) = cut_at(b"ab>c>", b'>') {
        assert!(rt; front == b"ab".as_slice() && rest == b"c>".as_slice());
    }
    assert!(rt; cut_at(b"ab>c>", b'>').is_some());
    assert!(rt; cut_at(b"abc", b'>').is_none());
}
