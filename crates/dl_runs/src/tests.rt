use crate::{
    Class, after_comment, cut_label, cut_name, cut_prefix, cut_some, cut_tag, cut_text, is_blank,
    label_one, quoted_one, tag_one,
};
use std::test::*;

/// Whether the front and the rest are those before and behind the `|`; `none` is for no cut.
fn is_cut(found: Option<(&[u8], &[u8])>, want: &str) -> bool {
    match found {
        None => want == "none",
        Some((front, rest)) => match want.split_once("|") {
            None => false,
            Some((first, second)) => front == first.as_bytes() && rest == second.as_bytes(),
        },
    }
}

/// What stands behind an `@`, and the tag with what follows it.
const TAGS: [(&str, &str); 9] = [
    ("en", "en|"),
    ("EN-gb ", "EN-gb| "),
    ("zh-Hant-TW-1.", "zh-Hant-TW-1|."),
    ("en--x", "en|--x"),
    ("en-", "en|-"),
    ("e1", "e|1"),
    ("", "none"),
    ("1", "none"),
    ("\u{e9}", "none"),
];

/// What stands behind a `_:`, and the label with what follows it.
const LABELS: [(&str, &str); 9] = [
    ("b1 ", "b1| "),
    ("1", "1|"),
    ("_a-b\u{b7}:", "_a-b\u{b7}|:"),
    ("a.b.", "a.b|."),
    ("a...", "a|..."),
    ("\u{10000}x\u{f0000}", "\u{10000}x|\u{f0000}"),
    ("", "none"),
    ("-a", "none"),
    (".a", "none"),
];

/// Prefixes with their colon, and what follows it.
const PREFIXES: [(&str, &str); 9] = [
    (":", "|"),
    ("a:b:c", "a|b:c"),
    ("a.b-1:", "a.b-1|"),
    ("\u{e9}\u{300}:", "\u{e9}\u{300}|"),
    ("a.:b", "none"),
    ("1:b", "none"),
    ("_:b", "none"),
    ("ab", "none"),
    ("", "none"),
];

/// What stands behind a `"`, and the raw text with what follows the `"` that ends it.
const STRINGS: [(&str, &str); 8] = [
    ("\"", "|"),
    ("a\" \"", "a| \""),
    ("a\\\"b\"c", "a\\\"b|c"),
    ("\\\\\"", "\\\\|"),
    ("a\nb\"", "a\nb|"),
    ("\\u0022\"", "\\u0022|"),
    ("a\\\"", "none"),
    ("a\\", "none"),
];

#[test]
fn fronts(rt: HostRuntime) {
    for (text, want) in TAGS {
        assert!(rt; is_cut(cut_tag(text.as_bytes()), want), "{text}");
    }
    for (text, want) in LABELS {
        assert!(rt; is_cut(cut_label(text.as_bytes()), want), "{text}");
    }
    for (text, want) in PREFIXES {
        assert!(rt; is_cut(cut_prefix(text.as_bytes()), want), "{text}");
    }
    for (text, want) in STRINGS {
        assert!(rt; is_cut(cut_text(text.as_bytes()), want), "{text}");
    }
}

#[test]
fn words_and_variables(rt: HostRuntime) {
    assert!(rt; is_cut(cut_some(b"ab1", Class::Letter), "ab|1"));
    assert!(rt; is_cut(cut_some(b"12a", Class::Digit), "12|a"));
    assert!(rt; is_cut(cut_some(b"", Class::Digit), "none"));
    let variable = cut_name(b"1a-b", Class::LabelStart, Class::Variable);
    assert!(rt; is_cut(variable, "1a|-b"));
}

#[test]
fn comments_and_blanks(rt: HostRuntime) {
    assert!(rt; after_comment(b" a # b\r\nc") == b"\r\nc".as_slice());
    assert!(rt; after_comment(b"a\nb") == b"\nb".as_slice());
    assert!(rt; after_comment(b"a").is_empty());
    for byte in b" \t\r\n" {
        assert!(rt; is_blank(*byte));
    }
    for byte in b"\x00\x0b\x0c\x7fa" {
        assert!(rt; !is_blank(*byte));
    }
}

#[test]
fn laws_hold(_rt: HostRuntime) {
    quoted_one();
    tag_one();
    label_one();
}
