use super::gives;
use crate::canonical_value;
use std::test::*;

/// Texts of `xsd:integer`, and their canonical texts.
const INTEGERS: &str = "0 | = 0
+0 | = 0
-0 | = 0
000 | = 0
7 | = 7
+7 | = 7
-7 | = -7
-0070 | = -70
+00123456789012345678901234567890 | = 123456789012345678901234567890
 | BadLiteral
+ | BadLiteral
- | BadLiteral
+-1 | BadLiteral
1.0 | BadLiteral
 1 | BadLiteral
1e3 | BadLiteral
0x1 | BadLiteral
\u{661} | BadLiteral";

/// Texts of `xsd:boolean`, and their canonical texts.
const BOOLEANS: &str = "true | = true
1 | = true
false | = false
0 | = false
True | BadLiteral
 | BadLiteral
01 | BadLiteral
true  | BadLiteral
-0 | BadLiteral";

/// Texts of a datatype without a rule.
const OTHERS: &str = "+01 | = +01
 | = 
TRUE | = TRUE";

#[test]
fn canonical_texts(rt: HostRuntime) {
    for (rows, datatype) in [
        (INTEGERS, "http://www.w3.org/2001/XMLSchema#integer"),
        (BOOLEANS, "http://www.w3.org/2001/XMLSchema#boolean"),
        (OTHERS, "http://www.w3.org/2001/XMLSchema#int"),
    ] {
        for row in rows.lines() {
            let Some((text, want)) = row.split_once(" | ") else {
                continue;
            };
            let answer = match canonical_value(
                rt.alloc(),
                text.as_bytes(),
                datatype.as_bytes(),
                b"",
            ) {
                Ok(value) => Ok(value.text),
                Err(fault) => Err(fault),
            };
            assert!(rt; gives(answer, want), "at {text} of {datatype}");
        }
    }
}

const STRING: &str = "http://www.w3.org/2001/XMLSchema#string";

const TAGGED: &str = "http://www.w3.org/1999/02/22-rdf-syntax-ns#langString";

#[test]
fn datatypes_and_tags(rt: HostRuntime) -> Result<(), Fail> {
    for (datatype, tag, whole, small) in [
        ("", "", STRING, ""),
        ("", "en-GB", TAGGED, "en-gb"),
        (STRING, "", STRING, ""),
        (TAGGED, "", TAGGED, ""),
        (TAGGED, "zh-Hant-TW", TAGGED, "zh-hant-tw"),
    ] {
        let value = canonical_value(rt.alloc(), b"+1 A", datatype.as_bytes(), tag.as_bytes())?;
        assert!(rt;
            value.datatype.as_slice() == whole.as_bytes(),
            "at {datatype} {tag}"
        );
        assert!(rt;
            value.tag.as_slice() == small.as_bytes(),
            "at {datatype} {tag}"
        );
        assert!(rt; value.text.as_slice() == b"+1 A".as_slice());
    }
    Ok(())
}
