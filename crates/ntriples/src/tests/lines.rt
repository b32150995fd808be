use super::told;
use std::test::Fail;

const TYPED: &str = "<u:a> <http://www.w3.org/1999/02/22-rdf-syntax-ns#type> <u:C> .\n";

#[test]
fn triples_are_read(rt: HostRuntime) -> Result<(), Fail> {
    let alloc = rt.alloc();
    for (text, want) in [
        ("", "0"),
        ("<u:a> <u:p> <u:b> .", "<u:a> <u:p> <u:b> .\n0"),
        ("<u:a><u:p><u:b>.", "<u:a> <u:p> <u:b> .\n0"),
        (
            "\t <u:a>\t<u:p> \t<u:b> .\t# said",
            "<u:a> <u:p> <u:b> .\n0",
        ),
        (
            "# <u:a> .\n \t\n\n<u:a> <u:p> <u:b> .#",
            "<u:a> <u:p> <u:b> .\n0",
        ),
        (
            "<u:b> <u:p> <u:a> .\n<u:a> <u:p> <u:b> .\n<u:b> <u:p> <u:a> .\n",
            "<u:b> <u:p> <u:a> .\n<u:a> <u:p> <u:b> .\n0",
        ),
        (
            "<\\u0075:\\U00000061> <u:p> <u:b> .",
            "<u:a> <u:p> <u:b> .\n0",
        ),
        ("<u:é> <u:p> <u:\\u00E9> .", "<u:é> <u:p> <u:é> .\n0"),
    ] {
        assert_eq!(rt; told(alloc, text.as_bytes())?.as_str(), want);
    }
    assert_eq!(rt;
        told(alloc, TYPED.as_bytes())?.strip_suffix("0"),
        Some(TYPED)
    );
    Ok(())
}

#[test]
fn literals_are_read(rt: HostRuntime) -> Result<(), Fail> {
    let alloc = rt.alloc();
    for (object, want) in [
        ("\"x\"", "\"x\""),
        ("\"\"", "\"\""),
        ("\"x\"^^<http://www.w3.org/2001/XMLSchema#string>", "\"x\""),
        ("\"x\" ^^\t<u:d>", "\"x\"^^<u:d>"),
        (
            "\"+007\"^^<http://www.w3.org/2001/XMLSchema#integer>",
            "\"7\"^^<http://www.w3.org/2001/XMLSchema#integer>",
        ),
        (
            "\"-0\"^^<http://www.w3.org/2001/XMLSchema#integer>",
            "\"0\"^^<http://www.w3.org/2001/XMLSchema#integer>",
        ),
        (
            "\"1\"^^<http://www.w3.org/2001/XMLSchema#boolean>",
            "\"true\"^^<http://www.w3.org/2001/XMLSchema#boolean>",
        ),
        ("\"x\"@EN-x1", "\"x\"@en-x1"),
        ("\"x\" @en", "\"x\"@en"),
        (
            "\"x\"^^<http://www.w3.org/1999/02/22-rdf-syntax-ns#langString>",
            "\"x\"^^<http://www.w3.org/1999/02/22-rdf-syntax-ns#langString>",
        ),
        (
            "\"\\t\\b\\n\\r\\f\\\"\\'\\\\\"",
            "\"\t\u{8}\\n\\r\u{C}\\\"'\\\\\"",
        ),
        ("\"\\u0022\\U0001D11E\"", "\"\\\"\u{1D11E}\""),
        ("\"# . <\"", "\"# . <\""),
    ] {
        let text = format!(in alloc; "<u:a> <u:u> {} .", object)?;
        let want = format!(in alloc; "<u:a> <u:u> {} .\n0", want)?;
        assert_eq!(rt;
            told(alloc, text.as_str().as_bytes())?.as_str(),
            want.as_str()
        );
    }
    Ok(())
}

#[test]
fn annotations_are_skipped_and_counted(rt: HostRuntime) -> Result<(), Fail> {
    let alloc = rt.alloc();
    for (triple, want) in [
        ("<u:a> <u:n> <u:b>", "1"),
        ("<u:a> <u:n> \"x\"@en", "1"),
        (
            "<u:a> <http://www.w3.org/2000/01/rdf-schema#label> \"Ann\"",
            "1",
        ),
        (
            "<u:a> <http://www.w3.org/1999/02/22-rdf-syntax-ns#type> <http://www.w3.org/2002/07/owl#Thing>",
            "1",
        ),
        (
            "<u:a> <http://www.w3.org/1999/02/22-rdf-syntax-ns#type> <http://www.w3.org/2002/07/owl#NamedIndividual>",
            "1",
        ),
        ("_:a <u:n> <u:b>", "BlankNode 1"),
        ("<u:a> <u:n> _:b", "BlankNode 1"),
        (
            "<u:a> <u:n> \"x\"^^<http://www.w3.org/2001/XMLSchema#integer>",
            "BadLiteral 1",
        ),
        ("<u:a> <u:n> \"\\x\"", "BadEscape 1"),
    ] {
        let text = format!(in alloc; "{} .", triple)?;
        assert_eq!(rt; told(alloc, text.as_str().as_bytes())?.as_str(), want);
    }
    assert_eq!(rt;
        told(alloc, b"<u:a> <u:n> <u:b> .\n<u:a> <u:n> <u:b> .")?.as_str(),
        "2"
    );
    Ok(())
}
