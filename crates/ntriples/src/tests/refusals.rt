use super::told;
use std::test::Fail;

#[test]
fn lines_are_refused(rt: HostRuntime) -> Result<(), Fail> {
    let alloc = rt.alloc();
    for (text, want) in [
        ("<u:a", "Syntax 1"),
        ("<u:a> <u:p> <u:b>", "Syntax 1"),
        ("<u:a> <u:p> .", "Syntax 1"),
        ("<u:a> .", "Syntax 1"),
        (".", "Syntax 1"),
        ("<u:a> <u:p> <u:b> <u:c> .", "Syntax 1"),
        ("<u:a> <u:p> <u:b> . <u:a> <u:p> <u:b> .", "Syntax 1"),
        ("<u:a> <u:p> <u:b> . .", "Syntax 1"),
        ("<u:a> \"p\" <u:b> .", "Syntax 1"),
        ("\"a\" <u:p> <u:b> .", "Syntax 1"),
        ("<u:a> <u:u> \"x\"^<u:d> .", "Syntax 1"),
        ("<u:a> <u:u> \"x\"^^\"d\" .", "Syntax 1"),
        ("<u:a> <u:u> \"x\"@en@en .", "Syntax 1"),
        ("<u:a> <u:u> \"x\"@ .", "Syntax 1"),
        ("<u:a> <u:u> \"x\"@1 .", "Syntax 1"),
        ("<u:a> <u:u> \"x\"@en- .", "Syntax 1"),
        ("<u:a> <u:u> \"x\"^^<u:d>@en .", "Syntax 1"),
        ("<u:a> <u:u> \"x .", "Syntax 1"),
        ("<u:a> <u:u> \"x\\\" .", "Syntax 1"),
        ("<u:a> <u:u> \"x\ny\" .", "Syntax 1"),
        ("<u:a> <u:u> 7 .", "Syntax 1"),
        ("<u:a> a <u:C> .", "Syntax 1"),
        ("\u{FEFF}<u:a> <u:p> <u:b> .", "Syntax 1"),
        ("<a> <u:p> <u:b> .", "BadIri 1"),
        ("<u:a b> <u:p> <u:b> .", "BadIri 1"),
        ("<u:\\u0020> <u:p> <u:b> .", "BadIri 1"),
        ("<u:a> <u:u> \"x\"^^<d> .", "BadIri 1"),
        ("<u:\\t> <u:p> <u:b> .", "BadEscape 1"),
        ("<u:\\u00g0> <u:p> <u:b> .", "BadEscape 1"),
        ("<u:a> <u:u> \"\\uD834\" .", "BadEscape 1"),
        ("<u:a> <u:u> \"\\U00110000\" .", "BadEscape 1"),
        ("<u:a> <u:u> \"\\u002\" .", "BadEscape 1"),
    ] {
        assert_eq!(rt; told(alloc, text.as_bytes())?.as_str(), want);
    }
    Ok(())
}

#[test]
fn the_first_pass_of_the_first_line_decides(rt: HostRuntime) -> Result<(), Fail> {
    let alloc = rt.alloc();
    for (text, want) in [
        ("_:a <u:p> <u:b> .", "BlankNode 1"),
        ("<u:a> _:p <u:b> .", "BlankNode 1"),
        ("<u:a> <u:p> <u:b> _:c", "BlankNode 1"),
        ("_:a.b-1. <u:p> <u:b> .", "BlankNode 1"),
        ("_:1 <u:p> <a> .", "BadIri 1"),
        ("_: <u:p> <u:b> .", "Syntax 1"),
        ("_:-a <u:p> <u:b> .", "Syntax 1"),
        ("_:a:b <u:p> <u:b> .", "Syntax 1"),
        ("<u:a> . <u:\\t>", "BadEscape 1"),
        ("<u:a> <u:a> <u:b> . \"", "Syntax 1"),
        ("<u:a> <u:a> <u:b> .\n\"", "UnknownTerm 1"),
        ("<u:a> <u:p> <u:b> .\n<u:a> <u:a> <u:b> .", "UnknownTerm 2"),
        ("<u:a> <u:C> <u:b> .", "WrongKind 1"),
        ("<u:a> <u:p> \"b\" .", "WrongKind 1"),
        ("<u:a> <u:u> <u:b> .", "WrongKind 1"),
        (
            "<u:a> <http://www.w3.org/1999/02/22-rdf-syntax-ns#type> \"C\" .",
            "WrongKind 1",
        ),
        (
            "<u:a> <http://www.w3.org/1999/02/22-rdf-syntax-ns#type> <u:p> .",
            "WrongKind 1",
        ),
        (
            "<u:a> <http://www.w3.org/1999/02/22-rdf-syntax-ns#type> <u:D> .",
            "UnknownTerm 1",
        ),
        (
            "<u:a> <u:p> \"x\"^^<http://www.w3.org/2001/XMLSchema#integer> .",
            "BadLiteral 1",
        ),
        (
            "<u:a> <u:u> \"yes\"^^<http://www.w3.org/2001/XMLSchema#boolean> .",
            "BadLiteral 1",
        ),
    ] {
        assert_eq!(rt; told(alloc, text.as_bytes())?.as_str(), want);
    }
    Ok(())
}

#[test]
fn only_lf_counts_lines(rt: HostRuntime) -> Result<(), Fail> {
    let alloc = rt.alloc();
    for (text, want) in [
        ("\n\n.", "Syntax 3"),
        ("\r\r.", "Syntax 1"),
        ("\r\n\r\n.", "Syntax 3"),
        ("# said\r.", "Syntax 1"),
        ("# said\r\n.", "Syntax 2"),
        ("<u:a> <u:p>\r<u:b> .", "Syntax 1"),
        (
            "<u:a> <u:p> <u:b> .\r<u:a> <u:p> <u:b> .\r\n",
            "<u:a> <u:p> <u:b> .\n0",
        ),
        ("<u:a\n> <u:p> <u:b> .", "Syntax 1"),
    ] {
        assert_eq!(rt; told(alloc, text.as_bytes())?.as_str(), want);
    }
    Ok(())
}

#[test]
fn the_first_byte_that_is_no_text_comes_first(rt: HostRuntime) -> Result<(), Fail> {
    let alloc = rt.alloc();
    assert_eq!(rt;
        told(alloc, b".\n<u:a> <u:u> \"\xC3\" .")?.as_str(),
        "BadUtf8 2"
    );
    assert_eq!(rt; told(alloc, b"\xFF")?.as_str(), "BadUtf8 1");
    assert_eq!(rt;
        told(alloc, b"#\n#\r#\n\xED\xA0\x80")?.as_str(),
        "BadUtf8 3"
    );
    Ok(())
}

#[test]
fn lengths_are_limited(rt: HostRuntime) -> Result<(), Fail> {
    let alloc = rt.alloc();
    for (length, want) in [(4094, "BadLiteral 1"), (4095, "NameTooLong 1")] {
        let name = "a".repeat(alloc, length)?;
        let text = format!(in alloc;
            "<u:{}> <u:u> \"x\"^^<http://www.w3.org/2001/XMLSchema#integer> .",
            name.as_str()
        )?;
        assert_eq!(rt; told(alloc, text.as_str().as_bytes())?.as_str(), want);
    }
    for (length, want) in [(65_536, "WrongKind 1"), (65_537, "NameTooLong 1")] {
        let name = "a".repeat(alloc, length)?;
        let text = format!(in alloc; "<u:a> <u:p> \"{}\" .", name.as_str())?;
        assert_eq!(rt; told(alloc, text.as_str().as_bytes())?.as_str(), want);
    }
    Ok(())
}
