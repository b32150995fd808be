use super::{school, told};
use std::test::Fail;

/// Bytes and tokens, which are refused before the grammar.
#[test]
fn a_bad_token_is_refused_first(rt: HostRuntime) -> Result<(), Fail> {
    let alloc = rt.alloc();
    let ontology = school(alloc)?;
    for (text, want) in [
        (b"SELECT\n?x \xff".as_slice(), "BadUtf8 2"),
        (b"\xEF\xBB\xBF".as_slice(), "Syntax 1"),
        (
            b"DELETE WHERE {\n?s ?p ?o FILTER(?o > 3) }".as_slice(),
            "Syntax 2",
        ),
        (b"INSERT DATA { <a> }".as_slice(), "BadIri 1"),
        (b"\n<http://a\nb>".as_slice(), "BadIri 2"),
        (b"\n<http://a\\x".as_slice(), "Syntax 2"),
        (b"<http://a\\x>".as_slice(), "BadEscape 1"),
        (b"<http://a\\u0020>".as_slice(), "BadIri 1"),
        (b"\n'a\nb'".as_slice(), "Syntax 2"),
        (b"'a\\\nb'".as_slice(), "Syntax 1"),
        (b"'''a\\\nb'''".as_slice(), "BadEscape 1"),
        (b"\"a\\qb\"".as_slice(), "BadEscape 1"),
        (b"\"\\uD800\"".as_slice(), "BadEscape 1"),
        (b"\n\"\"\"a\"\"".as_slice(), "Syntax 2"),
        (b"1.5".as_slice(), "Syntax 1"),
        (b"1e0 ".as_slice(), "Syntax 1"),
        (b"\n1.E+1".as_slice(), "Syntax 2"),
        (b"+ 1".as_slice(), "Syntax 1"),
        (b"^ ^".as_slice(), "Syntax 1"),
        (b"@1".as_slice(), "Syntax 1"),
        (b"? x".as_slice(), "Syntax 1"),
        (b"_: x".as_slice(), "Syntax 1"),
        (b":a\\x".as_slice(), "Syntax 1"),
        (b":a%4".as_slice(), "Syntax 1"),
        (b"# no line end \xC3\xA9\r\n=".as_slice(), "Syntax 2"),
        (b"INSERT INSERT\n\n= '\\q'".as_slice(), "Syntax 3"),
    ] {
        let answer = told(alloc, &ontology, text)?;
        assert_eq!(rt; answer.as_slice(), want.as_bytes());
    }
    Ok(())
}

/// The grammar: the first token with which no update goes on.
#[test]
fn the_first_token_out_of_place_is_refused(rt: HostRuntime) -> Result<(), Fail> {
    let alloc = rt.alloc();
    let ontology = school(alloc)?;
    for (text, want) in [
        ("SELECT", "OtherOperation 1"),
        ("\na", "OtherOperation 2"),
        ("TRUE", "OtherOperation 1"),
        ("INSERT\n{ }", "OtherOperation 1"),
        ("\nDELETE\n?x", "OtherOperation 2"),
        ("INSERT", "OtherOperation 1"),
        ("INSERT DATA\n", "Syntax 2"),
        (
            "INSERT DATA {\nGRAPH <http://u.example/g> { } }",
            "OtherOperation 2",
        ),
        ("INSERT DATA { WITH", "Syntax 1"),
        ("INSERT DATA { A", "Syntax 1"),
        ("INSERT DATA { <a:a>\nA <a:b> }", "Syntax 2"),
        ("INSERT DATA { ?x a <a:b> }", "Variable 1"),
        ("INSERT DATA { <a:a> $x <a:b> }", "Variable 1"),
        ("INSERT DATA { <a:a> a\n_:b.c }", "BlankNode 2"),
        ("INSERT DATA { [ a <a:b> ] }", "BlankNode 1"),
        ("INSERT DATA { <a:a> a ( ) }", "BlankNode 1"),
        ("?x", "Variable 1"),
        ("INSERT DATA { ]", "Syntax 1"),
        ("INSERT DATA { . }", "Syntax 1"),
        ("INSERT DATA { <a:a> a <a:b> . . }", "Syntax 1"),
        ("INSERT DATA { <a:a> ; a <a:b> }", "Syntax 1"),
        ("INSERT DATA { <a:a> a <a:b> , , <a:c> }", "Syntax 1"),
        ("INSERT DATA { <a:a> a <a:b>\n<a:c> a <a:b> }", "Syntax 2"),
        ("INSERT DATA { <a:a> a 5abc }", "Syntax 1"),
        ("INSERT DATA { <a:a> a .5 }", "Syntax 1"),
        ("INSERT DATA { } INSERT DATA { }", "Syntax 1"),
        ("INSERT DATA { } ; ;", "Syntax 1"),
        ("PREFIX a:b <a:b>", "Syntax 1"),
        ("PREFIX a:\n", "Syntax 2"),
        ("BASE a:", "Syntax 1"),
        ("INSERT DATA { \"a\" a <a:b> }", "Syntax 1"),
        ("INSERT DATA { <a:a> <a:b> \"x\" ^^ 'y' }", "Syntax 1"),
        ("INSERT DATA { <a:a> <a:b> 5 @en }", "Syntax 1"),
    ] {
        let answer = told(alloc, &ontology, text.as_bytes())?;
        assert_eq!(rt; answer.as_slice(), want.as_bytes());
    }
    Ok(())
}
