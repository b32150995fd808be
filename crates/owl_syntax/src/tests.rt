use crate::{Document, Node, parse};
use dl_text::ReadRefusal;
use std::alloc::Global;
use std::test::Fail;

/// Writes the node, with its line behind a `'`.
fn show(alloc: Global, node: &Node<'_>, out: &mut Vec<u8>) -> Result<(), Fail> {
    match node {
        Node::Word { line, text, args } => {
            show_text(alloc, *line, [*text, b"", b""], out)?;
            out.push(b'(')?;
            for arg in args {
                show(alloc, arg, out)?;
            }
            out.push(b')')?;
        }
        Node::Group { line, args } => {
            mark(alloc, *line, out)?;
            out.push(b'(')?;
            for arg in args {
                show(alloc, arg, out)?;
            }
            out.push(b')')?;
        }
        Node::Iri { line, text } => show_text(alloc, *line, [b"<", *text, b">"], out)?,
        Node::Prefixed {
            line,
            prefix,
            local,
        } => show_text(alloc, *line, [*prefix, b":", *local], out)?,
        Node::Blank { line, label } => show_text(alloc, *line, [b"_:", *label, b""], out)?,
        Node::Digits { line, text } => show_text(alloc, *line, [*text, b"", b""], out)?,
        Node::Literal {
            line,
            text,
            tag,
            datatype,
        } => {
            show_text(alloc, *line, [b"\"", *text, b"\""], out)?;
            if !tag.is_empty() {
                out.push(b'@')?;
                out.extend_from_slice(tag)?;
            }
            if let Some(datatype) = datatype {
                out.extend_from_slice(b"^^")?;
                show(alloc, datatype, out)?;
            }
        }
    }
    Ok(())
}

/// Writes the texts, and then the line.
fn show_text(alloc: Global, line: u64, texts: [&[u8]; 3], out: &mut Vec<u8>) -> Result<(), Fail> {
    for text in texts {
        out.extend_from_slice(text)?;
    }
    mark(alloc, line, out)
}

fn mark(alloc: Global, line: u64, out: &mut Vec<u8>) -> Result<(), Fail> {
    let number = format!(in alloc; "'{line}")?;
    out.extend_from_slice(number.as_bytes())?;
    Ok(())
}

fn show_document(alloc: Global, document: &Document<'_>, out: &mut Vec<u8>) -> Result<(), Fail> {
    for prefix in &document.prefixes {
        mark(alloc, prefix.line, out)?;
        out.extend_from_slice(prefix.name.as_slice())?;
        out.push(b'=')?;
        out.extend_from_slice(prefix.iri.as_slice())?;
        out.push(b';')?;
    }
    show(alloc, &document.root, out)
}

/// The document of the text, or its refusal as `Kind LINE`.
fn told(alloc: Global, bytes: &[u8]) -> Result<Vec<u8>, Fail> {
    let mut out = Vec::new(alloc);
    match parse(alloc, bytes) {
        Ok(document) => show_document(alloc, &document, &mut out)?,
        Err(ReadRefusal::Refused { line, kind }) => {
            let text = format!(in alloc; "{} {}", kind.name(), line)?;
            out.extend_from_slice(text.as_bytes())?;
        }
        Err(ReadRefusal::OutOfMemory) => out.extend_from_slice(b"out of memory")?,
    }
    Ok(out)
}

/// A part so many times between two others.
fn built(
    alloc: Global,
    before: &[u8],
    part: &[u8],
    times: usize,
    after: &[u8],
) -> Result<Vec<u8>, Fail> {
    let mut text = Vec::from_slice(alloc, before)?;
    for _ in 0..times {
        text.extend_from_slice(part)?;
    }
    text.extend_from_slice(after)?;
    Ok(text)
}

/// What stands in the parentheses of one axiom, and its node or refusal.
const TOKENS: [(&str, &str); 57] = [
    ("", "Ontology'1(A'1())"),
    (":", "Ontology'1(A'1(:'1))"),
    ("a:", "Ontology'1(A'1(a:'1))"),
    (":a.b", "Ontology'1(A'1(:a.b'1))"),
    (":a.", "Syntax 1"),
    ("a:1", "Ontology'1(A'1(a:1'1))"),
    ("a:_x", "Ontology'1(A'1(a:_x'1))"),
    ("a::b:", "Ontology'1(A'1(a::b:'1))"),
    ("a:-b", "Syntax 1"),
    ("a.b:c", "Ontology'1(A'1(a.b:c'1))"),
    ("a.:c", "Syntax 1"),
    ("a-1:c", "Ontology'1(A'1(a-1:c'1))"),
    ("1a:c", "Ontology'1(A'1(1'1a:c'1))"),
    ("é:ü·", "Ontology'1(A'1(é:ü·'1))"),
    ("×:a", "Syntax 1"),
    (":a%41", "Syntax 1"),
    ("_:b1", "Ontology'1(A'1(_:b1'1))"),
    ("_:1", "Ontology'1(A'1(_:1'1))"),
    ("_:", "Syntax 1"),
    ("_:a.b", "Syntax 1"),
    ("_x", "Syntax 1"),
    ("12", "Ontology'1(A'1(12'1))"),
    ("-1", "Syntax 1"),
    ("<http://u/a#b>", "Ontology'1(A'1(<http://u/a#b>'1))"),
    ("<http://u/a b>", "BadIri 1"),
    ("<http://u/\\u0041>", "BadIri 1"),
    ("<http://u/\n>", "BadIri 1"),
    ("<a>", "BadIri 1"),
    ("\n<http://u/", "Syntax 2"),
    ("\"a#b\"", "Ontology'1(A'1(\"a#b\"'1))"),
    ("\"a\\\"b\\\\\"", "Ontology'1(A'1(\"a\\\"b\\\\\"'1))"),
    ("\"a\\n\"", "BadEscape 1"),
    ("\"a\\\n\"", "BadEscape 1"),
    ("\n\"a\n", "Syntax 2"),
    ("\"a\\\"", "Syntax 1"),
    ("\"a\nb\r\n\":c", "Ontology'1(A'1(\"a\nb\r\n\"'1:c'3))"),
    ("\"a\"@en-GB-1", "Ontology'1(A'1(\"a\"'1@en-GB-1))"),
    ("\"a\" @en", "Ontology'1(A'1(\"a\"'1@en))"),
    ("\"a\"@en-", "Syntax 1"),
    ("\"a\"@1", "Syntax 1"),
    ("\"a\"^^:t", "Ontology'1(A'1(\"a\"'1^^:t'1))"),
    (
        "\"a\"\n^^\n<http://t>",
        "Ontology'1(A'1(\"a\"'1^^<http://t>'3))",
    ),
    ("\"a\"^^\"b\"", "Syntax 1"),
    ("\"a\"^ ^:t", "Syntax 1"),
    ("\"a\"@en^^:t", "Syntax 1"),
    ("\"a\"\"b\"", "Ontology'1(A'1(\"a\"'1\"b\"'1))"),
    ("@en", "Syntax 1"),
    ("^^", "Syntax 1"),
    ("=", "Syntax 1"),
    ("(:a)()", "Ontology'1(A'1('1(:a'1)'1()))"),
    ("B(:a)", "Ontology'1(A'1(B'1(:a'1)))"),
    ("B\n(\n:a)", "Ontology'1(A'1(B'1(:a'3)))"),
    ("B", "Syntax 1"),
    ("B :a", "Syntax 1"),
    ("# )\n:a", "Ontology'1(A'1(:a'2))"),
    ("# )\r:a", "Ontology'1(A'1(:a'1))"),
    ("# )\r\n:a", "Ontology'1(A'1(:a'2))"),
];

#[test]
fn tokens(rt: HostRuntime) -> Result<(), Fail> {
    for (inside, want) in TOKENS {
        let text = built(rt.alloc(), b"Ontology(A(", inside.as_bytes(), 1, b"))")?;
        let found = told(rt.alloc(), text.as_slice())?;
        assert!(rt; found.as_slice() == want.as_bytes(), "{inside}");
    }
    Ok(())
}

/// Documents and what they are read as.
const DOCUMENTS: [(&str, &str); 35] = [
    ("", "Syntax 1"),
    ("\n# x\n", "Syntax 3"),
    ("Ontology()", "Ontology'1()"),
    ("ontology()", "Syntax 1"),
    ("Ontology\n", "Syntax 2"),
    ("Ontology(\n", "Syntax 2"),
    ("Ontology(:a)", "Ontology'1(:a'1)"),
    ("Ontology(<http://a> :b)", "Ontology'1(<http://a>'1:b'1)"),
    ("Ontology(:a :b\n:c)", "Syntax 2"),
    ("Ontology(A()\n:c)", "Syntax 2"),
    ("Ontology(_:a)", "Syntax 1"),
    ("Ontology(\n1)", "Syntax 2"),
    ("Ontology(\n\"a\")", "Syntax 2"),
    ("Ontology(\n(A()))", "Syntax 2"),
    ("Ontology()\n.", "Syntax 2"),
    ("Ontology()\nA()", "Syntax 2"),
    ("Ontology())", "Syntax 1"),
    (
        "Ontology(Import(:a)Annotation(:b)A()B())",
        "Ontology'1(Import'1(:a'1)Annotation'1(:b'1)A'1()B'1())",
    ),
    (
        "Ontology(Import(:a)Import(:b))",
        "Ontology'1(Import'1(:a'1)Import'1(:b'1))",
    ),
    ("Ontology(Annotation(:b)\nImport(:a))", "Syntax 2"),
    ("Ontology(A()\nAnnotation(:b))", "Syntax 2"),
    ("Ontology(A()\nImport(:b))", "Syntax 2"),
    ("Ontology(A(Import(:b)))", "Ontology'1(A'1(Import'1(:b'1)))"),
    (
        "Prefix(a:=<http://a/>)\nPrefix( : =\n<http://b/> )Ontology(a:)",
        "'1a=http://a/;'2=http://b/;Ontology'3(a:'3)",
    ),
    (
        "Prefix(a:=<http://a/>)\nPrefix(\na:=<http://b/>)\nOntology()",
        "Syntax 3",
    ),
    ("Prefix(a:b=<http://a/>)Ontology()", "Syntax 1"),
    ("Prefix(a:=:b)Ontology()", "Syntax 1"),
    ("Prefix(<http://a/>)Ontology()", "Syntax 1"),
    ("Prefix(a:=<http://a/>)\n", "Syntax 2"),
    ("Ontology()\nPrefix(a:=<http://a/>)", "Syntax 2"),
    (")\n<http://a b>", "BadIri 2"),
    (")\n\"\\t\"", "BadEscape 2"),
    (")\n%", "Syntax 2"),
    (")\n:a", "Syntax 1"),
    ("\u{feff}Ontology()", "Syntax 1"),
];

#[test]
fn documents(rt: HostRuntime) -> Result<(), Fail> {
    for (text, want) in DOCUMENTS {
        let found = told(rt.alloc(), text.as_bytes())?;
        assert!(rt; found.as_slice() == want.as_bytes(), "{text}");
    }
    Ok(())
}

/// Before, a part, how often, after, and the refusal, if there is one.
const SIZES: [(&str, &str, usize, &str, &str); 9] = [
    ("Ontology(<http:", "a", 4091, ">)", ""),
    ("Ontology(<http:", "a", 4092, ">)", "NameTooLong 1"),
    ("Ontology(A(\"", "a", 65536, "\"))", ""),
    ("Ontology(A(\n\"", "a", 65537, "\"))", "NameTooLong 2"),
    ("Ontology(A(\"", "\\\\", 65536, "\"))", ""),
    ("Ontology(A(\"", "\\\\", 65537, "\"))", "NameTooLong 1"),
    ("Ontology(", "A\n(", 15, "))))))))))))))))", ""),
    ("Ontology(", "A\n(", 16, ")))))))))))))))))", "TooDeep 17"),
    ("Ontology(A", "(", 16, ")))))))))))))))))", "TooDeep 1"),
];

#[test]
fn sizes(rt: HostRuntime) -> Result<(), Fail> {
    for (before, part, times, after, want) in SIZES {
        let text = built(
            rt.alloc(),
            before.as_bytes(),
            part.as_bytes(),
            times,
            after.as_bytes(),
        )?;
        let found = told(rt.alloc(), text.as_slice())?;
        if want.is_empty() {
            assert!(rt;
                found.as_slice().starts_with(b"Ontology'1("),
                "{before} {times}"
            );
        } else {
            assert!(rt; found.as_slice() == want.as_bytes(), "{before} {times}");
        }
    }
    Ok(())
}

#[test]
fn bytes(rt: HostRuntime) -> Result<(), Fail> {
    let found = told(rt.alloc(), b"<a b>\n\n\xff")?;
    assert!(rt; found.as_slice() == b"BadUtf8 3".as_slice());
    let cut_short = told(rt.alloc(), b"Ontology(A(\"\xe2\x82\"))")?;
    assert!(rt; cut_short.as_slice() == b"BadUtf8 1".as_slice());
    Ok(())
}

const CLUB: &str = "Prefix(owl:=<http://www.w3.org/2002/07/owl#>)
Prefix(:=<http://club.example/>)

Ontology(<http://club.example/onto>
<http://club.example/onto/2>

Import(<http://other.example/>)
Annotation(rdfs:comment \"The club, \\\"as it is\\\"\"@en)

Declaration(Class(:Member))
############################
#   Object Properties
############################

# Object Property: :memberOf (member of)
AnnotationAssertion(rdfs:label :memberOf \"member of\"^^xsd:string)
SubClassOf(Annotation(rdfs:comment \"why\") :Member ObjectSomeValuesFrom(:memberOf owl:Thing))
HasKey(:Member () (:number))
ObjectMaxCardinality(1 :memberOf)
)";

const CLUB_TREE: &str = "'1owl=http://www.w3.org/2002/07/owl#;'2=http://club.example/;\
Ontology'4(<http://club.example/onto>'4<http://club.example/onto/2>'5Import'7(<http://other.example/>'7)\
Annotation'8(rdfs:comment'8\"The club, \\\"as it is\\\"\"'8@en)Declaration'10(Class'10(:Member'10))\
AnnotationAssertion'16(rdfs:label'16:memberOf'16\"member of\"'16^^xsd:string'16)\
SubClassOf'17(Annotation'17(rdfs:comment'17\"why\"'17):Member'17ObjectSomeValuesFrom'17(:memberOf'17owl:Thing'17))\
HasKey'18(:Member'18'18()'18(:number'18))ObjectMaxCardinality'19(1'19:memberOf'19))";

#[test]
fn whole_document(rt: HostRuntime) -> Result<(), Fail> {
    let found = told(rt.alloc(), CLUB.as_bytes())?;
    assert!(rt; found.as_slice() == CLUB_TREE.as_bytes());
    Ok(())
}
