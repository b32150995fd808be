use super::{school, told};
use std::test::Fail;

/// The meaning: names and literal in the order of the text, then the triple as a whole at its object.
#[test]
fn the_first_triple_without_a_fact_is_refused(rt: HostRuntime) -> Result<(), Fail> {
    let alloc = rt.alloc();
    let ontology = school(alloc)?;
    for (triples, want) in [
        ("a :Dean", "UnknownTerm 1"),
        ("a\n:teaches", "WrongKind 2"),
        ("a \"Prof\"", "WrongKind 1"),
        (":knows\n:b", "UnknownTerm 2"),
        (":Prof :b", "WrongKind 1"),
        (":teaches 'b'", "WrongKind 1"),
        (":badge :b", "WrongKind 1"),
        (":badge\n\"7a\"\n^^\nx:integer", "BadLiteral 2"),
        (":note\n\"7a\"^^x:integer", "BadLiteral 2"),
        (":badge\n\"7a\"\n^^\ny:integer", "UnknownPrefix 4"),
        ("y:badge\n:b", "UnknownPrefix 1"),
        (":teaches <http://u.example/b> ,\ny:b", "UnknownPrefix 2"),
        (":teaches :a\\~b , :x\\%", "+2(a,a~b)+2(a,x%)"),
        ("a :Dean . ?x a :Prof", "Variable 1"),
    ] {
        let text = format!(in alloc;
            "PREFIX : <http://u.example/> PREFIX x: <http://www.w3.org/2001/XMLSchema#> INSERT DATA {{ :a {triples} }}"
        )?;
        let answer = told(alloc, &ontology, text.as_bytes())?;
        assert_eq!(rt; answer.as_slice(), want.as_bytes());
    }
    Ok(())
}

/// The same triple so many times, each on a line of its own.
fn repeated(alloc: std::alloc::Global, times: usize) -> Result<Vec<u8>, Fail> {
    let mut text = Vec::from_slice(alloc, b"PREFIX : <http://u.example/> INSERT DATA { :a a")?;
    for _ in 1..times {
        text.extend_from_slice(b"\n:Prof ,")?;
    }
    text.extend_from_slice(b"\n:Prof }")?;
    Ok(text)
}

#[test]
fn ten_thousand_triples_are_read_and_no_more(rt: HostRuntime) -> Result<(), Fail> {
    let alloc = rt.alloc();
    let ontology = school(alloc)?;
    for (times, want) in [(10_000, "+0(a)"), (10_001, "TooManyFacts 10002")] {
        let text = repeated(alloc, times)?;
        let answer = told(alloc, &ontology, text.as_slice())?;
        assert_eq!(rt; answer.as_slice(), want.as_bytes());
    }
    Ok(())
}
