use super::{school, told};
use std::test::Fail;

/// Whole updates, and what they insert and delete.
#[test]
fn each_form_is_read(rt: HostRuntime) -> Result<(), Fail> {
    let alloc = rt.alloc();
    let ontology = school(alloc)?;
    for (text, want) in [
        ("", ""),
        (" # nothing\r\n", ""),
        ("INSERT DATA {}", ""),
        ("insert Data { } ; Delete DATA { . }", "Syntax 1"),
        (
            "INSERT DATA { <http://u.example/ann> a <http://u.example/Prof> }",
            "+0(ann)",
        ),
        ("PREFIX : <http://u.example/>", ""),
        (
            "prefix : <http://u.example/> inSERT dATA{:a a :Prof}",
            "+0(a)",
        ),
        (
            "PREFIX u: <http://u.example/>\nBASE <http://b.example/>\nINSERT DATA { u:a u:teaches u:b, u:c ; a u:Prof }",
            "+2(a,b)+2(a,c)+0(a)",
        ),
        (
            "PREFIX : <http://u.example/> INSERT DATA { :a :teaches :b ;; a :Prof; . :b a :Student ; ;. }",
            "+2(a,b)+0(a)+1(b)",
        ),
        (
            "PREFIX : <http://u.example/> DELETE DATA { :a a :Prof } ; INSERT DATA { :b a :Prof . :b a :Prof } ; PREFIX : <http://u.example/x> DELETE DATA { :a <http://u.example/teaches> :b } ;",
            "+0(b)-0(a)-2(xa,xb)",
        ),
        (
            "PREFIX : <http://u.example/> DELETE DATA { :a a :Prof. :a a :Prof }; INSERT DATA { :a a :Prof }",
            "+0(a)-0(a)",
        ),
        (
            "PREFIX : <http://u.example/> INSERT DATA { :a :note 5 , <http://x.example/> . :a a <http://www.w3.org/2002/07/owl#Thing> . :a <http://www.w3.org/2000/01/rdf-schema#label> 'A' , 'A' }",
            "~5",
        ),
    ] {
        let answer = told(alloc, &ontology, text.as_bytes())?;
        assert_eq!(rt; answer.as_slice(), want.as_bytes());
    }
    Ok(())
}

/// Objects: names, strings, numbers and truth values.
#[test]
fn each_object_is_read(rt: HostRuntime) -> Result<(), Fail> {
    let alloc = rt.alloc();
    let ontology = school(alloc)?;
    for (object, want) in [
        (":badge 7", "+3(a,7^integer)"),
        (
            ":badge +007 , -0 , -12",
            "+3(a,7^integer)+3(a,0^integer)+3(a,-12^integer)",
        ),
        (":badge 5.", "+3(a,5^integer)"),
        (
            ":badge true , FALSE",
            "+3(a,true^boolean)+3(a,false^boolean)",
        ),
        (":badge \"x\"", "+3(a,x^string)"),
        (":badge 'x' , ''", "+3(a,x^string)+3(a,^string)"),
        (":badge '''it's ''x''''", "Syntax 1"),
        (":badge '''it's ''x'''", "+3(a,it's ''x^string)"),
        (":badge \"\"\"a\nb\"\"\"", "+3(a,a\nb^string)"),
        (
            ":badge \"a\\tb\\u0022\\U0001F600\"",
            "+3(a,a\tb\"\u{1F600}^string)",
        ),
        (":badge \"x\" @EN-gb", "+3(a,x@en-gb)"),
        (
            ":badge \"+01\" ^^ <http://www.w3.org/2001/XMLSchema#integer>",
            "+3(a,1^integer)",
        ),
        (":badge \"1\"^^x:boolean", "+3(a,true^boolean)"),
        (":badge \"1.50\"^^x:decimal", "+3(a,1.50^decimal)"),
        (
            ":teaches :b\\-c , :%41 , :c.d , :e:f , <http://u.example/\\u0041>",
            "+2(a,b-c)+2(a,%41)+2(a,c.d)+2(a,e:f)+2(a,A)",
        ),
        (":teaches :b.", "+2(a,b)"),
        (":teaches :", "+2(a,)"),
    ] {
        let text = format!(in alloc;
            "PREFIX : <http://u.example/> PREFIX x: <http://www.w3.org/2001/XMLSchema#> INSERT DATA {{ :a {object} }}"
        )?;
        let answer = told(alloc, &ontology, text.as_bytes())?;
        assert_eq!(rt; answer.as_slice(), want.as_bytes());
    }
    Ok(())
}
