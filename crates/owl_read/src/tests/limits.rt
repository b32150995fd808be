use super::{document, outcome};
use std::alloc::Global;
use std::test::Fail;

/// A document that declares so many classes, one on a line.
fn classes(alloc: Global, count: u32) -> Result<Vec<u8>, Fail> {
    let mut inside = String::new(alloc);
    for number in 0..count {
        let line = format!(in alloc; "Declaration(Class(:c{number}))\n")?;
        inside.push_str(line.as_str())?;
    }
    document(alloc, inside.as_str())
}

#[test]
fn there_are_at_most_4000_terms(rt: HostRuntime) -> Result<(), Fail> {
    let alloc = rt.alloc();
    for (count, want) in [(4000, "ok"), (4001, "TooManyTerms 4002")] {
        let text = classes(alloc, count)?;
        let got = outcome(alloc, text.as_slice())?;
        assert_eq!(rt; got.as_str(), want);
    }
    Ok(())
}
