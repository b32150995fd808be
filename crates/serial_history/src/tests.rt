//! Entries of two editors, and facts that go and come.
use crate::log::Log;
use crate::marking::marked;
use dl_base::{Changes, Entry, Fact, Name, Ontology, OutOfMemory, Requests, Term, sorted_once};
use std::alloc::Global;
use std::sync::Arc;
use std::test::Fail;
use update_engine::Rules;

/// A log over the rules of an ontology without terms.
fn log(alloc: Global) -> Result<Log, Fail> {
    let ontology = Ontology::of(alloc, Vec::new(alloc), Vec::new(alloc))?;
    let rules = Rules::compile(alloc, &ontology)?;
    Ok(Log::new(alloc, Arc::new(alloc, rules)?))
}

/// One entry more of this editor, under the same rules.
fn add(alloc: Global, log: &mut Log, editor: u32, number: u64) -> Result<(), OutOfMemory> {
    let rules = Arc::try_clone(log.rules())?;
    let entry = Entry {
        editor,
        number,
        requests: Requests::of(Vec::new(alloc)),
        changed: Changes::of(Vec::new(alloc)),
        replaced: None,
    };
    match log.push(alloc, entry, rules) {
        Ok(()) => Ok(()),
        Err(_) => Err(OutOfMemory),
    }
}

// Editor 1 has two entries, editor 2 one, and editor 3 none.
#[test]
fn entries_are_counted_by_editor(rt: HostRuntime) -> Result<(), Fail> {
    let alloc = rt.alloc();
    let mut log = log(alloc)?;
    for (editor, number) in [(1, 0), (2, 0), (1, 1)] {
        add(alloc, &mut log, editor, number)?;
    }
    assert_eq!(rt; log.len(), 3);
    for (editor, count) in [(1, 2), (2, 1), (3, 0)] {
        assert_eq!(rt; log.count_of(editor), count, "editor {editor}");
    }
    let numbers = log.as_slice().iter().map(|entry| entry.number);
    assert!(rt; numbers.eq([0, 0, 1]));
    Ok(())
}

fn members(alloc: Global, names: &[&str]) -> Result<Vec<Fact>, OutOfMemory> {
    let mut facts = Vec::new(alloc);
    for name in names {
        facts.push(Fact::Class(Term(0), Name::of(alloc, name.as_bytes())?))?;
    }
    Ok(facts)
}

// Each list is put in order and marked.
#[test]
fn facts_are_marked_in_order(rt: HostRuntime) -> Result<(), Fail> {
    let alloc = rt.alloc();
    let gone = sorted_once(members(alloc, &["b", "a"])?)?;
    let come = members(alloc, &["d", "c", "d"])?;
    let left = marked(alloc, gone.as_slice(), &[])?;
    let entered = marked(alloc, &[], come.as_slice())?;
    assert_eq!(rt; left.as_slice().len(), 2);
    assert!(rt; left.as_slice().iter().all(|change| !change.added));
    assert_eq!(rt; entered.as_slice().len(), 2);
    assert!(rt; entered.as_slice().iter().all(|change| change.added));
    Ok(())
}
