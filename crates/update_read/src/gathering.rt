ghost use Rattle.std.specs.Prelude.{◌≡◌, ◌<◌, [], IfOk};
ghost use Rattle.update_read.specs.Taking.{IsPut, IsGathered, TakesMore, GathersMore};

use crate::lists::{Gathered, Lists};
use crate::meaning::{object_line, said_by};
use crate::syntax::{Operation, SpelledObject, Stem};
use dl_base::{Ontology, OutOfMemory};
use dl_text::{NamePool, Prefixes, ReadKind, ReadRefusal};
use std::alloc::Global;
use triples::Said;

/// How many triples an update may have, skipped and repeated ones among them.
const MOST_TRIPLES: usize = 10_000;

impl Lists {
    pub fn new(alloc: Global) -> Lists
        ensures inserts { result.inserts.items ≡ [] }
        ensures deletes { result.deletes.items ≡ [] }
        ensures skipped { result.skipped ≡ 0 }
        ensures triples { result.triples ≡ 0 }
    {
        Lists {
            inserts: Vec::new(alloc),
            deletes: Vec::new(alloc),
            skipped: 0,
            triples: 0,
        }
    }

    /// With what one triple more says.
    fn put(self, operation: Operation, said: Said) -> Result<Lists, OutOfMemory>
        requires { self.triples < 10000 }
        ensures { IfOk result (IsPut self operation said) }
    {
        let Lists {
            mut inserts,
            mut deletes,
            mut skipped,
            triples,
        } = self;
        match said {
            Said::Skipped => skipped += 1,
            Said::Fact(fact) => match operation {
                Operation::Insert => inserts.push(fact)?,
                Operation::Delete => deletes.push(fact)?,
            },
        }
        Ok(Lists {
            inserts,
            deletes,
            skipped,
            triples: triples + 1,
        })
    }

    /// One triple more: `TooManyFacts` at its object, then its own refusals.
    fn take(
        self,
        alloc: Global,
        pool: &mut NamePool,
        ontology: &Ontology,
        prefixes: &Prefixes,
        stem: &Stem,
        object: &SpelledObject,
    ) -> Result<Gathered, OutOfMemory>
        ensures { TakesMore ontology.now self (record { bindings = prefixes.now; stem = stem.now; object = object.now }) result }
    {
        if self.triples >= MOST_TRIPLES {
            return Ok(Gathered::Refused {
                line: object_line(object),
                kind: ReadKind::TooManyFacts,
            });
        }
        match said_by(alloc, pool, ontology, prefixes, stem, object) {
            Ok(said) => Ok(Gathered::Going(self.put(stem.operation, said)?)),
            Err(ReadRefusal::Refused { line, kind }) => Ok(Gathered::Refused { line, kind }),
            Err(ReadRefusal::OutOfMemory) => Err(OutOfMemory),
        }
    }
}

impl Gathered {
    /// One triple more, which counts only where none was refused before.
    pub fn take(
        self,
        alloc: Global,
        pool: &mut NamePool,
        ontology: &Ontology,
        prefixes: &Prefixes,
        stem: &Stem,
        object: &SpelledObject,
    ) -> Result<Gathered, OutOfMemory>
        ensures { GathersMore ontology.now self (record { bindings = prefixes.now; stem = stem.now; object = object.now }) result }
    {
        match self {
            Gathered::Going(lists) => lists.take(alloc, pool, ontology, prefixes, stem, object),
            Gathered::Refused { line, kind } => Ok(Gathered::Refused { line, kind }),
        }
    }
}
