ghost use Rattle.std.specs.Prelude.{Contains, IfOk};
ghost use Rattle.dl_base.specs.Ontologies.{Knows};
ghost use Rattle.dl_base.specs.declared.statements.Fact as fact_type;
ghost use Rattle.loading.specs.Loading.{LoadsBoth};

use crate::opening::{Opened, load_over};
use crate::refusals::LoadRefusal;
use dl_text::ReadRefusal;
use owl_read::read_ontology;
use std::alloc::Global;

/// Opens an ontology's text with a file of N-Triples: its own assertions and behind them the facts of the file, repeats dropped, and how
/// many triples were skipped in both. Refused in this order: the ontology, as its reader says (`Ontology`); the file, as its reader says
/// (`Facts`); facts that contradict the axioms, `Alone` with the first that does so by itself, else `Pair` with the first two that do.
pub fn load(alloc: Global, ontology: &[u8], facts: &[u8]) -> Result<Opened, LoadRefusal>
    ensures loads { LoadsBoth ontology.now facts.now result }
    ensures known { IfOk result (λ it. (f : fact_type.Fact) → Contains it.facts.items f → Knows it.ontology f) }
{
    let read = match read_ontology(alloc, ontology) {
        Ok(read) => read,
        Err(ReadRefusal::OutOfMemory) => return Err(LoadRefusal::OutOfMemory),
        Err(refusal) => return Err(LoadRefusal::Ontology(refusal)),
    };
    load_over(
        alloc,
        read.ontology,
        read.facts.as_slice(),
        read.skipped,
        facts,
    )
}
