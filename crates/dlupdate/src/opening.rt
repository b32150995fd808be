ghost use Rattle.std.specs.Prelude.{◌≡◌, ◌≤◌, IfOk, IfErr, IfSome, Some, None};
ghost use Rattle.std.specs.Option.{option_copied};
ghost use Rattle.dl_io.specs.Causes.{Rose};
ghost use Rattle.dlupdate.specs.Opening.{IsBase, IsContradicted, IsUnloaded};
ghost use Rattle.dlupdate.specs.Runs.{Opens, Unopened, IsStopped, StopsOnly};

use crate::files::{FACTS_LIMIT, ontology_in, read_file, refused_file};
use crate::reports::{Report, Stop};
use crate::texts::contradiction_text;
use dl_base::Ontology;
use dl_io::Files;
use loading::{LoadRefusal, Opened, load_over, open};
use std::alloc::Global;

/// Opens the assertions of an ontology's file, and with them the facts of another file, where one is named.
pub fn opened<F: Files>(
    alloc: Global,
    files: &mut F,
    ontology: &str,
    facts: Option<&str>,
) -> Result<Opened, Stop>
    ensures ok { IfOk result (λ it. IfSome (F.contents files.old) (λ c. Opens c ontology.now (option_copied facts.entry) it.ontology it.facts.items it.skipped)) }
    ensures base { IfOk result IsBase }
    ensures stopped { IfErr result (IsStopped (F.contents files.old) (λ c. Unopened c ontology.now (option_copied facts.entry))) }
    ensures failed { IfErr result (StopsOnly (Rose (F.faults files.old) (F.faults files.new))) }
    ensures later { F.faults files.old ≤ F.faults files.new }
{
    match facts {
        None => opened_alone(alloc, files, ontology),
        Some(name) => opened_with(alloc, files, ontology, name),
    }
}

/// Opens the assertions of an ontology's file.
pub fn opened_alone<F: Files>(alloc: Global, files: &mut F, ontology: &str) -> Result<Opened, Stop>
    ensures ok { IfOk result (λ it. IfSome (F.contents files.old) (λ c. Opens c ontology.now None it.ontology it.facts.items it.skipped)) }
    ensures base { IfOk result IsBase }
    ensures stopped { IfErr result (IsStopped (F.contents files.old) (λ c. Unopened c ontology.now None)) }
    ensures failed { IfErr result (StopsOnly (Rose (F.faults files.old) (F.faults files.new))) }
    ensures same { F.contents files.new ≡ F.contents files.old }
    ensures later { F.faults files.old ≤ F.faults files.new }
{
    let read = match ontology_in(alloc, files, ontology) {
        Ok(read) => read,
        Err(stop) => return Err(stop),
    };
    let kept = read.ontology.copy(alloc)?;
    match open(alloc, read.ontology, read.facts, read.skipped) {
        Ok(it) => Ok(it),
        Err(refusal) => Err(contradicting(alloc, &kept, &refusal)),
    }
}

/// Opens the assertions of an ontology's file with the facts of another file.
pub fn opened_with<F: Files>(
    alloc: Global,
    files: &mut F,
    ontology: &str,
    facts: &str,
) -> Result<Opened, Stop>
    ensures ok { IfOk result (λ it. IfSome (F.contents files.old) (λ c. Opens c ontology.now (Some facts.now) it.ontology it.facts.items it.skipped)) }
    ensures base { IfOk result IsBase }
    ensures stopped { IfErr result (IsStopped (F.contents files.old) (λ c. Unopened c ontology.now (Some facts.now))) }
    ensures failed { IfErr result (StopsOnly (Rose (F.faults files.old) (F.faults files.new))) }
    ensures same { F.contents files.new ≡ F.contents files.old }
    ensures later { F.faults files.old ≤ F.faults files.new }
{
    let read = match ontology_in(alloc, files, ontology) {
        Ok(read) => read,
        Err(stop) => return Err(stop),
    };
    let bytes = match read_file(alloc, files, facts, FACTS_LIMIT) {
        Ok(bytes) => bytes,
        Err(stop) => return Err(stop),
    };
    let kept = read.ontology.copy(alloc)?;
    match load_over(
        alloc,
        read.ontology,
        read.facts.as_slice(),
        read.skipped,
        bytes.as_slice(),
    ) {
        Ok(it) => Ok(it),
        Err(refusal) => Err(unloaded(alloc, facts, &kept, &refusal)),
    }
}

/// The end of a run whose file of facts is refused, or whose opening facts contradict the axioms.
fn unloaded(alloc: Global, name: &str, ontology: &Ontology, refusal: &LoadRefusal) -> Stop
    ensures { IsUnloaded ontology.now name.now refusal.now result }
{
    match refusal {
        LoadRefusal::Facts(why) => refused_file(alloc, name, *why),
        LoadRefusal::Alone(_)
        | LoadRefusal::Pair(_, _)
        | LoadRefusal::Ontology(_)
        | LoadRefusal::OutOfMemory => contradicting(alloc, ontology, refusal),
    }
}

/// The end of a run whose opening facts contradict the axioms.
fn contradicting(alloc: Global, ontology: &Ontology, refusal: &LoadRefusal) -> Stop
    ensures { IsContradicted ontology.now refusal.now result }
{
    match refusal {
        LoadRefusal::Alone(_) | LoadRefusal::Pair(_, _) => {
            match contradiction_text(alloc, ontology, refusal) {
                Ok(text) => Stop::Report(Report { status: 4, text }),
                Err(_) => Stop::OutOfMemory,
            }
        }
        _ => Stop::OutOfMemory,
    }
}
