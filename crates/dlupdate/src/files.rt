ghost use Rattle.std.specs.Prelude.{◌≡◌, ◌≤◌, Contains, IfOk, IfErr, IfSome};
ghost use Rattle.dl_base.specs.Ontologies.{Knows};
ghost use Rattle.dl_base.specs.declared.statements.Fact as fact_type;
ghost use Rattle.dl_io.specs.Causes.{Rose};
ghost use Rattle.dlupdate.specs.Runs.{Has, IsUnread, IsStopped, StopsOnly, GivesOntology, GivesUpdate, RefusesOntology, RefusesUpdate, NoRefusal, IsReported, IsReportedOf, ontology_limit, update_limit};
ghost use Rattle.dlupdate.specs.Texts.{about};
ghost use Rattle.update_read.specs.Outcomes.{KnowsUpdate};

use crate::reports::{Report, Stop};
use crate::texts::{file_text, refused_text};
use dl_base::Ontology;
use dl_io::{Files, FilesRefusal};
use dl_text::ReadRefusal;
use owl_read::{ReadOntology, read_ontology};
use std::alloc::Global;
use update_read::{ReadUpdate, read_update};

/// The most bytes that an ontology's file may have.
pub const ONTOLOGY_LIMIT: usize = 16 << 20;

/// The most bytes that a file of facts may have.
pub const FACTS_LIMIT: usize = 256 << 20;

/// The most bytes that an update's file may have.
pub const UPDATE_LIMIT: usize = 1 << 20;

/// The bytes of a file.
pub fn read_file<F: Files>(
    alloc: Global,
    files: &mut F,
    name: &str,
    limit: usize,
) -> Result<Vec<u8>, Stop>
    ensures ok { IfOk result (λ bytes. IfSome (F.contents files.old) (λ c. Has c name.now limit bytes.items)) }
    ensures stopped { IfErr result (IsStopped (F.contents files.old) (λ c. IsUnread c name.now limit NoRefusal)) }
    ensures failed { IfErr result (StopsOnly (Rose (F.faults files.old) (F.faults files.new))) }
    ensures same { F.contents files.new ≡ F.contents files.old }
    ensures later { F.faults files.old ≤ F.faults files.new }
{
    match files.read(alloc, name, limit) {
        Ok(bytes) => Ok(bytes),
        Err(FilesRefusal::Missing) => Err(about_file(alloc, 3, name, b" 31 Missing")),
        Err(FilesRefusal::TooLong) => Err(about_file(alloc, 3, name, b" 30 TooLong")),
        Err(FilesRefusal::Failed) => Err(about_file(alloc, 6, name, b" 32 Failed")),
        Err(FilesRefusal::OutOfMemory) => Err(Stop::OutOfMemory),
    }
}

/// The end of a run with this status and an error line about a file.
fn about_file(alloc: Global, status: u8, name: &str, words: &[u8]) -> Stop
    ensures { IsReported status (about name.now words.now) result }
{
    match file_text(alloc, name, words) {
        Ok(text) => Stop::Report(Report { status, text }),
        Err(_) => Stop::OutOfMemory,
    }
}

/// The end of a run whose file is refused by its reader.
pub fn refused_file(alloc: Global, name: &str, refusal: ReadRefusal) -> Stop
    ensures { IsReportedOf name.now refusal result }
{
    match refusal {
        ReadRefusal::Refused { line, kind } => match refused_text(alloc, name, line, kind) {
            Ok(text) => Stop::Report(Report { status: 3, text }),
            Err(_) => Stop::OutOfMemory,
        },
        ReadRefusal::OutOfMemory => Stop::OutOfMemory,
    }
}

/// The ontology of a file with its assertions.
pub fn ontology_in<F: Files>(alloc: Global, files: &mut F, name: &str) -> Result<ReadOntology, Stop>
    ensures ok { IfOk result (λ it. IfSome (F.contents files.old) (λ c. GivesOntology c name.now it.ontology it.facts.items it.skipped)) }
    ensures known { IfOk result (λ it. (f : fact_type.Fact) → Contains it.facts.items f → Knows it.ontology f) }
    ensures stopped { IfErr result (IsStopped (F.contents files.old) (λ c. IsUnread c name.now ontology_limit RefusesOntology)) }
    ensures failed { IfErr result (StopsOnly (Rose (F.faults files.old) (F.faults files.new))) }
    ensures same { F.contents files.new ≡ F.contents files.old }
    ensures later { F.faults files.old ≤ F.faults files.new }
{
    let bytes = match read_file(alloc, files, name, ONTOLOGY_LIMIT) {
        Ok(bytes) => bytes,
        Err(stop) => return Err(stop),
    };
    match read_ontology(alloc, bytes.as_slice()) {
        Ok(read) => Ok(read),
        Err(refusal) => Err(refused_file(alloc, name, refusal)),
    }
}

/// The update of a file.
pub fn update_in<F: Files>(
    alloc: Global,
    files: &mut F,
    ontology: &Ontology,
    name: &str,
) -> Result<ReadUpdate, Stop>
    ensures ok { IfOk result (λ it. IfSome (F.contents files.old) (λ c. GivesUpdate c ontology.now name.now it)) }
    ensures known { IfOk result (KnowsUpdate ontology.now) }
    ensures stopped { IfErr result (IsStopped (F.contents files.old) (λ c. IsUnread c name.now update_limit (RefusesUpdate ontology.now))) }
    ensures failed { IfErr result (StopsOnly (Rose (F.faults files.old) (F.faults files.new))) }
    ensures same { F.contents files.new ≡ F.contents files.old }
    ensures later { F.faults files.old ≤ F.faults files.new }
{
    let bytes = match read_file(alloc, files, name, UPDATE_LIMIT) {
        Ok(bytes) => bytes,
        Err(stop) => return Err(stop),
    };
    match read_update(alloc, bytes.as_slice(), ontology) {
        Ok(read) => Ok(read),
        Err(refusal) => Err(refused_file(alloc, name, refusal)),
    }
}
