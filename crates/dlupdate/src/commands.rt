ghost use Rattle.std.specs.Prelude.{◌≡◌, ◌≤◌, List, ℕ, IfOk, IfErr};
ghost use Rattle.std.specs.Option.{option_copied};
ghost use Rattle.dl_io.specs.Causes.{Rose};
ghost use Rattle.dlupdate.specs.Commands.{Says, Check, Apply, Script, words_of};
ghost use Rattle.dlupdate.specs.Held.{said};
ghost use Rattle.dlupdate.specs.Runs.{Comes, IsTold, IsStopped, FailsOnly, StopsOnly};

use crate::following::followed;
use crate::opening::{opened, opened_alone, opened_with};
use crate::reports::{Report, Stop};
use crate::texts::{checked_text, error_text};
use crate::words::{Command, command_of};
use dl_base::OutOfMemory;
use dl_io::Files;
use std::alloc::Global;

/// The run of these words.
pub fn run<F: Files>(alloc: Global, words: &[String], files: &mut F) -> Result<Report, OutOfMemory>
    ensures told { IfOk result (IsTold (F.contents files.old) (λ c. Comes c (words_of words.now))) }
    ensures failed { IfOk result (λ report. FailsOnly (Rose (F.faults files.old) (F.faults files.new)) report.status) }
    ensures later { F.faults files.old ≤ F.faults files.new }
{
    let Some(command) = command_of(words) else {
        return Ok(Report {
            status: 2,
            text: error_text(alloc, b"words")?,
        });
    };
    match ran(alloc, files, command) {
        Ok(report) => Ok(report),
        Err(Stop::Report(report)) => Ok(report),
        Err(Stop::OutOfMemory) => Err(OutOfMemory),
    }
}

/// The run of a command.
fn ran<F: Files>(alloc: Global, files: &mut F, command: Command<'_>) -> Result<Report, Stop>
    ensures ok { IfOk result (λ report. (words : List (List ℕ)) → Says words (said command.entry) → IsTold (F.contents files.old) (λ c. Comes c words) report) }
    ensures stopped { IfErr result (λ s. (words : List (List ℕ)) → Says words (said command.entry) → IsStopped (F.contents files.old) (λ c. Comes c words) s) }
    ensures fine { IfOk result (λ report. report.status ≡ 0) }
    ensures failed { IfErr result (StopsOnly (Rose (F.faults files.old) (F.faults files.new))) }
    ensures later { F.faults files.old ≤ F.faults files.new }
{
    match command {
        Command::Check { ontology, facts } => check(alloc, files, ontology, facts),
        Command::Apply { ontology, updates } => apply(alloc, files, ontology, updates),
        Command::Script {
            ontology,
            facts,
            updates,
        } => script(alloc, files, ontology, facts, updates),
    }
}

/// Whether the opening facts are consistent.
fn check<F: Files>(
    alloc: Global,
    files: &mut F,
    ontology: &str,
    facts: Option<&str>,
) -> Result<Report, Stop>
    ensures ok { IfOk result (λ report. (words : List (List ℕ)) → Says words (Check ontology.now (option_copied facts.entry)) → IsTold (F.contents files.old) (λ c. Comes c words) report) }
    ensures stopped { IfErr result (λ s. (words : List (List ℕ)) → Says words (Check ontology.now (option_copied facts.entry)) → IsStopped (F.contents files.old) (λ c. Comes c words) s) }
    ensures fine { IfOk result (λ report. report.status ≡ 0) }
    ensures failed { IfErr result (StopsOnly (Rose (F.faults files.old) (F.faults files.new))) }
    ensures later { F.faults files.old ≤ F.faults files.new }
{
    let opened = match opened(alloc, files, ontology, facts) {
        Ok(opened) => opened,
        Err(stop) => return Err(stop),
    };
    let text = checked_text(
        alloc,
        opened.ontology.terms(),
        opened.facts.len(),
        opened.skipped,
    )?;
    Ok(Report { status: 0, text })
}

/// One update over the ontology's own assertions.
fn apply<F: Files>(
    alloc: Global,
    files: &mut F,
    ontology: &str,
    updates: &[String],
) -> Result<Report, Stop>
    ensures ok { IfOk result (λ report. (words : List (List ℕ)) → Says words (Apply ontology.now (words_of updates.now)) → IsTold (F.contents files.old) (λ c. Comes c words) report) }
    ensures stopped { IfErr result (λ s. (words : List (List ℕ)) → Says words (Apply ontology.now (words_of updates.now)) → IsStopped (F.contents files.old) (λ c. Comes c words) s) }
    ensures fine { IfOk result (λ report. report.status ≡ 0) }
    ensures failed { IfErr result (StopsOnly (Rose (F.faults files.old) (F.faults files.new))) }
    ensures later { F.faults files.old ≤ F.faults files.new }
{
    let opened = match opened_alone(alloc, files, ontology) {
        Ok(opened) => opened,
        Err(stop) => return Err(stop),
    };
    match followed(alloc, files, opened, updates, false) {
        Ok(report) => Ok(report),
        Err(stop) => Err(stop),
    }
}

/// Updates one after another.
fn script<F: Files>(
    alloc: Global,
    files: &mut F,
    ontology: &str,
    facts: &str,
    updates: &[String],
) -> Result<Report, Stop>
    ensures ok { IfOk result (λ report. (words : List (List ℕ)) → Says words (Script ontology.now facts.now (words_of updates.now)) → IsTold (F.contents files.old) (λ c. Comes c words) report) }
    ensures stopped { IfErr result (λ s. (words : List (List ℕ)) → Says words (Script ontology.now facts.now (words_of updates.now)) → IsStopped (F.contents files.old) (λ c. Comes c words) s) }
    ensures fine { IfOk result (λ report. report.status ≡ 0) }
    ensures failed { IfErr result (StopsOnly (Rose (F.faults files.old) (F.faults files.new))) }
    ensures later { F.faults files.old ≤ F.faults files.new }
{
    let opened = match opened_with(alloc, files, ontology, facts) {
        Ok(opened) => opened,
        Err(stop) => return Err(stop),
    };
    match followed(alloc, files, opened, updates, true) {
        Ok(report) => Ok(report),
        Err(stop) => Err(stop),
    }
}
