ghost use Rattle.std.specs.Prelude.{◌≡◌, ◌++◌, ◌∷◌, [], OnOk, IfOk};
ghost use Rattle.std.specs.Fmt.{decimal};
ghost use Rattle.dlupdate.specs.Runs.{numbered};
ghost use Rattle.dlupdate.specs.Texts.{counted, listed, checked, updated, stored, about, refused, error, line_at, contradiction, of_update, ill_formed};

use dl_base::{Fact, Ontology, OutOfMemory};
use dl_text::ReadKind;
use loading::LoadRefusal;
use ntriples::{print_facts, push_line};
use std::alloc::Global;
use update_engine::IllFormed;

/// What a consistent base prints: how many terms and facts it has, and how many triples were skipped.
pub fn checked_text(
    alloc: Global,
    terms: usize,
    facts: usize,
    skipped: u64,
) -> Result<Vec<u8>, OutOfMemory>
    ensures { IfOk result (λ text. text.items ≡ checked terms facts skipped) }
{
    let mut text = Vec::new(alloc);
    text.extend_from_slice(b"consistent\n")?;
    push_counted(alloc, &mut text, b"terms ", terms as u64)?;
    push_counted(alloc, &mut text, b"facts ", facts as u64)?;
    push_counted(alloc, &mut text, b"skipped ", skipped)?;
    Ok(text)
}

/// What one update prints behind its head: how many triples were skipped, and what was lost.
pub fn updated_text(
    alloc: Global,
    head: Vec<u8>,
    ontology: &Ontology,
    skipped: u64,
    lost: &[Fact],
) -> Result<Vec<u8>, OutOfMemory>
    ensures { IfOk result (λ text. text.items ≡ updated head.items ontology.now skipped lost.now) }
{
    let mut text = head;
    push_counted(alloc, &mut text, b"skipped ", skipped)?;
    push_listed(alloc, &mut text, b"lost ", ontology, lost)?;
    Ok(text)
}

/// Appends what is printed at the end.
pub fn push_stored(
    alloc: Global,
    text: &mut Vec<u8>,
    ontology: &Ontology,
    facts: &[Fact],
) -> Result<(), OutOfMemory>
    ensures { OnOk result (text.new.items ≡ text.old.items ++ stored ontology.now facts.now) }
{
    push_listed(alloc, text, b"stored ", ontology, facts)
}

/// Appends the number of an update.
pub fn push_number(alloc: Global, text: &mut Vec<u8>, number: usize) -> Result<(), OutOfMemory>
    ensures { OnOk result (text.new.items ≡ text.old.items ++ numbered number) }
{
    push_counted(alloc, text, b"update ", number as u64)
}

/// What is printed of opening facts that contradict the axioms: the fact, or the two. Nothing for another refusal.
pub fn contradiction_text(
    alloc: Global,
    ontology: &Ontology,
    refusal: &LoadRefusal,
) -> Result<Vec<u8>, OutOfMemory>
    ensures { IfOk result (λ text. text.items ≡ contradiction ontology.now refusal.now) }
{
    match refusal {
        LoadRefusal::Alone(fact) => {
            let mut text = error_text(alloc, b"inconsistent alone")?;
            push_line(&mut text, fact, ontology)?;
            Ok(text)
        }
        LoadRefusal::Pair(fact, beside) => {
            let mut text = error_text(alloc, b"inconsistent pair")?;
            push_line(&mut text, fact, ontology)?;
            push_line(&mut text, beside, ontology)?;
            Ok(text)
        }
        _ => Ok(Vec::new(alloc)),
    }
}

/// What is printed of an update that contradicts itself: its number, its name by places, and the facts at them.
pub fn ill_formed_text(
    alloc: Global,
    ontology: &Ontology,
    number: usize,
    inserts: &[Fact],
    deletes: &[Fact],
    name: IllFormed,
) -> Result<Vec<u8>, OutOfMemory>
    ensures { IfOk result (λ text. text.items ≡ ill_formed ontology.now number inserts.now deletes.now name) }
{
    match name {
        IllFormed::Alone(i) => {
            let mut text = update_text(alloc, number, b" alone ")?;
            push_place(alloc, &mut text, i)?;
            push_at(&mut text, ontology, inserts, i)?;
            Ok(text)
        }
        IllFormed::Pair(i, j) => {
            let mut text = places_text(alloc, number, b" pair ", i, j)?;
            push_at(&mut text, ontology, inserts, i)?;
            push_at(&mut text, ontology, inserts, j)?;
            Ok(text)
        }
        IllFormed::Entails(i, d) => {
            let mut text = places_text(alloc, number, b" entails ", i, d)?;
            push_at(&mut text, ontology, inserts, i)?;
            push_at(&mut text, ontology, deletes, d)?;
            Ok(text)
        }
    }
}

/// An error line about a file.
pub fn file_text(alloc: Global, name: &str, words: &[u8]) -> Result<Vec<u8>, OutOfMemory>
    ensures { IfOk result (λ text. text.items ≡ about name.now words.now) }
{
    let mut text = Vec::new(alloc);
    text.extend_from_slice(b"error ")?;
    text.extend_from_slice(name.as_bytes())?;
    text.extend_from_slice(words)?;
    text.push(b'\n')?;
    Ok(text)
}

/// The error line of a file that its reader refuses.
pub fn refused_text(
    alloc: Global,
    name: &str,
    line: u64,
    kind: ReadKind,
) -> Result<Vec<u8>, OutOfMemory>
    ensures { IfOk result (λ text. text.items ≡ refused name.now line kind) }
{
    let mut text = Vec::new(alloc);
    text.extend_from_slice(b"error ")?;
    text.extend_from_slice(name.as_bytes())?;
    text.push(b' ')?;
    push_decimal(alloc, &mut text, kind.number() as u64)?;
    text.push(b' ')?;
    text.extend_from_slice(kind.name().as_bytes())?;
    push_counted(alloc, &mut text, b" line ", line)?;
    Ok(text)
}

/// An error line without a file.
pub fn error_text(alloc: Global, words: &[u8]) -> Result<Vec<u8>, OutOfMemory>
    ensures { IfOk result (λ text. text.items ≡ error words.now) }
{
    let mut text = Vec::new(alloc);
    text.extend_from_slice(b"error ")?;
    text.extend_from_slice(words)?;
    text.push(b'\n')?;
    Ok(text)
}

/// How the line of an ill-formed update begins.
fn update_text(alloc: Global, number: usize, word: &[u8]) -> Result<Vec<u8>, OutOfMemory>
    ensures { IfOk result (λ text. text.items ≡ of_update number word.now) }
{
    let mut text = Vec::new(alloc);
    text.extend_from_slice(b"error update ")?;
    push_decimal(alloc, &mut text, number as u64)?;
    text.extend_from_slice(word)?;
    Ok(text)
}

/// The line of an ill-formed update that is named by two places.
fn places_text(
    alloc: Global,
    number: usize,
    word: &[u8],
    i: usize,
    j: usize,
) -> Result<Vec<u8>, OutOfMemory>
    ensures { IfOk result (λ text. text.items ≡ counted (of_update number word.now ++ (decimal i ++ 32 ∷ [])) j) }
{
    let mut text = update_text(alloc, number, word)?;
    push_decimal(alloc, &mut text, i as u64)?;
    text.push(b' ')?;
    push_place(alloc, &mut text, j)?;
    Ok(text)
}

/// Appends the number of a place and LF.
fn push_place(alloc: Global, text: &mut Vec<u8>, place: usize) -> Result<(), OutOfMemory>
    ensures { OnOk result (text.new.items ≡ counted text.old.items place) }
{
    push_decimal(alloc, text, place as u64)?;
    text.push(b'\n')?;
    Ok(())
}

/// Appends the line of the fact at the place, if there is one.
fn push_at(
    text: &mut Vec<u8>,
    ontology: &Ontology,
    facts: &[Fact],
    place: usize,
) -> Result<(), OutOfMemory>
    ensures { OnOk result (text.new.items ≡ text.old.items ++ line_at ontology.now facts.now place) }
{
    match facts.get(place) {
        Some(fact) => push_line(text, fact, ontology),
        None => Ok(()),
    }
}

fn push_decimal(alloc: Global, text: &mut Vec<u8>, n: u64) -> Result<(), OutOfMemory>
    ensures { OnOk result (text.new.items ≡ text.old.items ++ decimal n) }
{
    let digits = format!(in alloc; "{n}")?;
    text.extend_from_slice(digits.as_bytes())?;
    Ok(())
}

fn push_counted(alloc: Global, text: &mut Vec<u8>, word: &[u8], n: u64) -> Result<(), OutOfMemory>
    ensures { OnOk result (text.new.items ≡ text.old.items ++ counted word.now n) }
{
    text.extend_from_slice(word)?;
    push_decimal(alloc, text, n)?;
    text.push(b'\n')?;
    Ok(())
}

fn push_listed(
    alloc: Global,
    text: &mut Vec<u8>,
    word: &[u8],
    ontology: &Ontology,
    facts: &[Fact],
) -> Result<(), OutOfMemory>
    ensures { OnOk result (text.new.items ≡ text.old.items ++ listed word.now ontology.now facts.now) }
{
    push_counted(alloc, text, word, facts.len() as u64)?;
    let lines = print_facts(alloc, facts, ontology)?;
    text.extend_from_slice(lines.as_slice())?;
    Ok(())
}
