//! The ontology and the facts that the tests speak of, and transactions of one change over them.
ghost use Rattle.std.specs.Prelude.{◌≡◌, ◌∷◌, [], Contains, IfOk, IsTrue};
ghost use Rattle.std.specs.Arc.{arc_value};
ghost use Rattle.dl_base.specs.Clash.{IsConsistent};
ghost use Rattle.dl_base.specs.Histories.{in_force};
ghost use Rattle.dl_base.specs.Ontologies.{Extends, Knows};
ghost use Rattle.dl_base.specs.Validity.{IsOntology};
ghost use Rattle.dl_base.specs.declared.requests.Request.TheVariants.{Change};
ghost use Rattle.dl_base.specs.declared.statements.Fact as fact_type;
ghost use Rattle.serial_history.specs.States.{IsReady};
ghost use Rattle.update_engine.specs.Stepping.{IsStep};

use crate::states::State;
use dl_base::{
    Axiom, Basic, Fact, Facts, Kind, Name, Ontology, OutOfMemory, PlainSet, Request, Requests,
    RoleSide, Steps, Term, Versions,
};
use read_patterns::{Parts, Recorded};
use std::alloc::Global;
use std::marker::Brand;
use std::process::Abort;
use std::sync::Arc;
use std::sync::ledger::{Blank, Ledger};
use std::test::Fail;
use update_engine::{Rules, Step, StepRefusal, first_clash, step, stored_after};

pub const PERSON: u32 = 0;

pub const STAFF: u32 = 1;

pub const PROF: u32 = 2;

pub const STUDENT: u32 = 3;

pub const COURSE: u32 = 4;

pub const TEACHES: u32 = 5;

/// A fact: its term, its subject, and its object, which a class fact leaves empty.
pub type Line = (u32, &'static str, &'static str);

/// The facts that a change inserts, and those that it deletes.
pub type Lines = (&'static [Line], &'static [Line]);

/// Staff are persons and professors are staff, students are persons and no staff; who teaches is a professor, and what is taught is a course.
/// These axioms come after those.
fn university(alloc: Global, mut more: Vec<Axiom>) -> Result<Ontology, Fail> {
    let mut terms = Vec::new(alloc);
    for number in 0..TEACHES + 1 {
        let kind = if number < TEACHES {
            Kind::Class
        } else {
            Kind::Role
        };
        terms.push((Name::of(alloc, &[b'a' + number as u8])?, kind))?;
    }
    let teaches = RoleSide::Direct(Term(TEACHES));
    let taught = RoleSide::Inverse(Term(TEACHES));
    let mut axioms = vec![in alloc;
        Axiom::ConceptIn(class(STAFF), class(PERSON)),
        Axiom::ConceptIn(class(PROF), class(STAFF)),
        Axiom::ConceptIn(class(STUDENT), class(PERSON)),
        Axiom::ConceptApart(class(STUDENT), class(STAFF)),
        Axiom::ConceptIn(Basic::Exists(teaches), class(PROF)),
        Axiom::ConceptIn(Basic::Exists(taught), class(COURSE)),
    ]?;
    axioms.append(&mut more)?;
    Ok(Ontology::of(alloc, terms, axioms)?)
}

fn class(number: u32) -> Basic {
    Basic::Class(Term(number))
}

/// The ontology of the university in which these two classes are disjoint too, and its rules.
pub fn with_apart(
    rt: &impl Abort,
    alloc: Global,
    state: &State<PlainSet>,
    one: u32,
    other: u32,
) -> Result<(Arc<Ontology>, Arc<Rules>), Fail>
    ensures ontology { IfOk result (λ it. IsOntology (arc_value it.0)) }
    ensures extends { IfOk result (λ it. Extends (arc_value it.0) (in_force state.now.opening state.now.entries)) }
    ensures compiled { IfOk result (λ it. arc_value it.1 ≡ arc_value it.0) }
{
    let apart = vec![in alloc; Axiom::ConceptApart(class(one), class(other))]?;
    let ontology = university(alloc, apart)?;
    let _terms = ontology.terms();
    assert!(rt; ontology.extends(state.rules().ontology()));
    let rules = Rules::compile(alloc, &ontology)?;
    Ok((Arc::new(alloc, ontology)?, Arc::new(alloc, rules)?))
}

fn fact(alloc: Global, line: Line) -> Result<Fact, OutOfMemory> {
    let (number, subject, object) = line;
    let subject = Name::of(alloc, subject.as_bytes())?;
    if number < TEACHES {
        return Ok(Fact::Class(Term(number), subject));
    }
    Ok(Fact::Role(Term(number), subject, Name::of(alloc, object.as_bytes())?))
}

/// The facts of these lines.
pub fn facts(alloc: Global, lines: &[Line]) -> Result<Vec<Fact>, OutOfMemory> {
    let mut facts = Vec::new(alloc);
    for line in lines {
        facts.push(fact(alloc, *line)?)?;
    }
    Ok(facts)
}

/// A history over these facts, which are known and consistent.
pub fn opened(
    rt: &impl Abort,
    alloc: Global,
    lines: &[Line],
    limit: u64,
) -> Result<State<PlainSet>, Fail> {
    let ontology = university(alloc, Vec::new(alloc))?;
    let rules = Arc::new(alloc, Rules::compile(alloc, &ontology)?)?;
    let opening: PlainSet = Versions::of(alloc, facts(alloc, lines)?)?;
    assert!(rt; rules.knows_all(opening.as_slice()));
    if let Some(clash) = first_clash(&rules, opening.as_slice()) {
        panic!(rt; "{clash:?}");
    }
    Ok(State::start(alloc, rules, opening, limit)?)
}

/// A transaction that begins at the version that stands and makes this change, which is well-formed and known.
pub fn begun(
    rt: &impl Abort,
    alloc: Global,
    state: &State<PlainSet>,
    lines: Lines,
) -> Result<Parts, Fail>
    ensures { IfOk result (IsReady state.now) }
{
    let inserts = facts(alloc, lines.0)?;
    let deletes = facts(alloc, lines.1)?;
    assert!(rt; knows_all(state, inserts.as_slice()));
    assert!(rt; knows_all(state, deletes.as_slice()));
    match changed(alloc, state, inserts, deletes) {
        Ok(parts) => Ok(parts),
        Err(refusal) => panic!(rt; "{refusal:?}"),
    }
}

fn knows_all(state: &State<PlainSet>, facts: &[Fact]) -> bool
    ensures { IsTrue result → (f : fact_type.Fact) → Contains facts.now f → Knows (in_force state.now.opening state.now.entries) f }
{
    state.rules().knows_all(facts)
}

fn changed(
    alloc: Global,
    state: &State<PlainSet>,
    inserts: Vec<Fact>,
    deletes: Vec<Fact>,
) -> Result<Parts, StepRefusal>
    requires inserts { (f : fact_type.Fact) → Contains inserts.items f → Knows (in_force state.now.opening state.now.entries) f }
    requires deletes { (f : fact_type.Fact) → Contains deletes.items f → Knows (in_force state.now.opening state.now.entries) f }
    ensures { IfOk result (IsReady state.now) }
{
    let stored = state.version();
    let made = counted::<Brand>(
        alloc,
        state.rules(),
        stored,
        inserts.as_slice(),
        deletes.as_slice(),
        Blank::new(1),
    )?;
    let _after = stored_after(alloc, stored.as_slice(), &made)?;
    let recorded = one_change(alloc, inserts, deletes)?;
    let Step {
        removed,
        put,
        added: _added,
        lost: _lost,
    } = made;
    Ok(Parts {
        base: state.length(),
        recorded,
        added: put,
        removed,
    })
}

fn one_change(
    alloc: Global,
    inserts: Vec<Fact>,
    deletes: Vec<Fact>,
) -> Result<Recorded, OutOfMemory>
    ensures { IfOk result (λ recorded. recorded ≡ Change inserts.items deletes.items ∷ []) }
{
    let change = Request::Change {
        inserts: Facts::of(inserts),
        deletes: Facts::of(deletes),
    };
    let requests = vec![in alloc; change]?;
    Ok(Recorded::of(Requests::of(requests)))
}

fn counted<L: Ledger>(
    alloc: Global,
    rules: &Rules,
    set: &PlainSet,
    inserts: &[Fact],
    deletes: &[Fact],
    blank: Blank,
) -> Result<Step, StepRefusal>
    requires name { blank.name ≡ L.name }
    requires parts { blank.parts ≡ L.parts }
    requires one { blank.parts ≡ 1 }
    requires consistent { IsConsistent rules.now.axioms set.now }
    requires known { (f : fact_type.Fact) → Contains set.now f → Knows rules.now f }
    ensures { IfOk result (IsStep rules.now.axioms set.now inserts.now deletes.now) }
{
    let mut steps: Steps<L> = Steps::new(blank);
    let made = step(alloc, rules, set, inserts, deletes, &mut steps)?;
    Ok(made)
}
