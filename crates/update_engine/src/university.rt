//! The ontologies and facts that the tests speak of.
ghost use Rattle.std.specs.Prelude.{◌≡◌, IfOk, Contains};
ghost use Rattle.dl_base.specs.Clash.{IsConsistent};
ghost use Rattle.dl_base.specs.FactOrder.{AreSorted};
ghost use Rattle.dl_base.specs.Ontologies.{Knows};
ghost use Rattle.dl_base.specs.declared.statements.Fact as fact_type;

use crate::answers::{Step, StepRefusal};
use crate::clashes::first_clash;
use crate::rules::Rules;
use crate::stepping::step;
use crate::storing::stored_after;
use dl_base::{
    Axiom, Basic, Fact, Kind, Name, Ontology, OutOfMemory, PlainSet, RoleSide, Steps, Term, Value,
};
use std::alloc::Global;
use std::marker::Brand;
use std::process::Abort;
use std::sync::ledger::{Blank, Ledger};
use std::test::Fail;

pub const PERSON: u32 = 0;

pub const STAFF: u32 = 1;

pub const PROF: u32 = 2;

pub const STUDENT: u32 = 3;

pub const COURSE: u32 = 4;

pub const TEACHES: u32 = 5;

pub const HEAD_OF: u32 = 6;

pub const MENTORS: u32 = 7;

pub const BADGE: u32 = 8;

const INTEGER: &str = "http://www.w3.org/2001/XMLSchema#integer";

const STRING: &str = "http://www.w3.org/2001/XMLSchema#string";

/// A fact: its term, its subject, and its object, which a class fact leaves empty.
pub type Line = (u32, &'static str, &'static str);

/// Staff are persons and professors are staff, students are no staff; who teaches is a professor, and what is taught is a course.
/// One heads one thing, nobody is mentored by who they mentor, and a badge is one integer.
pub fn university(alloc: Global) -> Result<Rules, Fail> {
    let integer = Name::of(alloc, INTEGER.as_bytes())?;
    rules(
        alloc,
        vec![in alloc;
            Axiom::ConceptIn(class(STAFF), class(PERSON)),
            Axiom::ConceptIn(class(PROF), class(STAFF)),
            Axiom::ConceptApart(class(STUDENT), class(STAFF)),
            Axiom::ConceptIn(Basic::Exists(direct(TEACHES)), class(PROF)),
            Axiom::ConceptIn(Basic::Exists(inverse(TEACHES)), class(COURSE)),
            Axiom::FunctionalRole(direct(HEAD_OF)),
            Axiom::RoleApart(direct(MENTORS), inverse(MENTORS)),
            Axiom::FunctionalAttr(Term(BADGE)),
            Axiom::Range(Term(BADGE), integer),
        ]?,
    )
}

/// Over the same terms: each person teaches something, and what is taught is in two classes that are apart.
pub fn torn_partner(alloc: Global) -> Result<Rules, Fail> {
    rules(
        alloc,
        vec![in alloc;
            Axiom::ConceptIn(class(PERSON), Basic::Exists(direct(TEACHES))),
            Axiom::ConceptIn(Basic::Exists(inverse(TEACHES)), class(STAFF)),
            Axiom::ConceptIn(Basic::Exists(inverse(TEACHES)), class(COURSE)),
            Axiom::ConceptApart(class(STAFF), class(COURSE)),
        ]?,
    )
}

/// Over the same terms: each person teaches some member of staff, and what is taught is a course.
pub fn chosen_partner(alloc: Global) -> Result<Rules, Fail> {
    rules(
        alloc,
        vec![in alloc;
            Axiom::ConceptSome(class(PERSON), direct(TEACHES), class(STAFF)),
            Axiom::ConceptIn(Basic::Exists(inverse(TEACHES)), class(COURSE)),
        ]?,
    )
}

/// Over the same terms: each person has a badge, and a badge is an integer and a string.
pub fn torn_value(alloc: Global) -> Result<Rules, Fail> {
    let integer = Name::of(alloc, INTEGER.as_bytes())?;
    let string = Name::of(alloc, STRING.as_bytes())?;
    rules(
        alloc,
        vec![in alloc;
            Axiom::ConceptIn(class(PERSON), Basic::Domain(Term(BADGE))),
            Axiom::Range(Term(BADGE), integer),
            Axiom::Range(Term(BADGE), string),
        ]?,
    )
}

/// The facts of these lines. An object of an attribute is an integer where it begins with a digit, and else a string.
pub fn facts(alloc: Global, lines: &[Line]) -> Result<Vec<Fact>, OutOfMemory> {
    let mut facts = Vec::new(alloc);
    for line in lines {
        facts.push(fact(alloc, *line)?)?;
    }
    Ok(facts)
}

fn rules(alloc: Global, axioms: Vec<Axiom>) -> Result<Rules, Fail> {
    let ontology = Ontology::of(alloc, terms(alloc)?, axioms)?;
    Ok(Rules::compile(alloc, &ontology)?)
}

fn terms(alloc: Global) -> Result<Vec<(Name, Kind)>, OutOfMemory> {
    let mut terms = Vec::new(alloc);
    for number in 0..BADGE + 1 {
        let name = Name::of(alloc, &[b'a' + number as u8])?;
        terms.push((name, kind(number)))?;
    }
    Ok(terms)
}

fn kind(number: u32) -> Kind {
    if number < TEACHES {
        return Kind::Class;
    }
    if number < BADGE {
        return Kind::Role;
    }
    Kind::Attr
}

fn fact(alloc: Global, line: Line) -> Result<Fact, OutOfMemory> {
    let (number, subject, object) = line;
    let subject = Name::of(alloc, subject.as_bytes())?;
    match kind(number) {
        Kind::Class => Ok(Fact::Class(Term(number), subject)),
        Kind::Role => Ok(Fact::Role(Term(number), subject, Name::of(alloc, object.as_bytes())?)),
        _ => Ok(Fact::Attr(Term(number), subject, value(alloc, object)?)),
    }
}

fn value(alloc: Global, text: &str) -> Result<Value, OutOfMemory> {
    let datatype = match text.as_bytes() {
        [b'0'..=b'9', ..] => INTEGER,
        _ => STRING,
    };
    Ok(Value {
        datatype: Name::of(alloc, datatype.as_bytes())?,
        tag: Name::of(alloc, &[])?,
        text: Name::of(alloc, text.as_bytes())?,
    })
}

fn class(number: u32) -> Basic {
    Basic::Class(Term(number))
}

fn direct(number: u32) -> RoleSide {
    RoleSide::Direct(Term(number))
}

fn inverse(number: u32) -> RoleSide {
    RoleSide::Inverse(Term(number))
}

/// Whether the facts are those of the lines.
pub fn are(alloc: Global, found: &[Fact], lines: &[Line]) -> Result<bool, OutOfMemory> {
    let wanted = facts(alloc, lines)?;
    Ok(wanted.as_slice() == found)
}

/// The step from these stored facts, which are known and consistent, and what is stored after it.
pub fn answer(
    rt: &impl Abort,
    alloc: Global,
    rules: &Rules,
    stored: &[Line],
    inserts: &[Line],
    deletes: &[Line],
) -> Result<(Step, Vec<Fact>), StepRefusal> {
    let set = PlainSet::of(alloc, facts(alloc, stored)?)?;
    assert!(rt; rules.knows_all(set.as_slice()));
    if let Some(clash) = first_clash(rules, set.as_slice()) {
        panic!(rt; "{clash:?}");
    }
    let inserts = facts(alloc, inserts)?;
    let deletes = facts(alloc, deletes)?;
    let made = counted::<Brand>(
        alloc,
        rules,
        &set,
        inserts.as_slice(),
        deletes.as_slice(),
        Blank::new(1),
    )?;
    let after = stored_after(alloc, set.as_slice(), &made)?;
    Ok((made, after))
}

fn counted<L: Ledger>(
    alloc: Global,
    rules: &Rules,
    set: &PlainSet,
    inserts: &[Fact],
    deletes: &[Fact],
    blank: Blank,
) -> Result<Step, StepRefusal>
    requires name { blank.name ≡ L.name }
    requires parts { blank.parts ≡ L.parts }
    requires one { blank.parts ≡ 1 }
    requires consistent { IsConsistent rules.now.axioms set.now }
    requires known { (f : fact_type.Fact) → Contains set.now f → Knows rules.now f }
    ensures { IfOk result (λ s. AreSorted s.removed.items) }
{
    let mut steps: Steps<L> = Steps::new(blank);
    let made = step(alloc, rules, set, inserts, deletes, &mut steps)?;
    Ok(made)
}
