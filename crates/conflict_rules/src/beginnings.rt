ghost use Rattle.std.specs.Prelude.{◌≡◌, ◌↔◌, IsTrue};
ghost use Rattle.dl_laws.specs.Rows as rows;
ghost use Rattle.conflict_rules.specs.Facts.{start_of};

use dl_base::{Basic, Name, RoleSide, Term, Value};

/// A row that a fact gives by itself.
#[derive(Clone, Copy)]
pub enum Beginning<'a> {
    InConcept(&'a Name, Basic),
    InRole(&'a Name, &'a Name, RoleSide),
    InAttr(&'a Name, &'a Value, Term),
}

/// The individual that it puts into a concept.
fn subject_of<'a>(row: &Beginning<'a>) -> &'a Name
    ensures { result.now ≡ rows.subject (start_of row.now) }
{
    match row {
        Beginning::InConcept(name, _) => name,
        Beginning::InRole(from, _, _) => from,
        Beginning::InAttr(from, _, _) => from,
    }
}

/// The concept.
pub fn concept_of(row: &Beginning<'_>) -> Basic
    ensures { result ≡ rows.concept (start_of row.now) }
{
    match row {
        Beginning::InConcept(_, concept) => *concept,
        Beginning::InRole(_, _, role) => Basic::Exists(*role),
        Beginning::InAttr(_, _, attr) => Basic::Domain(*attr),
    }
}

/// Whether both put the same individual into a concept.
pub fn share_subject(one: &Beginning<'_>, other: &Beginning<'_>) -> bool
    ensures { IsTrue result ↔ (rows.subject (start_of one.now) ≡ rows.subject (start_of other.now)) }
{
    subject_of(one).is(subject_of(other))
}
