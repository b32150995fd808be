ghost use Rattle.std.specs.Prelude.{◌≡◌, ◌≢◌, ◌↔◌, ℕ, IsTrue, IfOk, MatchOption, length};
ghost use Rattle.dl_base.specs.declared.terms.Term as term_type;
ghost use Rattle.conflict_rules.specs.Functional.{AreFunctional, AreFunctionalBelow, IsSet, declared_of};

use dl_base::{Axiom, OutOfMemory, RoleSide, Term};
use std::alloc::Global;

/// What is declared functional: roles of their subjects, roles of their objects, or attributes.
#[derive(Clone, Copy, Debug)]
pub enum Functionality {
    OfSubjects,
    OfObjects,
    OfAttrs,
}

/// For each term whether it is declared functional so.
pub fn functional_terms(
    alloc: Global,
    kind: Functionality,
    axioms: &[Axiom],
    terms: usize,
) -> Result<Vec<bool>, OutOfMemory>
    requires { AreFunctionalBelow kind axioms.now terms }
    ensures { IfOk result (λ marks. AreFunctional kind axioms.now marks.items) }
{
    let mut marks = vec![in alloc; false; terms]?;
    mark_functional(kind, axioms, marks.as_mut_slice());
    Ok(marks)
}

/// Marks the terms that are declared functional, where nothing is marked.
fn mark_functional(kind: Functionality, axioms: &[Axiom], marks: &mut [bool])
    requires range { AreFunctionalBelow kind axioms.now (length marks.old) }
    requires none { (k : ℕ) → ¬ IsSet marks.old k }
    ensures { AreFunctional kind axioms.now marks.new }
{
    for it in axioms {
        match term_of(kind, it) {
            Some(term) => marks[term.0 as usize] = true,
            None => {}
        }
    }
}

/// The term that the axiom declares functional so.
fn term_of(kind: Functionality, it: &Axiom) -> Option<Term>
    ensures { MatchOption result ((t : term_type.Term) → it.now ≢ declared_of kind t) (λ t. it.now ≡ declared_of kind t) }
{
    match kind {
        Functionality::OfSubjects => match it {
            Axiom::FunctionalRole(RoleSide::Direct(term)) => Some(*term),
            _ => None,
        },
        Functionality::OfObjects => match it {
            Axiom::FunctionalRole(RoleSide::Inverse(term)) => Some(*term),
            _ => None,
        },
        Functionality::OfAttrs => match it {
            Axiom::FunctionalAttr(term) => Some(*term),
            _ => None,
        },
    }
}

/// Whether the term is marked.
pub fn is_set(marks: &[bool], term: Term) -> bool
    ensures { IsTrue result ↔ IsSet marks.now term.0 }
{
    match marks.get(term.0 as usize) {
        Some(mark) => *mark,
        None => false,
    }
}

pub fn same_term(one: Term, other: Term) -> bool
    ensures { IsTrue result ↔ (one ≡ other) }
{
    one == other
}

pub fn same_role(one: RoleSide, other: RoleSide) -> bool
    ensures { IsTrue result ↔ (one ≡ other) }
{
    match (one, other) {
        (RoleSide::Direct(s), RoleSide::Direct(t)) => same_term(s, t),
        (RoleSide::Inverse(s), RoleSide::Inverse(t)) => same_term(s, t),
        _ => false,
    }
}
