//! The restriction of DL-Lite_A: nothing functional is specialised.
ghost use Rattle.std.specs.Prelude.{◌≡◌, ◌↔◌, ◌⊎◌, IsTrue, IfOk, OnOk, MatchOption, Some, Contains, ◌≤◌, [], take, length};
ghost use Rattle.dl_base.specs.declared.restriction.Predicate as predicate_type;
ghost use Rattle.dl_base.specs.Validity.{IsValid};
ghost use Rattle.dl_base.specs.Vocabularies.{Notes, role_of, functional_by, specialised_by, IsFirstSpecialised};

use crate::axioms::Axiom;
use crate::memory::OutOfMemory;
use crate::terms::{RoleSide, Term};
use std::alloc::Global;
use std::collections::BTreeSet;

/// A role, whichever its side, or an attribute.
#[derive(Clone, Copy, Debug, PartialEq, Eq, PartialOrd, Ord)]
pub enum Predicate {
    Role(Term),
    Attr(Term),
}

/// The role of this side.
fn role(side: RoleSide) -> Predicate
    ensures { result ≡ role_of side }
{
    match side {
        RoleSide::Direct(p) => Predicate::Role(p),
        RoleSide::Inverse(p) => Predicate::Role(p),
    }
}

/// The role or attribute that the axiom declares functional.
fn functional(given: &Axiom) -> Option<Predicate>
    ensures { result ≡ functional_by given.now }
{
    match given {
        Axiom::FunctionalRole(q) => Some(role(*q)),
        Axiom::FunctionalAttr(u) => Some(Predicate::Attr(*u)),
        _ => None,
    }
}

/// The role or attribute that the axiom specialises: the right side of an inclusion, or the role of 'some role in a concept'.
fn specialised(given: &Axiom) -> Option<Predicate>
    ensures { result ≡ specialised_by given.now }
{
    match given {
        Axiom::RoleIn(_, r) => Some(role(*r)),
        Axiom::AttrIn(_, w) => Some(Predicate::Attr(*w)),
        Axiom::ConceptSome(_, q, _) => Some(role(*q)),
        _ => None,
    }
}

/// Whether the set has the predicate, if there is one.
fn has(set: &BTreeSet<Predicate>, predicate: Option<Predicate>) -> bool
    ensures { IsTrue result ↔ ((p : predicate_type.Predicate) × (predicate ≡ Some p) × Contains set.now.keys p) }
{
    match predicate {
        Some(p) => set.contains(&p),
        None => false,
    }
}

/// Puts the predicate into the set, if there is one.
fn note(set: &mut BTreeSet<Predicate>, predicate: Option<Predicate>) -> Result<(), OutOfMemory>
    ensures { OnOk result ((p : predicate_type.Predicate) → Contains set.new.keys p ↔ ((predicate ≡ Some p) ⊎ Contains set.old.keys p)) }
{
    if let Some(p) = predicate {
        set.insert(p)?;
    }
    Ok(())
}

/// What the axioms so far declare functional, and what they specialise.
#[derive(Debug, Drop)]
pub struct Restriction {
    functionals: BTreeSet<Predicate>,
    specials: BTreeSet<Predicate>,
}

impl Restriction {
    /// That of no axioms.
    pub fn new(alloc: Global) -> Restriction
        ensures { Notes result [] }
    {
        Restriction {
            functionals: BTreeSet::new(alloc),
            specials: BTreeSet::new(alloc),
        }
    }

    /// The place of the first axiom with which something functional is specialised, where those in front of `from` are noted and
    /// specialise nothing functional. Where there is none, all are noted.
    pub fn first_from(
        &mut self,
        axioms: &[Axiom],
        from: usize,
    ) -> Result<Option<usize>, OutOfMemory>
        requires noted { Notes self.old (take from axioms.now) }
        requires valid { IsValid (take from axioms.now) }
        requires within { from ≤ length axioms.now }
        ensures { IfOk result (λ place. MatchOption place (IsValid axioms.now × Notes self.new axioms.now) (IsFirstSpecialised axioms.now)) }
    {
        for place in from..axioms.len() {
            let given = &axioms[place];
            let here = functional(given);
            let below = specialised(given);
            if has(&self.specials, here) || has(&self.functionals, below) {
                return Ok(Some(place));
            }
            note(&mut self.functionals, here)?;
            note(&mut self.specials, below)?;
        }
        Ok(None)
    }
}

/// The place of the first axiom with which something functional is specialised.
pub fn first_specialised(alloc: Global, axioms: &[Axiom]) -> Result<Option<usize>, OutOfMemory>
    ensures { IfOk result (λ place. MatchOption place (IsValid axioms.now) (IsFirstSpecialised axioms.now)) }
{
    let mut restriction = Restriction::new(alloc);
    restriction.first_from(axioms, 0)
}
