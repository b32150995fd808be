ghost use Rattle.std.specs.Prelude.{◌≡◌, ◌<◌, ◌≤◌, ◌↔◌, ◌∷◌, [], IsTrue, IfOk, length};
ghost use Rattle.dl_base.specs.Clash.{HasClash};
ghost use Rattle.dl_base.specs.Ontologies.{IsTerm};
ghost use Rattle.dl_base.specs.Validity.{IsOntology};
ghost use Rattle.dl_base.specs.declared.terms.Basic as basic_type;
ghost use Rattle.dl_base.specs.declared.terms.Kind.TheVariants as kind;
ghost use Rattle.dl_base.specs.declared.terms.RoleSide as role_side_type;
ghost use Rattle.dl_base.specs.declared.terms.Term as term_type;
ghost use Rattle.dl_laws.specs.Emptiness.{IsUnsatisfiable};
ghost use Rattle.dl_laws.specs.Meeting.{AreDisjointConcepts, AreDisjointRoles, AreDisjointAttrs, ShareFunctionalRole, ShareFunctionalAttr};
ghost use Rattle.conflict_rules.specs.Clashing.{AttrsClash, BreaksRange, ClashesWith, FactsClash, IsUnsatisfiableFact, KindsClash, RolesClash, StartsClash};
ghost use Rattle.conflict_rules.specs.Facts.{start_of};
ghost use Rattle.tbox_closure.specs.Tables.{role_term, term_number};

use crate::beginnings::{Beginning, concept_of, share_subject};
use crate::functional::{Functionality, functional_terms, is_set, same_role, same_term};
use dl_base::{Basic, Fact, Name, Ontology, OutOfMemory, RoleSide, Term, Value};
use std::alloc::Global;
use std::marker::Model;
use tbox_closure::Implied;

/// The clashes of one and of two facts under an ontology. The tables of what follows from the ontology are shared.
#[derive(Drop)]
pub struct Conflicts {
    implied: Implied,
    of_subjects: Vec<bool>,
    of_objects: Vec<bool>,
    of_attrs: Vec<bool>,
}

impl Model for Conflicts {
    ghost use Rattle.dl_base.specs.Ontologies.{Theory};
    ghost use Rattle.conflict_rules.specs.Functional.{IsCompiled};

    ghost Value = { Theory };

    ghost view = { λ c. c.implied };

    ghost invariant = { λ c. IsCompiled c.implied c.of_subjects.items c.of_objects.items c.of_attrs.items };
}

impl Conflicts {
    /// Compiles what one ontology declares functional beside what follows from it.
    pub fn compile(
        alloc: Global,
        implied: &Implied,
        ontology: &Ontology,
    ) -> Result<Conflicts, OutOfMemory>
        requires { implied.now ≡ ontology.now }
        ensures { IfOk result (λ conflicts. conflicts ≡ ontology.now) }
    {
        let terms = ontology.terms();
        let axioms = ontology.axioms();
        let of_subjects = functional_terms(alloc, Functionality::OfSubjects, axioms, terms)?;
        let of_objects = functional_terms(alloc, Functionality::OfObjects, axioms, terms)?;
        let of_attrs = functional_terms(alloc, Functionality::OfAttrs, axioms, terms)?;
        Ok(Conflicts {
            implied: implied.share()?,
            of_subjects,
            of_objects,
            of_attrs,
        })
    }

    /// Whether the fact by itself has a clash.
    pub fn alone(&self, fact: &Fact) -> bool
        ensures { IsTrue result ↔ HasClash self.now.axioms (fact.now ∷ []) }
    {
        if self.is_unsatisfiable(fact) {
            return true;
        }
        if self.breaks_range(fact) {
            return true;
        }
        self.facts_clash(fact, fact)
    }

    /// Whether two facts without a clash of their own have one together.
    pub fn pair(&self, first: &Fact, second: &Fact) -> bool
        requires first { ¬ HasClash self.now.axioms (first.now ∷ []) }
        requires second { ¬ HasClash self.now.axioms (second.now ∷ []) }
        ensures { IsTrue result ↔ HasClash self.now.axioms (first.now ∷ second.now ∷ []) }
    {
        self.facts_clash(first, second)
    }

    fn implied(&self) -> &Implied
        ensures { result.now ≡ self.now }
    {
        &self.implied
    }

    /// Whether nothing can be in a concept that the fact gives its individual.
    fn is_unsatisfiable(&self, fact: &Fact) -> bool
        ensures { IsTrue result ↔ IsUnsatisfiableFact self.now.axioms fact.now }
    {
        match fact {
            Fact::Class(c, _) => self.unsatisfiable_concept(Basic::Class(*c)),
            Fact::Role(p, _, _) => {
                if self.unsatisfiable_concept(Basic::Exists(RoleSide::Direct(*p))) {
                    return true;
                }
                self.unsatisfiable_concept(Basic::Exists(RoleSide::Inverse(*p)))
            }
            Fact::Attr(u, _, _) => self.unsatisfiable_concept(Basic::Domain(*u)),
        }
    }

    /// Whether the value's datatype is none of the attribute's.
    fn breaks_range(&self, fact: &Fact) -> bool
        ensures { IsTrue result ↔ BreaksRange self.now.axioms fact.now }
    {
        match fact {
            Fact::Class(_, _) => false,
            Fact::Role(_, _, _) => false,
            Fact::Attr(u, _, v) => self.implied().has_other_range(*u, &v.datatype),
        }
    }

    /// Whether a row of the first fact clashes with one of the second.
    fn facts_clash(&self, first: &Fact, second: &Fact) -> bool
        ensures { IsTrue result ↔ FactsClash self.now.axioms first.now second.now }
    {
        match first {
            Fact::Class(c, a) => {
                self.clashes_with(&Beginning::InConcept(a, Basic::Class(*c)), second)
            }
            Fact::Role(p, a, b) => {
                if self.clashes_with(&Beginning::InRole(a, b, RoleSide::Direct(*p)), second) {
                    return true;
                }
                self.clashes_with(&Beginning::InRole(b, a, RoleSide::Inverse(*p)), second)
            }
            Fact::Attr(u, a, v) => self.clashes_with(&Beginning::InAttr(a, v, *u), second),
        }
    }

    fn clashes_with(&self, row: &Beginning<'_>, fact: &Fact) -> bool
        ensures { IsTrue result ↔ ClashesWith self.now.axioms (start_of row.now) fact.now }
    {
        match fact {
            Fact::Class(c, a) => self.rows_clash(row, &Beginning::InConcept(a, Basic::Class(*c))),
            Fact::Role(p, a, b) => {
                if self.rows_clash(row, &Beginning::InRole(a, b, RoleSide::Direct(*p))) {
                    return true;
                }
                self.rows_clash(row, &Beginning::InRole(b, a, RoleSide::Inverse(*p)))
            }
            Fact::Attr(u, a, v) => self.rows_clash(row, &Beginning::InAttr(a, v, *u)),
        }
    }

    fn rows_clash(&self, one: &Beginning<'_>, other: &Beginning<'_>) -> bool
        ensures { IsTrue result ↔ StartsClash self.now.axioms (start_of one.now) (start_of other.now) }
    {
        if !share_subject(one, other) {
            return false;
        }
        if self.disjoint_concepts(concept_of(one), concept_of(other)) {
            return true;
        }
        self.kinds_clash(one, other)
    }

    fn kinds_clash(&self, one: &Beginning<'_>, other: &Beginning<'_>) -> bool
        ensures { IsTrue result ↔ KindsClash self.now.axioms (start_of one.now) (start_of other.now) }
    {
        match (one, other) {
            (Beginning::InRole(_, b, q), Beginning::InRole(_, d, r)) => {
                self.roles_clash(b, d, *q, *r)
            }
            (Beginning::InAttr(_, x, u), Beginning::InAttr(_, y, w)) => {
                self.attrs_clash(x, y, *u, *w)
            }
            _ => false,
        }
    }

    fn roles_clash(&self, to: &Name, and: &Name, one: RoleSide, other: RoleSide) -> bool
        ensures { IsTrue result ↔ RolesClash self.now.axioms to.now and.now one other }
    {
        if to.is(and) {
            return self.disjoint_roles(one, other);
        }
        self.share_functional_role(one, other)
    }

    fn attrs_clash(&self, value: &Value, and: &Value, one: Term, other: Term) -> bool
        ensures { IsTrue result ↔ AttrsClash self.now.axioms value.now and.now one other }
    {
        if value.is(and) {
            return self.disjoint_attrs(one, other);
        }
        self.share_functional_attr(one, other)
    }

    fn unsatisfiable_concept(&self, concept: Basic) -> bool
        ensures { IsTrue result ↔ IsUnsatisfiable self.now.axioms concept }
    {
        self.implied().is_unsatisfiable(concept)
    }

    /// Whether axioms make the two concepts disjoint.
    pub(crate) fn disjoint_concepts(&self, one: Basic, other: Basic) -> bool
        ensures { IsTrue result ↔ AreDisjointConcepts self.now.axioms one other }
    {
        self.implied().disjoint_concepts(one, other)
    }

    /// The next term from this one on that may have a concept disjoint from the given one: no term that is passed over has.
    pub(crate) fn next_disjoint(&self, concept: Basic, from: usize) -> usize
        ensures later { from ≤ result }
        ensures passed { (b : basic_type.Basic) → from ≤ term_number b → term_number b < result → ¬ AreDisjointConcepts self.now.axioms concept b }
    {
        self.implied().next_disjoint(concept, from)
    }

    /// The next term from this one on that may be a role disjoint from the given one, from either side.
    pub(crate) fn next_disjoint_role(&self, role: RoleSide, from: usize) -> usize
        ensures later { from ≤ result }
        ensures passed { (q : role_side_type.RoleSide) → from ≤ role_term q → role_term q < result → ¬ AreDisjointRoles self.now.axioms role q }
    {
        self.implied().next_disjoint_role(role, from)
    }

    /// The next term from this one on that may be an attribute disjoint from the given one.
    pub(crate) fn next_disjoint_attr(&self, attr: Term, from: usize) -> usize
        ensures later { from ≤ result }
        ensures passed { (u : term_type.Term) → from ≤ u.0 → u.0 < result → ¬ AreDisjointAttrs self.now.axioms attr u }
    {
        self.implied().next_disjoint_attr(attr, from)
    }

    /// Whether axioms make the two roles disjoint.
    pub(crate) fn disjoint_roles(&self, one: RoleSide, other: RoleSide) -> bool
        ensures { IsTrue result ↔ AreDisjointRoles self.now.axioms one other }
    {
        self.implied().disjoint_roles(one, other)
    }

    /// Whether axioms make the two attributes disjoint.
    pub(crate) fn disjoint_attrs(&self, one: Term, other: Term) -> bool
        ensures { IsTrue result ↔ AreDisjointAttrs self.now.axioms one other }
    {
        self.implied().disjoint_attrs(one, other)
    }

    /// Whether something above both roles is functional. Nothing functional is specialised, so that is one role itself.
    pub(crate) fn share_functional_role(&self, one: RoleSide, other: RoleSide) -> bool
        ensures { IsTrue result ↔ ShareFunctionalRole self.now.axioms one other }
    {
        let _terms = self.implied.terms();
        if !same_role(one, other) {
            return false;
        }
        match one {
            RoleSide::Direct(term) => is_set(self.of_subjects.as_slice(), term),
            RoleSide::Inverse(term) => is_set(self.of_objects.as_slice(), term),
        }
    }

    /// Whether something above both attributes is functional. Nothing functional is specialised, so that is one attribute itself.
    pub(crate) fn share_functional_attr(&self, one: Term, other: Term) -> bool
        ensures { IsTrue result ↔ ShareFunctionalAttr self.now.axioms one other }
    {
        let _terms = self.implied.terms();
        if !same_term(one, other) {
            return false;
        }
        is_set(self.of_attrs.as_slice(), one)
    }

    /// Whether the term is a role.
    pub(crate) fn is_role(&self, term: Term) -> bool
        ensures { IsTrue result ↔ IsTerm self.now term kind.Role }
    {
        self.implied().is_role(term)
    }

    /// The number of terms.
    pub fn terms(&self) -> usize
        ensures count { result ≡ length self.now.terms }
        ensures sound { IsOntology self.now }
    {
        self.implied().terms()
    }
}
