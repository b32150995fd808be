ghost use Rattle.std.specs.Prelude.{◌≡◌, ◌≢◌, ◌<◌, ◌≤◌, ◌↔◌, ℕ, List, IsTrue, IfOk, length};
ghost use Rattle.dl_base.specs.Clash.{RoleReaches, AttrReaches};
ghost use Rattle.dl_base.specs.Ontologies.{IsTerm};
ghost use Rattle.dl_base.specs.Reach.{ConceptReaches};
ghost use Rattle.dl_base.specs.Validity.{IsOntology};
ghost use Rattle.dl_base.specs.declared.terms.Basic as basic_type;
ghost use Rattle.dl_base.specs.declared.terms.Kind.TheVariants as kind;
ghost use Rattle.dl_base.specs.declared.terms.RoleSide as role_side_type;
ghost use Rattle.dl_base.specs.declared.terms.Term as term_type;
ghost use Rattle.dl_laws.specs.Emptiness.{IsUnsatisfiable, IsEmptyConcept, IsEmptyRole, IsEmptyAttr};
ghost use Rattle.dl_laws.specs.Meeting.{AreDisjointConcepts, AreDisjointRoles, AreDisjointAttrs};
ghost use Rattle.tbox_closure.specs.Tables.{IsRange, term_number, role_term};

use crate::emptiness::empty_rows;
use crate::marks::Marks;
use crate::nodes::merged_number;
use crate::range_clashes;
use crate::rows::is_marked;
use crate::tables::Tables;
use dl_base::{Axiom, Basic, Name, Ontology, OutOfMemory, RoleSide, Term};
use std::alloc::Global;
use std::marker::Model;
use std::sync::Arc;

/// The tables of an ontology, and which of its concepts nothing can be in.
#[derive(Drop)]
struct Closure {
    tables: Tables,
    empty: Vec<Marks>,
}

impl Model for Closure {
    ghost use Rattle.dl_base.specs.Ontologies.{Theory};
    ghost use Rattle.tbox_closure.specs.Tables.{AreEmptyRows};

    ghost Value = { Theory };

    ghost view = { λ c. c.tables };

    ghost invariant = { λ c. AreEmptyRows c.tables.axioms c.empty.items };
}

impl Closure {
    fn tables(&self) -> &Tables
        ensures { result.now ≡ self.now }
    {
        &self.tables
    }

    fn is_unsatisfiable(&self, concept: Basic) -> bool
        ensures { IsTrue result ↔ IsUnsatisfiable self.now.axioms concept }
    {
        is_marked((merged_number(concept), 0), self.empty.as_slice())
    }
}

/// What follows from an ontology: its implied inclusions, disjointness and empty predicates, compiled into tables that its copies share.
#[derive(Drop)]
pub struct Implied {
    closure: Arc<Closure>,
}

impl Model for Implied {
    ghost use Rattle.dl_base.specs.Ontologies.{Theory};
    ghost use Rattle.std.specs.Arc.{arc_value};

    ghost Value = { Theory };

    ghost view = { λ i. arc_value i.closure };
}

/// Compiles the ontology.
pub fn close(alloc: Global, ontology: &Ontology) -> Result<Implied, OutOfMemory>
    ensures { IfOk result (λ implied. implied ≡ ontology.now) }
{
    let tables = Tables::of(alloc, ontology.copy(alloc)?)?;
    let empty = empty_rows(alloc, &tables)?;
    let closure = Arc::new(alloc, Closure { tables, empty })?;
    Ok(Implied { closure })
}

impl Implied {
    /// The same, with shared tables.
    pub fn share(&self) -> Result<Implied, OutOfMemory>
        ensures { IfOk result (λ implied. implied ≡ self.now) }
    {
        let closure = Arc::try_clone(&self.closure)?;
        Ok(Implied { closure })
    }

    fn tables(&self) -> &Tables
        ensures { result.now ≡ self.now }
    {
        self.closure.tables()
    }

    pub fn axioms(&self) -> &[Axiom]
        ensures { result.now ≡ self.now.axioms }
    {
        self.tables().axioms()
    }

    /// The number of terms.
    pub fn terms(&self) -> usize
        ensures count { result ≡ length self.now.terms }
        ensures sound { IsOntology self.now }
    {
        self.tables().terms()
    }

    /// Whether the term is a role.
    pub fn is_role(&self, term: Term) -> bool
        ensures { IsTrue result ↔ IsTerm self.now term kind.Role }
    {
        self.tables().is_role(term)
    }

    /// Whether a chain of inclusions leads from the one concept to the other.
    pub fn concept(&self, from: Basic, to: Basic) -> bool
        ensures { IsTrue result ↔ ConceptReaches self.now.axioms from to }
    {
        self.tables().concept(from, to)
    }

    /// Whether a chain of inclusions leads from the one role to the other.
    pub fn role(&self, from: RoleSide, to: RoleSide) -> bool
        ensures { IsTrue result ↔ RoleReaches self.now.axioms from to }
    {
        self.tables().role(from, to)
    }

    /// Whether a chain of inclusions leads from the one attribute to the other.
    pub fn attr(&self, from: Term, to: Term) -> bool
        ensures { IsTrue result ↔ AttrReaches self.now.axioms from to }
    {
        self.tables().attr(from, to)
    }

    /// Whether one row with the concept alone derives a clash, for every choice of the name.
    pub fn empty_concept(&self, concept: Basic) -> bool
        ensures { IsTrue result ↔ IsEmptyConcept self.now.axioms concept }
    {
        self.is_unsatisfiable(concept)
    }

    /// Whether one row with the role alone derives a clash, for every choice of different names.
    pub fn empty_role(&self, role: Term) -> bool
        ensures { IsTrue result ↔ IsEmptyRole self.now.axioms role }
    {
        self.is_unsatisfiable(Basic::Exists(RoleSide::Direct(role)))
    }

    /// Whether one row with the attribute alone derives a clash, for every choice of the name and the value.
    pub fn empty_attr(&self, attr: Term) -> bool
        ensures { IsTrue result ↔ IsEmptyAttr self.now.axioms attr }
    {
        self.is_unsatisfiable(Basic::Domain(attr))
    }

    /// Whether who is in the concept needs something that contradicts the axioms.
    pub fn is_unsatisfiable(&self, concept: Basic) -> bool
        ensures { IsTrue result ↔ IsUnsatisfiable self.now.axioms concept }
    {
        self.closure.is_unsatisfiable(concept)
    }

    /// Whether something above the one concept is declared disjoint from something above the other, in either order.
    pub fn disjoint_concepts(&self, one: Basic, other: Basic) -> bool
        ensures { IsTrue result ↔ AreDisjointConcepts self.now.axioms one other }
    {
        self.tables().disjoint_concepts(one, other)
    }

    /// The next term from this one on that may have a concept disjoint from the given one: no term that is passed over has.
    pub fn next_disjoint(&self, concept: Basic, from: usize) -> usize
        ensures later { from ≤ result }
        ensures passed { (b : basic_type.Basic) → from ≤ term_number b → term_number b < result → ¬ AreDisjointConcepts self.now.axioms concept b }
    {
        self.tables().next_disjoint(concept, from)
    }

    /// The same of roles.
    pub fn disjoint_roles(&self, one: RoleSide, other: RoleSide) -> bool
        ensures { IsTrue result ↔ AreDisjointRoles self.now.axioms one other }
    {
        self.tables().disjoint_roles(one, other)
    }

    /// The next term from this one on that may be a role disjoint from the given one, from either side.
    pub fn next_disjoint_role(&self, role: RoleSide, from: usize) -> usize
        ensures later { from ≤ result }
        ensures passed { (q : role_side_type.RoleSide) → from ≤ role_term q → role_term q < result → ¬ AreDisjointRoles self.now.axioms role q }
    {
        self.tables().next_disjoint_role(role, from)
    }

    /// The same of attributes.
    pub fn disjoint_attrs(&self, one: Term, other: Term) -> bool
        ensures { IsTrue result ↔ AreDisjointAttrs self.now.axioms one other }
    {
        self.tables().disjoint_attrs(one, other)
    }

    /// The next term from this one on that may be an attribute disjoint from the given one.
    pub fn next_disjoint_attr(&self, attr: Term, from: usize) -> usize
        ensures later { from ≤ result }
        ensures passed { (u : term_type.Term) → from ≤ u.0 → u.0 < result → ¬ AreDisjointAttrs self.now.axioms attr u }
    {
        self.tables().next_disjoint_attr(attr, from)
    }

    /// Whether another datatype is a range of something above the attribute.
    pub fn has_other_range(&self, attr: Term, datatype: &Name) -> bool
        ensures { IsTrue result ↔ ((e : List ℕ) × IsRange self.now.axioms attr e × (datatype.now ≢ e)) }
    {
        range_clashes::has_other_range(self.tables(), attr, datatype)
    }
}

#[cfg(test)]
mod tests {
    use super::*;
    use dl_base::Kind;
    use std::test::Fail;

    const A: Basic = Basic::Class(Term(0));

    const B: Basic = Basic::Class(Term(1));

    const C: Basic = Basic::Class(Term(2));

    const P: RoleSide = RoleSide::Direct(Term(3));

    const TO_P: RoleSide = RoleSide::Inverse(Term(3));

    const Q: RoleSide = RoleSide::Direct(Term(4));

    const TO_Q: RoleSide = RoleSide::Inverse(Term(4));

    const U: Term = Term(5);

    const W: Term = Term(6);

    // Classes 0 to 2, roles 3 and 4, attributes 5 and 6.
    fn closed(alloc: Global, axioms: Vec<Axiom>) -> Result<Implied, Fail> {
        let mut terms = Vec::new(alloc);
        for (name, kind) in [
            (b"A", Kind::Class),
            (b"B", Kind::Class),
            (b"C", Kind::Class),
            (b"p", Kind::Role),
            (b"q", Kind::Role),
            (b"u", Kind::Attr),
            (b"w", Kind::Attr),
        ] {
            terms.push((Name::of(alloc, name)?, kind))?;
        }
        let ontology = Ontology::of(alloc, terms, axioms)?;
        Ok(close(alloc, &ontology)?)
    }

    #[test]
    fn inclusions(rt: HostRuntime) -> Result<(), Fail> {
        let alloc = rt.alloc();
        let implied = closed(
            alloc,
            vec![in alloc;
                Axiom::ConceptIn(A, B),
                Axiom::ConceptIn(B, C),
                Axiom::RoleIn(Q, TO_P),
                Axiom::AttrIn(U, W),
                Axiom::ConceptSome(C, Q, A),
            ]?,
        )?
        .share()?;
        assert_eq!(rt; implied.terms(), 7);
        assert_eq!(rt; implied.axioms().len(), 5);
        assert!(rt; implied.concept(A, C) && implied.concept(A, A) && !implied.concept(C, A));
        assert!(rt;
            implied.concept(A, Basic::Exists(TO_P)) && !implied.concept(A, Basic::Exists(P))
        );
        assert!(rt; implied.role(Q, TO_P) && implied.role(TO_Q, P) && !implied.role(Q, P));
        assert!(rt; implied.attr(U, W) && !implied.attr(W, U));
        assert!(rt;
            implied.is_role(Term(3)) && !implied.is_role(Term(2)) && !implied.is_role(Term(9))
        );
        Ok(())
    }

    // Of 40 classes the first is disjoint from the 36th, and the second from none.
    #[test]
    fn terms_without_disjoint_concepts_are_passed_over(rt: HostRuntime) -> Result<(), Fail> {
        let alloc = rt.alloc();
        let mut terms = Vec::new(alloc);
        for number in 0..40u8 {
            terms.push((Name::of(alloc, &[number])?, Kind::Class))?;
        }
        let axioms = vec![in alloc; Axiom::ConceptApart(A, Basic::Class(Term(35)))]?;
        let ontology = Ontology::of(alloc, terms, axioms)?;
        let implied = close(alloc, &ontology)?;
        assert_eq!(rt; implied.next_disjoint(A, 0), 32);
        assert_eq!(rt; implied.next_disjoint(A, 34), 34);
        assert_eq!(rt; implied.next_disjoint(Basic::Class(Term(35)), 0), 0);
        assert!(rt; implied.next_disjoint(Basic::Class(Term(35)), 16) >= 40);
        assert!(rt; implied.next_disjoint(B, 0) >= 40);
        assert!(rt;
            implied.next_disjoint_role(P, 0) >= 40 && implied.next_disjoint_attr(U, 0) >= 40
        );
        Ok(())
    }

    #[test]
    fn emptiness(rt: HostRuntime) -> Result<(), Fail> {
        let alloc = rt.alloc();
        // A partner in B whose place in the role is in C, which is disjoint from B.
        let chosen = closed(
            alloc,
            vec![in alloc;
                Axiom::ConceptSome(A, P, B),
                Axiom::ConceptIn(Basic::Exists(TO_P), C),
                Axiom::ConceptApart(C, B),
            ]?,
        )?;
        assert!(rt; chosen.empty_concept(A) && chosen.is_unsatisfiable(A));
        assert!(rt;
            !chosen.empty_concept(B) && !chosen.empty_concept(C) && !chosen.empty_role(Term(3))
        );
        assert!(rt; chosen.disjoint_concepts(Basic::Exists(TO_P), B));
        assert!(rt; chosen.disjoint_concepts(B, C) && !chosen.disjoint_concepts(B, A));
        // The witness of a witness: nothing has the role q to it.
        let later = closed(
            alloc,
            vec![in alloc;
                Axiom::ConceptSome(A, P, B),
                Axiom::ConceptIn(B, Basic::Exists(Q)),
                Axiom::ConceptApart(Basic::Exists(TO_Q), Basic::Exists(TO_Q)),
            ]?,
        )?;
        assert!(rt; later.empty_concept(A) && later.empty_concept(B) && !later.empty_concept(C));
        assert!(rt; later.empty_role(Term(4)) && !later.empty_role(Term(3)));
        Ok(())
    }

    #[test]
    fn roles_and_attributes(rt: HostRuntime) -> Result<(), Fail> {
        let alloc = rt.alloc();
        let implied = closed(
            alloc,
            vec![in alloc;
                Axiom::RoleIn(P, Q),
                Axiom::RoleApart(P, TO_Q),
                Axiom::AttrIn(U, W),
                Axiom::Range(U, Name::of(alloc, b"integer")?),
                Axiom::Range(W, Name::of(alloc, b"string")?),
                Axiom::AttrApart(W, W),
            ]?,
        )?;
        assert!(rt; implied.disjoint_roles(TO_Q, P) && implied.disjoint_roles(P, TO_P));
        assert!(rt; !implied.disjoint_roles(Q, TO_Q) && !implied.empty_role(Term(3)));
        assert!(rt; implied.empty_attr(U) && implied.empty_attr(W) && implied.disjoint_attrs(U, U));
        assert!(rt; implied.has_other_range(U, &Name::of(alloc, b"integer")?));
        assert!(rt; !implied.has_other_range(W, &Name::of(alloc, b"string")?));
        Ok(())
    }
}
