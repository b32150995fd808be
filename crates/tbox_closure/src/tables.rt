ghost use Rattle.std.specs.Prelude.{◌≡◌, ◌≢◌, ◌<◌, ◌≤◌, ◌↔◌, ℕ, IsTrue, IfOk, length, List};
ghost use Rattle.dl_base.specs.Clash.{RoleReaches, AttrReaches};
ghost use Rattle.dl_base.specs.Ontologies.{IsTerm};
ghost use Rattle.dl_base.specs.Reach.{ConceptReaches};
ghost use Rattle.dl_base.specs.Validity.{IsOntology};
ghost use Rattle.dl_base.specs.declared.terms.Basic as basic_type;
ghost use Rattle.dl_base.specs.declared.terms.Kind.TheVariants as kind;
ghost use Rattle.dl_base.specs.declared.terms.RoleSide as role_side_type;
ghost use Rattle.dl_base.specs.declared.terms.Term as term_type;
ghost use Rattle.dl_laws.specs.Meeting.{AreDisjointConcepts, AreDisjointRoles, AreDisjointAttrs};
ghost use Rattle.tbox_closure.specs.Disjointness.{all_pairs, AreDisjointRows};
ghost use Rattle.tbox_closure.specs.Edges.{all_edges};
ghost use Rattle.tbox_closure.specs.Graphs.{AreBelow, IsGraphOf};
ghost use Rattle.tbox_closure.specs.Tables.{AreRanges, term_number, role_term};

use crate::disjointness::{Disjointness, disjoint_rows};
use crate::edges::Part;
use crate::gathering::gather;
use crate::graphs::Table;
use crate::marks::Marks;
use crate::nodes::{concept_number, role_number};
use crate::ranges::ranges_of;
use crate::rows::{is_marked, next_word};
use dl_base::{Axiom, Basic, Name, Ontology, OutOfMemory, Pattern, RoleSide, Term};
use std::alloc::Global;
use std::marker::Model;

/// An ontology with what its inclusions reach, what is disjoint by them, and its ranges.
#[derive(Drop)]
pub struct Tables {
    ontology: Ontology,
    concepts: Table,
    roles: Table,
    attrs: Table,
    disjoint_concepts: Vec<Marks>,
    disjoint_roles: Vec<Marks>,
    disjoint_attrs: Vec<Marks>,
    ranges: Vec<(Term, Name)>,
}

impl Model for Tables {
    ghost use Rattle.dl_base.specs.Ontologies.{Theory};
    ghost use Rattle.tbox_closure.specs.Tables.{IsExact};

    ghost Value = { Theory };

    ghost view = { λ t. t.ontology };

    ghost invariant = { λ t. IsExact t.ontology t.concepts.edges t.roles.edges t.attrs.edges t.disjoint_concepts.items t.disjoint_roles.items t.disjoint_attrs.items t.ranges.items };
}

impl Tables {
    pub fn of(alloc: Global, ontology: Ontology) -> Result<Tables, OutOfMemory>
        ensures { IfOk result (λ tables. tables ≡ ontology) }
    {
        let terms = ontology.terms();
        let concepts = table(alloc, Part::ConceptEdges, &ontology, 4 * terms)?;
        let roles = table(alloc, Part::RoleEdges, &ontology, 2 * terms)?;
        let attrs = table(alloc, Part::AttrEdges, &ontology, terms)?;
        let disjoint_concepts = disjoint(alloc, Disjointness::Concepts, &ontology, &concepts)?;
        let disjoint_roles = disjoint(alloc, Disjointness::Roles, &ontology, &roles)?;
        let disjoint_attrs = disjoint(alloc, Disjointness::Attrs, &ontology, &attrs)?;
        let ranges = ranges_of(alloc, ontology.axioms())?;
        Ok(Tables {
            ontology,
            concepts,
            roles,
            attrs,
            disjoint_concepts,
            disjoint_roles,
            disjoint_attrs,
            ranges,
        })
    }

    pub fn ontology(&self) -> &Ontology
        ensures { result.now ≡ self.now }
    {
        &self.ontology
    }

    pub fn axioms(&self) -> &[Axiom]
        ensures { result.now ≡ self.now.axioms }
    {
        self.ontology.axioms()
    }

    /// The number of terms.
    pub fn terms(&self) -> usize
        ensures count { result ≡ length self.now.terms }
        ensures sound { IsOntology self.now }
    {
        self.ontology.terms()
    }

    /// The declared ranges.
    pub fn ranges(&self) -> &[(Term, Name)]
        ensures { AreRanges self.now.axioms result.now }
    {
        self.ranges.as_slice()
    }

    /// Whether the term is a role.
    pub fn is_role(&self, term: Term) -> bool
        ensures { IsTrue result ↔ IsTerm self.now term kind.Role }
    {
        self.ontology.knows_pattern(&Pattern::Role(term))
    }

    pub fn concept(&self, from: Basic, to: Basic) -> bool
        ensures { IsTrue result ↔ ConceptReaches self.now.axioms from to }
    {
        self.concepts
            .reaches(concept_number(from), concept_number(to))
    }

    pub fn role(&self, from: RoleSide, to: RoleSide) -> bool
        ensures { IsTrue result ↔ RoleReaches self.now.axioms from to }
    {
        self.roles.reaches(role_number(from), role_number(to))
    }

    pub fn attr(&self, from: Term, to: Term) -> bool
        ensures { IsTrue result ↔ AttrReaches self.now.axioms from to }
    {
        self.attrs.reaches(from.0 as usize, to.0 as usize)
    }

    pub fn disjoint_concepts(&self, one: Basic, other: Basic) -> bool
        ensures { IsTrue result ↔ AreDisjointConcepts self.now.axioms one other }
    {
        is_marked(
            (concept_number(one), concept_number(other)),
            self.disjoint_concepts.as_slice(),
        )
    }

    /// The next term from this one on that may have a concept disjoint from the given one: no term that is passed over has.
    pub fn next_disjoint(&self, concept: Basic, from: usize) -> usize
        ensures later { from ≤ result }
        ensures passed { (b : basic_type.Basic) → from ≤ term_number b → term_number b < result → ¬ AreDisjointConcepts self.now.axioms concept b }
    {
        // A word has the concepts of 16 terms.
        let rows = self.disjoint_concepts.as_slice();
        let word = next_word(rows, concept_number(concept), from / 16);
        word.saturating_mul(16).max(from)
    }

    pub fn disjoint_roles(&self, one: RoleSide, other: RoleSide) -> bool
        ensures { IsTrue result ↔ AreDisjointRoles self.now.axioms one other }
    {
        is_marked(
            (role_number(one), role_number(other)),
            self.disjoint_roles.as_slice(),
        )
    }

    /// The next term from this one on that may be a role disjoint from the given one, from either side.
    pub fn next_disjoint_role(&self, role: RoleSide, from: usize) -> usize
        ensures later { from ≤ result }
        ensures passed { (q : role_side_type.RoleSide) → from ≤ role_term q → role_term q < result → ¬ AreDisjointRoles self.now.axioms role q }
    {
        // A word has both sides of 32 terms.
        let rows = self.disjoint_roles.as_slice();
        let word = next_word(rows, role_number(role), from / 32);
        word.saturating_mul(32).max(from)
    }

    pub fn disjoint_attrs(&self, one: Term, other: Term) -> bool
        ensures { IsTrue result ↔ AreDisjointAttrs self.now.axioms one other }
    {
        is_marked(
            (one.0 as usize, other.0 as usize),
            self.disjoint_attrs.as_slice(),
        )
    }

    /// The next term from this one on that may be an attribute disjoint from the given one.
    pub fn next_disjoint_attr(&self, attr: Term, from: usize) -> usize
        ensures later { from ≤ result }
        ensures passed { (u : term_type.Term) → from ≤ u.0 → u.0 < result → ¬ AreDisjointAttrs self.now.axioms attr u }
    {
        let rows = self.disjoint_attrs.as_slice();
        let word = next_word(rows, attr.0 as usize, from / 64);
        word.saturating_mul(64).max(from)
    }
}

/// The table of one of the graphs.
pub fn table(
    alloc: Global,
    part: Part,
    ontology: &Ontology,
    nodes: usize,
) -> Result<Table, OutOfMemory>
    requires { AreBelow nodes (all_edges part ontology.now.axioms) }
    ensures { IfOk result (IsGraphOf (all_edges part ontology.now.axioms) nodes) }
{
    Table::of(alloc, gather(alloc, part, ontology.axioms())?, nodes)
}

/// The rows of what is disjoint over the graph.
fn disjoint(
    alloc: Global,
    kind: Disjointness,
    ontology: &Ontology,
    graph: &Table,
) -> Result<Vec<Marks>, OutOfMemory>
    requires { AreBelow graph.now.nodes (all_pairs kind ontology.now.axioms) }
    ensures { IfOk result (λ rows. AreDisjointRows graph.now.edges (all_pairs kind ontology.now.axioms) rows.items) }
{
    disjoint_rows(alloc, kind, ontology.axioms(), graph)
}
