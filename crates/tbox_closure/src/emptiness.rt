ghost use Rattle.std.specs.Prelude.{◌≡◌, ◌↔◌, ◌⊎◌, ◌<◌, ◌+◌, ◌*◌, ℕ, IsTrue, IfOk, length};
ghost use Rattle.dl_base.specs.Ontologies.{KnowsAxiom};
ghost use Rattle.dl_laws.specs.Edges.{merged_node};
ghost use Rattle.tbox_closure.specs.declared.edges.Part.TheVariants as parts;
ghost use Rattle.tbox_closure.specs.Edges.{all_edges};
ghost use Rattle.tbox_closure.specs.Graphs.{HaveSamePaths};
ghost use Rattle.tbox_closure.specs.Marks.{AreWide};
ghost use Rattle.tbox_closure.specs.Tables.{AreEmptyRows, IsContradictoryByKind, IsContradictoryItself, AreDisjointAmong, IsItselfAt, IsItselfOf, IsItselfNode, IsPartnerNode, HasPartnerNode, IsNoted, Notes};

use crate::edges::Part;
use crate::graphs::Table;
use crate::marks::Marks;
use crate::nodes::{merged_number, turned};
use crate::range_clashes::has_two_ranges;
use crate::rows::{blank_rows, mark_at};
use crate::tables::{Tables, table};
use dl_base::{Axiom, Basic, OutOfMemory, RoleSide, Term};
use std::alloc::Global;

/// For each concept's node, both sides of a role being one, a row that marks its first place where nothing can be in the concept.
pub fn empty_rows(alloc: Global, tables: &Tables) -> Result<Vec<Marks>, OutOfMemory>
    ensures { IfOk result (λ rows. AreEmptyRows tables.now.axioms rows.items) }
{
    let nodes = 4 * tables.terms();
    let needs = table(alloc, Part::NeedEdges, tables.ontology(), nodes)?;
    let mut rows = blank_rows(alloc, nodes, 1)?;
    gather_empty(alloc, tables, &needs, rows.as_mut_slice());
    Ok(rows)
}

/// Notes the nodes from which a contradictory concept is needed.
fn gather_empty(alloc: Global, tables: &Tables, needs: &Table, rows: &mut [Marks])
    requires nodes { length rows.old ≡ needs.now.nodes }
    requires size { needs.now.nodes ≡ 4 * length tables.now.terms }
    requires same { HaveSamePaths needs.now.edges (all_edges parts.NeedEdges tables.now.axioms) }
    requires wide { AreWide 1 rows.old }
    requires none { (k : ℕ) → ¬ IsNoted rows.old k }
    ensures { AreEmptyRows tables.now.axioms rows.new }
{
    mark_terms(tables, rows);
    mark_partners(tables, rows);
    needs.gather(alloc, rows);
}

/// Notes the concepts whose members contradict the axioms without a partner.
fn mark_terms(tables: &Tables, rows: &mut [Marks])
    requires size { length rows.old ≡ 4 * length tables.now.terms }
    requires wide { AreWide 1 rows.old }
    ensures wide { AreWide 1 rows.new }
    ensures noted { Notes (IsItselfNode tables.now.axioms) rows.old rows.new }
{
    for number in 0..tables.terms() {
        mark_term(tables, Term(number as u32), rows);
    }
}

fn mark_term(tables: &Tables, term: Term, rows: &mut [Marks])
    requires at { 4 * term.0 + 3 < length rows.old }
    requires wide { AreWide 1 rows.old }
    ensures wide { AreWide 1 rows.new }
    ensures noted { Notes (IsItselfOf tables.now.axioms term.0) rows.old rows.new }
{
    mark_if(tables, Basic::Class(term), rows);
    mark_if(tables, Basic::Exists(RoleSide::Direct(term)), rows);
    mark_if(tables, Basic::Exists(RoleSide::Inverse(term)), rows);
    mark_if(tables, Basic::Domain(term), rows);
}

fn mark_if(tables: &Tables, concept: Basic, rows: &mut [Marks])
    requires at { merged_node concept < length rows.old }
    requires wide { AreWide 1 rows.old }
    ensures wide { AreWide 1 rows.new }
    ensures noted { Notes (IsItselfAt tables.now.axioms concept) rows.old rows.new }
{
    if is_contradictory(tables, concept) {
        mark_at(rows, merged_number(concept), 0);
    }
}

fn is_contradictory(tables: &Tables, concept: Basic) -> bool
    ensures { IsTrue result ↔ IsContradictoryItself tables.now.axioms concept }
{
    if tables.disjoint_concepts(concept, concept) {
        return true;
    }
    is_contradictory_by_kind(tables, concept)
}

fn is_contradictory_by_kind(tables: &Tables, concept: Basic) -> bool
    ensures { IsTrue result ↔ IsContradictoryByKind tables.now.axioms concept }
{
    match concept {
        Basic::Class(_) => false,
        Basic::Exists(q) => tables.disjoint_roles(q, q),
        Basic::Domain(u) => {
            if tables.disjoint_attrs(u, u) {
                return true;
            }
            has_two_ranges(tables, u)
        }
    }
}

/// Notes the concepts to whose members an axiom gives a contradictory partner.
fn mark_partners(tables: &Tables, rows: &mut [Marks])
    requires size { length rows.old ≡ 4 * length tables.now.terms }
    requires wide { AreWide 1 rows.old }
    ensures wide { AreWide 1 rows.new }
    ensures noted { Notes (HasPartnerNode tables.now.axioms tables.now.axioms) rows.old rows.new }
{
    mark_partners_of(tables, tables.axioms(), rows);
}

fn mark_partners_of(tables: &Tables, axioms: &[Axiom], rows: &mut [Marks])
    requires size { length rows.old ≡ 4 * length tables.now.terms }
    requires axioms { axioms.now ≡ tables.now.axioms }
    requires wide { AreWide 1 rows.old }
    ensures wide { AreWide 1 rows.new }
    ensures noted { Notes (HasPartnerNode tables.now.axioms axioms.now) rows.old rows.new }
{
    let terms = tables.terms();
    let _ = terms;
    for it in axioms {
        mark_partner(tables, it, rows);
    }
}

fn mark_partner(tables: &Tables, it: &Axiom, rows: &mut [Marks])
    requires size { length rows.old ≡ 4 * length tables.now.terms }
    requires known { KnowsAxiom tables.now it.now }
    requires wide { AreWide 1 rows.old }
    ensures wide { AreWide 1 rows.new }
    ensures noted { Notes (IsPartnerNode tables.now.axioms it.now) rows.old rows.new }
{
    match it {
        Axiom::ConceptSome(b, q, c) => {
            if are_disjoint_among(tables, Basic::Exists(turned(*q)), *c) {
                mark_at(rows, merged_number(*b), 0);
            }
        }
        _ => {}
    }
}

/// Whether two of the two concepts are disjoint, or one from itself.
fn are_disjoint_among(tables: &Tables, one: Basic, other: Basic) -> bool
    ensures { IsTrue result ↔ AreDisjointAmong tables.now.axioms one other }
{
    if tables.disjoint_concepts(one, one) {
        return true;
    }
    if tables.disjoint_concepts(one, other) {
        return true;
    }
    tables.disjoint_concepts(other, other)
}
