ghost use Rattle.std.specs.Prelude.{◌≡◌, ◌↔◌, ◌∷◌, [], ℕ, IfOk, MatchOption, length};
ghost use Rattle.dl_laws.specs.Paths.{Path};
ghost use Rattle.tbox_closure.specs.Disjointness.{all_pairs, pairs_of, AreDeclared, AreDisjointRows, IsDisjoint, IsPair};
ghost use Rattle.tbox_closure.specs.Graphs.{AreBelow, Gathers};
ghost use Rattle.tbox_closure.specs.Marks.{IsMarked, AreWide, row};

use crate::graphs::Table;
use crate::marks::Marks;
use crate::nodes::{concept_number, role_number};
use crate::rows::{blank_rows, mark_at, transposed};
use dl_base::{Axiom, OutOfMemory};
use std::alloc::Global;

/// Of what axioms declare two disjoint.
#[derive(Clone, Copy, Debug)]
pub enum Disjointness {
    Concepts,
    Roles,
    Attrs,
}

/// For each node of the graph those from which it is disjoint: a path leads from the one and one from the other to the two of a declared pair.
pub fn disjoint_rows(
    alloc: Global,
    kind: Disjointness,
    axioms: &[Axiom],
    graph: &Table,
) -> Result<Vec<Marks>, OutOfMemory>
    requires { AreBelow graph.now.nodes (all_pairs kind axioms.now) }
    ensures { IfOk result (λ rows. AreDisjointRows graph.now.edges (all_pairs kind axioms.now) rows.items) }
{
    let mut rows = blank_rows(alloc, graph.nodes(), graph.nodes())?;
    gather_declared(alloc, kind, axioms, graph, rows.as_mut_slice());
    let mut turned = transposed(alloc, rows.as_slice())?;
    graph.gather(alloc, turned.as_mut_slice());
    Ok(turned)
}

/// Marks in the row of each node, where nothing is marked, what is declared disjoint from a node that it reaches.
fn gather_declared(
    alloc: Global,
    kind: Disjointness,
    axioms: &[Axiom],
    graph: &Table,
    rows: &mut [Marks],
)
    requires nodes { length rows.old ≡ graph.now.nodes }
    requires range { AreBelow graph.now.nodes (all_pairs kind axioms.now) }
    requires wide { AreWide graph.now.nodes rows.old }
    requires unmarked { (i k : ℕ) → ¬ IsMarked (row rows.old i) k }
    ensures { (i k : ℕ) → IsMarked (row rows.new i) k ↔ ((d : ℕ) × Path graph.now.edges i d × IsPair (all_pairs kind axioms.now) d k) }
{
    declare(kind, axioms, rows);
    graph.gather(alloc, rows);
}

/// Marks the declared pairs in both orders, where nothing is marked.
fn declare(kind: Disjointness, axioms: &[Axiom], rows: &mut [Marks])
    requires range { AreBelow (length rows.old) (all_pairs kind axioms.now) }
    requires wide { AreWide (length rows.old) rows.old }
    requires unmarked { (i k : ℕ) → ¬ IsMarked (row rows.old i) k }
    ensures wide { AreWide (length rows.old) rows.new }
    ensures declared { AreDeclared (all_pairs kind axioms.now) rows.new }
{
    for it in axioms {
        match pair_of(kind, it) {
            Some((d, e)) => {
                mark_at(rows, d, e);
                mark_at(rows, e, d);
            }
            None => {}
        }
    }
}

/// The pair that the axiom declares disjoint.
fn pair_of(kind: Disjointness, it: &Axiom) -> Option<(usize, usize)>
    ensures { MatchOption result (pairs_of kind it.now ≡ []) (λ pair. pairs_of kind it.now ≡ pair ∷ []) }
{
    match kind {
        Disjointness::Concepts => match it {
            Axiom::ConceptApart(b, c) => Some((concept_number(*b), concept_number(*c))),
            _ => None,
        },
        Disjointness::Roles => match it {
            Axiom::RoleApart(q, r) => Some((role_number(*q), role_number(*r))),
            _ => None,
        },
        Disjointness::Attrs => match it {
            Axiom::AttrApart(u, w) => Some((u.0 as usize, w.0 as usize)),
            _ => None,
        },
    }
}
