ghost use Rattle.std.specs.Prelude.{◌≡◌, ◌<◌, ◌↔◌, ℕ, IsTrue, IfOk, OnOk, IfSome, false, length};
ghost use Rattle.dl_laws.specs.Paths.{Path};
ghost use Rattle.tbox_closure.specs.Marks.{IsMarked, row};
ghost use Rattle.tbox_closure.specs.Graphs.{AreBelow, AreRows, AreFirst, AreAlike, AreAmong, AreBegun, AreSound, HaveSamePaths, IsGraphOf, Gathers};

use crate::marks::Marks;
use crate::rows::{are_marked, carry, close, first_rows, gather, is_marked};
use crate::schedules::schedule;
use dl_base::OutOfMemory;
use std::alloc::Global;
use std::marker::Model;

/// Edges between nodes, with the nodes that each node reaches.
#[derive(Drop)]
pub struct Table {
    edges: Vec<(usize, usize)>,
    rows: Vec<Marks>,
}

impl Model for Table {
    ghost use Rattle.std.specs.Prelude.{length};
    ghost use Rattle.tbox_closure.specs.Graphs.{Graph, IsTable};

    ghost Value = { Graph };

    ghost view = { λ t. record { edges = t.edges.items; nodes = length t.rows.items } };

    ghost invariant = { λ t. IsTable t.edges.items t.rows.items };
}

impl Table {
    /// The table of a few of the edges, which lead as far as all.
    pub fn of(alloc: Global, edges: Vec<(usize, usize)>, nodes: usize) -> Result<Table, OutOfMemory>
        requires { AreBelow nodes edges.items }
        ensures { IfOk result (IsGraphOf edges.items nodes) }
    {
        let mut rows = first_rows(alloc, nodes)?;
        match fill(alloc, edges.as_slice(), rows.as_mut_slice())? {
            Some(few) => Ok(Table { edges: few, rows }),
            None => Ok(Table { edges, rows }),
        }
    }

    pub fn nodes(&self) -> usize
        ensures count { result ≡ self.now.nodes }
        ensures range { AreBelow self.now.nodes self.now.edges }
    {
        self.rows.len()
    }

    /// Whether a path of edges leads from the one node to the other.
    pub fn reaches(&self, from: usize, to: usize) -> bool
        ensures { IsTrue result ↔ Path self.now.edges from to }
    {
        if from == to {
            true
        } else if from < self.rows.len() {
            self.rows[from].has(to)
        } else {
            false
        }
    }

    /// Adds to each row those of all nodes that its node reaches.
    pub fn gather(&self, alloc: Global, rows: &mut [Marks])
        requires nodes { length rows.old ≡ self.now.nodes }
        requires alike { AreAlike rows.old }
        ensures { (i k : ℕ) → IsMarked (row rows.new i) k ↔ Gathers self.now.edges rows.old i k }
    {
        gather(alloc, self.edges.as_slice(), rows);
    }
}

/// Marks in each row all that its node reaches. Answers a few of the edges where these lead as far as all.
fn fill(
    alloc: Global,
    edges: &[(usize, usize)],
    rows: &mut [Marks],
) -> Result<Option<Vec<(usize, usize)>>, OutOfMemory>
    requires range { AreBelow (length rows.old) edges.now }
    requires first { AreFirst rows.old }
    requires alike { AreAlike rows.old }
    ensures all { OnOk result (AreRows edges.now rows.new) }
    ensures few { IfOk result (λ answer. IfSome answer (λ few. AreRows few.items rows.new)) }
    ensures same { IfOk result (λ answer. IfSome answer (λ few. HaveSamePaths few.items edges.now)) }
    ensures among { IfOk result (λ answer. IfSome answer (λ few. AreAmong edges.now few.items)) }
{
    let order = schedule(alloc, edges, rows.len())?;
    let few = follow(alloc, edges, order.as_slice(), rows)?;
    if complete(alloc, edges, few.as_slice(), rows) {
        return Ok(Some(few));
    }
    Ok(None)
}

/// Carries marks along the edges of the schedule, but where the end is marked already and the schedule allows to leave it out.
/// Answers the edges that were used.
fn follow(
    alloc: Global,
    edges: &[(usize, usize)],
    schedule: &[(usize, bool)],
    rows: &mut [Marks],
) -> Result<Vec<(usize, usize)>, OutOfMemory>
    requires range { AreBelow (length rows.old) edges.now }
    requires first { AreFirst rows.old }
    requires alike { AreAlike rows.old }
    ensures among { IfOk result (λ few. AreAmong edges.now few.items) }
    ensures begun { AreBegun rows.new }
    ensures sound { IfOk result (λ few. AreSound few.items rows.new) }
    ensures alike { AreAlike rows.new }
{
    let mut few = Vec::new(alloc);
    for step in schedule {
        let (place, always) = *step;
        if place < edges.len() {
            let edge = edges[place];
            let wanted = always || !is_marked(edge, rows);
            if wanted {
                few.push(edge)?;
                carry(alloc, rows, edge.0, edge.1);
            }
        }
    }
    Ok(few)
}

/// Marks in each row all that its node reaches, where a few of the edges have marked the most. Answers whether the few lead as far as all.
fn complete(
    alloc: Global,
    edges: &[(usize, usize)],
    few: &[(usize, usize)],
    rows: &mut [Marks],
) -> bool
    requires range { AreBelow (length rows.old) edges.now }
    requires among { AreAmong edges.now few.now }
    requires begun { AreBegun rows.old }
    requires sound { AreSound few.now rows.old }
    requires alike { AreAlike rows.old }
    ensures all { AreRows edges.now rows.new }
    ensures few { IsTrue result → AreRows few.now rows.new }
    ensures same { IsTrue result → HaveSamePaths few.now edges.now }
{
    close(alloc, few, rows);
    if are_marked(edges, rows) {
        return true;
    }
    close(alloc, edges, rows);
    false
}
