ghost use Rattle.std.specs.Prelude.{◌≡◌, ◌<◌, ◌≤◌, ◌↔◌, ◌⊎◌, ◌*◌, ◌/◌, ℕ, IsTrue, IfOk, false, length};
ghost use Rattle.tbox_closure.specs.Marks.{IsMarked, AreWide, row, all_spare};
ghost use Rattle.tbox_closure.specs.Graphs.{AreBelow, AreMarked, AreFirst, AreAlike, AreClosed, Carries, Grows, Gathers};

use crate::marks::Marks;
use dl_base::OutOfMemory;
use std::alloc::Global;
use std::mem;

/// A row for each node, in which it is marked alone.
pub fn first_rows(alloc: Global, nodes: usize) -> Result<Vec<Marks>, OutOfMemory>
    ensures length { IfOk result (λ rows. length rows.items ≡ nodes) }
    ensures first { IfOk result (λ rows. AreFirst rows.items) }
    ensures alike { IfOk result (λ rows. AreAlike rows.items) }
{
    let width = nodes / 64 + 1;
    let mut rows = Vec::new(alloc);
    for node in 0..nodes {
        let marks = Marks::of(alloc, node, width)?;
        rows.push(marks)?;
    }
    Ok(rows)
}

/// Whether the end of the edge is marked in the row of its beginning.
pub fn is_marked(edge: (usize, usize), rows: &[Marks]) -> bool
    ensures { IsTrue result ↔ IsMarked (row rows.now edge.0) edge.1 }
{
    if edge.0 < rows.len() {
        rows[edge.0].has(edge.1)
    } else {
        false
    }
}

/// The first word from this one on that has a mark in the row of the node, or a later one where the row has none.
pub fn next_word(rows: &[Marks], node: usize, from: usize) -> usize
    ensures { (k : ℕ) → from ≤ k / 64 → k / 64 < result → ¬ IsMarked (row rows.now node) k }
{
    if node < rows.len() {
        rows[node].next_word(from)
    } else {
        usize::MAX
    }
}

/// Whether the end of each edge is marked in the row of its beginning.
pub fn are_marked(edges: &[(usize, usize)], rows: &[Marks]) -> bool
    ensures { IsTrue result → AreMarked edges.now rows.now }
{
    for edge in edges {
        if !is_marked(*edge, rows) {
            return false;
        }
    }
    true
}

/// Adds to each row those of all nodes that its node reaches.
pub fn gather(alloc: Global, edges: &[(usize, usize)], rows: &mut [Marks])
    requires range { AreBelow (length rows.old) edges.now }
    requires alike { AreAlike rows.old }
    ensures { (i k : ℕ) → IsMarked (row rows.new i) k ↔ Gathers edges.now rows.old i k }
{
    close(alloc, edges, rows);
}

/// Carries marks along all edges until nothing changes.
pub fn close(alloc: Global, edges: &[(usize, usize)], rows: &mut [Marks])
    requires range { AreBelow (length rows.old) edges.now }
    requires alike { AreAlike rows.old }
    ensures grows { Grows edges.now rows.old rows.new }
    ensures closed { AreClosed edges.now rows.new }
{
    while sweep(alloc, edges, rows) {}
}

/// Carries marks along each edge once. Answers whether a row changed.
fn sweep(alloc: Global, edges: &[(usize, usize)], rows: &mut [Marks]) -> bool
    requires range { AreBelow (length rows.old) edges.now }
    requires alike { AreAlike rows.old }
    ensures grows { Grows edges.now rows.old rows.new }
    ensures closed { result ≡ false → AreClosed edges.now rows.new }
    ensures fewer { IsTrue result → all_spare rows.new < all_spare rows.old }
{
    let mut changed = false;
    for edge in edges {
        if carry(alloc, rows, edge.0, edge.1) {
            changed = true;
        }
    }
    changed
}

/// Adds the marks of the row `to` to the row `from`. Answers whether the row changed.
pub fn carry(alloc: Global, rows: &mut [Marks], from: usize, to: usize) -> bool
    requires from { from < length rows.old }
    requires to { to < length rows.old }
    requires alike { length (row rows.old to) ≡ length (row rows.old from) }
    ensures same { result ≡ false → rows.new ≡ rows.old }
    ensures carries { Carries rows.old rows.new from to }
    ensures fewer { IsTrue result → all_spare rows.new < all_spare rows.old }
{
    if from == to {
        return false;
    }
    let mut into = mem::replace(&mut rows[from], Marks::none(alloc));
    let changed = into.add(&rows[to]);
    rows[from] = into;
    changed
}

/// Rows of so many nodes, with room for so many marks each, that mark nothing.
pub fn blank_rows(alloc: Global, nodes: usize, columns: usize) -> Result<Vec<Marks>, OutOfMemory>
    ensures length { IfOk result (λ rows. length rows.items ≡ nodes) }
    ensures wide { IfOk result (λ rows. AreWide columns rows.items) }
    ensures unmarked { IfOk result (λ rows. (i k : ℕ) → ¬ IsMarked (row rows.items i) k) }
{
    let width = columns / 64 + 1;
    let mut rows = Vec::new(alloc);
    for _node in 0..nodes {
        let marks = Marks::blank(alloc, width)?;
        rows.push(marks)?;
    }
    Ok(rows)
}

/// Marks a node in one of the rows.
pub fn mark_at(rows: &mut [Marks], at: usize, node: usize)
    requires at { at < length rows.old }
    requires node { node < 64 * length (row rows.old at) }
    ensures marked { (i k : ℕ) → IsMarked (row rows.new i) k ↔ (IsMarked (row rows.old i) k ⊎ ((i ≡ at) × (k ≡ node))) }
    ensures wide { (n : ℕ) → AreWide n rows.old → AreWide n rows.new }
{
    rows[at].mark(node);
}

/// The rows as columns.
pub fn transposed(alloc: Global, rows: &[Marks]) -> Result<Vec<Marks>, OutOfMemory>
    ensures length { IfOk result (λ turned. length turned.items ≡ length rows.now) }
    ensures wide { IfOk result (λ turned. AreWide (length rows.now) turned.items) }
    ensures turned { IfOk result (λ turned. (i k : ℕ) → IsMarked (row turned.items k) i ↔ ((k < length rows.now) × IsMarked (row rows.now i) k)) }
{
    let mut turned = blank_rows(alloc, rows.len(), rows.len())?;
    turn_all(rows, turned.as_mut_slice());
    Ok(turned)
}

/// Marks in the rows, where nothing is marked, the others as columns.
fn turn_all(rows: &[Marks], turned: &mut [Marks])
    requires length { length turned.old ≡ length rows.now }
    requires wide { AreWide (length rows.now) turned.old }
    requires unmarked { (i k : ℕ) → ¬ IsMarked (row turned.old i) k }
    ensures wide { AreWide (length rows.now) turned.new }
    ensures turned { (i k : ℕ) → IsMarked (row turned.new k) i ↔ ((k < length rows.now) × IsMarked (row rows.now i) k) }
{
    for node in 0..rows.len() {
        turn(&rows[node], node, turned);
    }
}

/// Marks the node in the row of each node that its own row marks.
fn turn(marks: &Marks, node: usize, turned: &mut [Marks])
    requires node { node < length turned.old }
    requires wide { AreWide (length turned.old) turned.old }
    ensures wide { AreWide (length turned.old) turned.new }
    ensures turned { (i k : ℕ) → IsMarked (row turned.new k) i ↔ (IsMarked (row turned.old k) i ⊎ ((i ≡ node) × (k < length turned.old) × IsMarked marks.now k)) }
{
    for k in 0..turned.len() {
        if marks.has(k) {
            mark_at(turned, k, node);
        }
    }
}
