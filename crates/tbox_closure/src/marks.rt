ghost use Rattle.std.specs.Prelude.{◌≡◌, ◌<◌, ◌≤◌, ◌↔◌, ◌⊎◌, ◌*◌, ◌/◌, [], ℕ, IsTrue, IfOk, false, length};
ghost use Rattle.tbox_closure.specs.Marks.{IsMarked, IsUnion, spare};

use dl_base::OutOfMemory;
use std::alloc::Global;
use std::marker::Model;

/// A bit for each node.
#[derive(Drop)]
pub struct Marks {
    words: Vec<u64>,
}

impl Model for Marks {
    ghost use Rattle.std.specs.Prelude.{List, ℕ};

    ghost Value = { List ℕ };

    ghost view = { λ m. m.words.items };
}

impl Marks {
    /// A row of no words. It takes no memory.
    pub fn none(alloc: Global) -> Marks
        ensures { result ≡ [] }
    {
        Marks {
            words: Vec::new(alloc),
        }
    }

    /// A row of so many words without marks.
    pub fn blank(alloc: Global, width: usize) -> Result<Marks, OutOfMemory>
        ensures unmarked { IfOk result (λ marks. (k : ℕ) → ¬ IsMarked marks k) }
        ensures width { IfOk result (λ marks. length marks ≡ width) }
    {
        let words = vec![in alloc; 0u64; width]?;
        Ok(Marks { words })
    }

    pub fn has(&self, node: usize) -> bool
        ensures { IsTrue result ↔ IsMarked self.now node }
    {
        match self.words.get(node / 64) {
            Some(word) => (*word >> (node % 64)) & 1 == 1,
            None => false,
        }
    }

    /// The first word from this one on that has a mark, or the number of words. A word has the marks of 64 nodes.
    pub fn next_word(&self, from: usize) -> usize
        ensures { (k : ℕ) → from ≤ k / 64 → k / 64 < result → ¬ IsMarked self.now k }
    {
        for place in from..self.words.len() {
            if self.words[place] != 0 {
                return place;
            }
        }
        self.words.len()
    }

    /// The mark of one node alone.
    pub fn of(alloc: Global, node: usize, width: usize) -> Result<Marks, OutOfMemory>
        requires { node < width * 64 }
        ensures marked { IfOk result (λ marks. (k : ℕ) → IsMarked marks k ↔ k ≡ node) }
        ensures width { IfOk result (λ marks. length marks ≡ width) }
    {
        let mut words = vec![in alloc; 0u64; width]?;
        words[node / 64] |= 1u64 << (node % 64);
        Ok(Marks { words })
    }

    /// Marks the node too.
    pub fn mark(&mut self, node: usize)
        requires { node < 64 * length self.old }
        ensures marked { (k : ℕ) → IsMarked self.new k ↔ (k ≡ node ⊎ IsMarked self.old k) }
        ensures width { length self.new ≡ length self.old }
    {
        let place = node / 64;
        let word = self.words[place];
        self.words[place] = word | (1u64 << (node % 64));
    }

    /// Adds the marks of the other. Answers whether that changed any.
    pub fn add(&mut self, other: &Marks) -> bool
        requires { length other.now ≡ length self.old }
        ensures same { result ≡ false → self.new ≡ self.old }
        ensures union { IsUnion self.new self.old other.now }
        ensures width { length self.new ≡ length self.old }
        ensures fewer { IsTrue result → spare self.new < spare self.old }
    {
        unite(self.words.as_mut_slice(), other.words.as_slice())
    }
}

/// Adds the marks of the one row to the other. Answers whether that changed.
fn unite(into: &mut [u64], from: &[u64]) -> bool
    requires { length from.now ≡ length into.old }
    ensures same { result ≡ false → into.new ≡ into.old }
    ensures union { IsUnion into.new into.old from.now }
    ensures fewer { IsTrue result → spare into.new < spare into.old }
{
    let mut changed = false;
    for k in 0..into.len() {
        let word = into[k] | from[k];
        if word != into[k] {
            into[k] = word;
            changed = true;
        }
    }
    changed
}
