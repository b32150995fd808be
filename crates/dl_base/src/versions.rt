ghost use Rattle.std.specs.Prelude.{◌≡◌, ◌∷◌, [], ◌↔◌, ◌++◌, List, Contains, IfOk, length};
ghost use Rattle.dl_base.specs.declared.statements.Fact as fact_type;
ghost use Rattle.dl_base.specs.Changing.{Fits, IsChanged, IsTrimmed};
ghost use Rattle.dl_base.specs.FactOrder.{AreSorted};

use crate::fact_sets::FactSet;
use crate::memory::OutOfMemory;
use crate::requests::Changed;
use crate::statements::Fact;
use std::alloc::Global;

/// A set of facts that can have several owners, and be changed into another.
pub trait Versions: FactSet + Sized {
    /// The lists of its layers, the last of which is its facts.
    ghost layers: { Self → List (List fact_type.Fact) };

    /// The facts, repeats dropped: one layer.
    fn of(alloc: Global, facts: Vec<Fact>) -> Result<Self, OutOfMemory>
        ensures same { IfOk result (λ it. (f : fact_type.Fact) → Contains (Self.facts it) f ↔ Contains facts.items f) }
        ensures sorted { IfOk result (λ it. AreSorted (Self.facts it)) }
        ensures one { IfOk result (λ it. layers it ≡ Self.facts it ∷ []) };

    /// The set after the changes, of which each added fact isn't held and each removed one is. Its layers are the last of those before, and
    /// the new list.
    fn with_change(&self, alloc: Global, changed: &[Changed]) -> Result<Self, OutOfMemory>
        requires fits { Fits (Self.facts self.now) changed.now }
        ensures changed { IfOk result (λ it. IsChanged (Self.facts self.now) changed.now (Self.facts it)) }
        ensures sorted { IfOk result (λ it. AreSorted (Self.facts it)) }
        ensures trimmed { IfOk result (λ it. IsTrimmed (layers self.now) (Self.facts it) (layers it)) };

    /// One more owner of the same set.
    fn share(&self) -> Result<Self, OutOfMemory>
        ensures same { IfOk result (λ it. Self.facts it ≡ Self.facts self.now) }
        ensures layers { IfOk result (λ it. layers it ≡ layers self.now) };

    /// How many facts it has.
    fn count(&self) -> usize
        ensures count { result ≡ length (Self.facts self.now) }
        ensures sorted { AreSorted (Self.facts self.now) };

    /// All facts in order.
    fn all(&self, alloc: Global) -> Result<Vec<Fact>, OutOfMemory>
        ensures all { IfOk result (λ all. all.items ≡ Self.facts self.now) }
        ensures sorted { AreSorted (Self.facts self.now) };

    /// The last layer is the facts.
    ghost last: { (s : Self) → (before : List (List fact_type.Fact)) × (layers s ≡ before ++ Self.facts s ∷ []) };
}
