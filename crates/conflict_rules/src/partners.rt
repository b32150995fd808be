ghost use Rattle.std.specs.Prelude.{◌<◌, ◌≤◌, ◌≢◌, ℕ, List, length};
ghost use Rattle.dl_base.specs.declared.patterns.Pattern as pattern_type;
ghost use Rattle.dl_base.specs.declared.names.Value as value_type;
ghost use Rattle.dl_base.specs.declared.terms.Term as term_type;
ghost use Rattle.conflict_rules.specs.AttrGuards.{IsAttrGuardAt};
ghost use Rattle.conflict_rules.specs.Counts.{HasNoGuard, IsGuardAt};
ghost use Rattle.conflict_rules.specs.RoleGuards.{IsKindGuardAt};

use crate::conflicts::Conflicts;
use dl_base::{Basic, RoleSide, Term};

// Terms are passed over whose facts clash with no fact of the given one, so that a fact costs the terms that can contradict it, and not all.
impl Conflicts {
    /// The next term from this one on whose facts may contradict that someone is in the concept, or the number of terms.
    pub(crate) fn next_of_concept(&self, concept: Basic, from: usize) -> usize
        requires { from ≤ length self.now.terms }
        ensures later { from ≤ result }
        ensures within { result ≤ length self.now.terms }
        ensures passed { (a : List ℕ) → HasNoGuard (IsGuardAt self.now.axioms a concept) from result }
    {
        self.next_disjoint(concept, from).min(self.terms())
    }

    /// The next term from this one on whose facts may contradict a fact of the role, or the number of terms.
    pub(crate) fn next_of_role(&self, role: Term, from: usize) -> usize
        requires { from ≤ length self.now.terms }
        ensures later { from ≤ result }
        ensures within { result ≤ length self.now.terms }
        ensures passed { (a b : List ℕ) → HasNoGuard (IsKindGuardAt self.now role a b) from result }
    {
        let _terms = self.terms();
        let direct = RoleSide::Direct(role);
        let inverse = RoleSide::Inverse(role);
        let starts = self.next_of_concept(Basic::Exists(direct), from);
        let ends = self.next_of_concept(Basic::Exists(inverse), from);
        let forward = self.next_disjoint_role(direct, from);
        let backward = self.next_disjoint_role(inverse, from);
        nearest(role, from, starts.min(ends).min(forward).min(backward))
    }

    /// The next term from this one on whose facts may contradict a fact of the attribute, or the number of terms.
    pub(crate) fn next_of_attr(&self, attr: Term, from: usize) -> usize
        requires { from ≤ length self.now.terms }
        ensures later { from ≤ result }
        ensures within { result ≤ length self.now.terms }
        ensures passed { (a : List ℕ) (v : value_type.Value) → HasNoGuard (IsAttrGuardAt self.now.axioms attr a v) from result }
    {
        let _terms = self.terms();
        let subjects = self.next_of_concept(Basic::Domain(attr), from);
        nearest(
            attr,
            from,
            subjects.min(self.next_disjoint_attr(attr, from)),
        )
    }
}

/// The nearer one of the next term and the given term itself, which is passed over only where it stands before.
fn nearest(own: Term, from: usize, next: usize) -> usize
    requires { from ≤ next }
    ensures later { from ≤ result }
    ensures within { result ≤ next }
    ensures passed { (t : term_type.Term) → from ≤ t.0 → t.0 < result → own ≢ t }
{
    let place = own.0 as usize;
    if place < from {
        return next;
    }
    next.min(place)
}
