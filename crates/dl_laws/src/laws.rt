ghost use Rattle.std.specs.Prelude.{◌≡◌, ◌⊎◌, ◌↔◌, ◌∷◌, [], List, Contains};
ghost use Rattle.dl_base.specs.Clash.{HasClash};
ghost use Rattle.dl_base.specs.Derivation as derivation;
ghost use Rattle.dl_base.specs.Derivation.{Derived};
ghost use Rattle.dl_base.specs.declared.axioms.Axiom as axiom_type;
ghost use Rattle.dl_base.specs.declared.statements.Fact as fact_type;
ghost use Rattle.dl_base.specs.declared.terms.Basic as basic_type;
ghost use Rattle.dl_base.specs.declared.terms.Basic.TheVariants as basic;
ghost use Rattle.dl_base.specs.declared.terms.RoleSide.TheVariants.{Direct};
ghost use Rattle.dl_base.specs.declared.terms.Term as term_type;
ghost use Rattle.dl_laws.specs.Rows.{Leads, Start, row, starts, subject, concept};
ghost use Rattle.dl_laws.specs.Emptiness.{IsUnsatisfiable, IsEmptyConcept, IsEmptyRole, IsEmptyAttr, Collide};

/// A row is derived from facts exactly where a start row of one of them leads to it.
pub fn derived_from_one_row()
    ensures { (axioms : List axiom_type.Axiom) (facts : List fact_type.Fact) (r : derivation.Row) → Derived axioms facts r
        ↔ ((f : fact_type.Fact) × (s : Start) × Contains facts f × Contains (starts f) s × Leads axioms (row s) r) }
{}

/// A predicate is empty exactly where reachability shows it: who has it needs something that contradicts the axioms.
pub fn emptiness_by_reachability()
    ensures concepts { (axioms : List axiom_type.Axiom) (b : basic_type.Basic) → IsEmptyConcept axioms b ↔ IsUnsatisfiable axioms b }
    ensures roles { (axioms : List axiom_type.Axiom) (p : term_type.Term) → IsEmptyRole axioms p ↔ IsUnsatisfiable axioms (basic.Exists (Direct p)) }
    ensures attrs { (axioms : List axiom_type.Axiom) (u : term_type.Term) → IsEmptyAttr axioms u ↔ IsUnsatisfiable axioms (basic.Domain u) }
{}

/// A fact by itself has a clash exactly where one of its start rows is impossible or two collide.
pub fn clash_of_one_fact()
    ensures { (axioms : List axiom_type.Axiom) (f : fact_type.Fact) → HasClash axioms (f ∷ [])
        ↔ ((s t : Start) × Contains (starts f) s × Contains (starts f) t × (IsUnsatisfiable axioms (concept s) ⊎ Collide axioms s t)) }
{}

/// Two facts without a clash of their own have one together exactly where a start row of the one and one of the other collide. These are of one named individual.
pub fn clash_of_two_facts()
    ensures clash { (axioms : List axiom_type.Axiom) (f g : fact_type.Fact) → ¬ HasClash axioms (f ∷ []) → ¬ HasClash axioms (g ∷ [])
        → HasClash axioms (f ∷ g ∷ [])
        ↔ ((s t : Start) × Contains (starts f) s × Contains (starts g) t × (Collide axioms s t ⊎ Collide axioms t s)) }
    ensures shared { (axioms : List axiom_type.Axiom) (s t : Start) → Collide axioms s t → subject s ≡ subject t }
{}
