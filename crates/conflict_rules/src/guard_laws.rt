ghost use Rattle.std.specs.Prelude.{◌↔◌, ◌∷◌, [], List};
ghost use Rattle.dl_base.specs.Clash.{HasClash};
ghost use Rattle.dl_base.specs.declared.axioms.Axiom as axiom_type;
ghost use Rattle.dl_base.specs.declared.statements.Fact as fact_type;
ghost use Rattle.std.specs.Prelude.{◌≡◌};
ghost use Rattle.dl_base.specs.Validity.{IsValid};
ghost use Rattle.dl_base.specs.declared.terms.RoleSide as side_type;
ghost use Rattle.dl_base.specs.declared.terms.Term as term_type;
ghost use Rattle.dl_laws.specs.Meeting.{ShareFunctionalRole, ShareFunctionalAttr};
ghost use Rattle.conflict_rules.specs.Guards.{IsGuarded};

/// Of facts without a clash of their own, those that clash with a fact are those that a guard of it asks for.
pub fn guards_are_exact()
    ensures { (axioms : List axiom_type.Axiom) (f g : fact_type.Fact) → ¬ HasClash axioms (f ∷ []) → ¬ HasClash axioms (g ∷ [])
        → IsGuarded axioms f g ↔ HasClash axioms (f ∷ g ∷ []) }
{}

/// Under a valid ontology a guard for another partner or another value is of the fact's own role or attribute, from the same side.
pub fn functional_guards_are_their_own()
    ensures roles { (axioms : List axiom_type.Axiom) (q r : side_type.RoleSide) → IsValid axioms → ShareFunctionalRole axioms q r → q ≡ r }
    ensures attrs { (axioms : List axiom_type.Axiom) (u w : term_type.Term) → IsValid axioms → ShareFunctionalAttr axioms u w → u ≡ w }
{}
