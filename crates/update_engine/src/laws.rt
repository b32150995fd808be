//! Laws over the answers: each function's contract is a law, and its body is empty.
ghost use Rattle.std.specs.Prelude.{◌≡◌, List};
ghost use Rattle.dl_base.specs.Clash.{HasClash};
ghost use Rattle.dl_base.specs.Updates.{IsIllFormed};
ghost use Rattle.dl_base.specs.declared.axioms.Axiom as axiom_type;
ghost use Rattle.dl_base.specs.declared.statements.Fact as fact_type;
ghost use Rattle.update_engine.specs.declared.clashes.Clash as clash_type;
ghost use Rattle.update_engine.specs.declared.judging.IllFormed as ill_formed_type;
ghost use Rattle.update_engine.specs.Judging.{IsClash, IsNamed};

/// Facts with a named clash have one, and it has one name.
pub fn clash_has_one_name()
    ensures clash { (axioms : List axiom_type.Axiom) (facts : List fact_type.Fact) (one : clash_type.Clash) → IsClash axioms facts one → HasClash axioms facts }
    ensures one { (axioms : List axiom_type.Axiom) (facts : List fact_type.Fact) (one other : clash_type.Clash)
        → IsClash axioms facts one → IsClash axioms facts other → one ≡ other }
{}

/// A request with a name for what contradicts itself is ill-formed, and it has one such name.
pub fn ill_formed_has_one_name()
    ensures ill_formed { (axioms : List axiom_type.Axiom) (inserts deletes : List fact_type.Fact) (one : ill_formed_type.IllFormed)
        → IsNamed axioms inserts deletes one → IsIllFormed axioms inserts deletes }
    ensures one { (axioms : List axiom_type.Axiom) (inserts deletes : List fact_type.Fact) (one other : ill_formed_type.IllFormed)
        → IsNamed axioms inserts deletes one → IsNamed axioms inserts deletes other → one ≡ other }
{}
