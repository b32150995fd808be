ghost use Rattle.std.specs.Prelude.{◌≡◌, ◌↔◌, ℕ, List, IsTrue, Result, Ok, Err, false};
ghost use Rattle.dl_base.specs.declared.statements.Fact as fact_type;
ghost use Rattle.dl_base.specs.declared.terms.Kind as kind_type;
ghost use Rattle.dl_base.specs.Ontologies.{Theory};
ghost use Rattle.dl_base.specs.declared.names.Value as value_type;
ghost use Rattle.dl_text.specs.Escapes.{Undoes};
ghost use Rattle.dl_text.specs.Iris.{IsIri};
ghost use Rattle.dl_text.specs.Literals.{IsValueOf};
ghost use Rattle.dl_text.specs.declared.escapes.Escapes.TheVariants as escapes;
ghost use Rattle.dl_text.specs.declared.refusals.ReadRefusal as refusal_type;
ghost use Rattle.dl_text.specs.declared.refusals.ReadRefusal.TheVariants as refusals;
ghost use Rattle.owl_read.specs.Documents.{Reads, ReadsOver};
ghost use Rattle.owl_read.specs.Literals.{undone, value_of};
ghost use Rattle.owl_read.specs.Scopes.{Naming, is_iri};

/// A text has one answer at most, but for memory: what is read of it is one, and no text is both read and refused.
pub fn reads_one()
    ensures { (bytes : List ℕ) (r s : Result (Theory × List fact_type.Fact × ℕ) refusal_type.ReadRefusal) → Reads bytes r → Reads bytes s
        → (¬ (r ≡ Err refusals.OutOfMemory)) → (¬ (s ≡ Err refusals.OutOfMemory)) → r ≡ s }
{}

/// The same over the terms of a base.
pub fn reads_over_one()
    ensures { (terms : List (List ℕ × kind_type.Kind)) (bytes : List ℕ) (r s : Result (Theory × List fact_type.Fact × ℕ) refusal_type.ReadRefusal)
        → ReadsOver terms bytes r → ReadsOver terms bytes s
        → (¬ (r ≡ Err refusals.OutOfMemory)) → (¬ (s ≡ Err refusals.OutOfMemory)) → r ≡ s }
{}

/// The tests in the definitions say what the definitions of IRIs, escapes and values do.
pub fn tests_agree()
    ensures iri { (text : List ℕ) → IsTrue (is_iri text) ↔ IsIri text }
    ensures escapes { (raw text : List ℕ) → Undoes escapes.Owl raw text → text ≡ undone false raw }
    ensures value { (s : Naming) (line : ℕ) (raw datatype tag : List ℕ) (value : value_type.Value) → IsValueOf (undone false raw) datatype tag value
        → value_of s line raw datatype tag ≡ Ok (s, value) }
{}
