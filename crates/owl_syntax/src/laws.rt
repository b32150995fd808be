ghost use Rattle.std.specs.Prelude.{◌≡◌, ℕ, List, Result, Err};
ghost use Rattle.dl_text.specs.declared.refusals.ReadRefusal as refusal_type;
ghost use Rattle.dl_text.specs.declared.refusals.ReadRefusal.TheVariants as refusals;
ghost use Rattle.owl_syntax.specs.Trees as trees;
ghost use Rattle.owl_syntax.specs.Outcomes.{Parses};

/// A text has one answer at most, but for memory: two trees of one text are equal, and no text is both read and refused.
pub fn parses_one()
    ensures { (bytes : List ℕ) (r s : Result trees.Content refusal_type.ReadRefusal) → Parses bytes r → Parses bytes s
        → (¬ (r ≡ Err refusals.OutOfMemory)) → (¬ (s ≡ Err refusals.OutOfMemory)) → r ≡ s }
{}
