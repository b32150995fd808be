ghost use Rattle.std.specs.Prelude.{◌≡◌, ℕ, List, Result, Err};
ghost use Rattle.dl_base.specs.Ontologies.{Theory};
ghost use Rattle.dl_text.specs.declared.refusals.ReadRefusal as refusal_type;
ghost use Rattle.dl_text.specs.declared.refusals.ReadRefusal.TheVariants as refusals;
ghost use Rattle.update_read.specs.declared.reading.ReadUpdate as update_type;
ghost use Rattle.update_read.specs.Outcomes.{ReadsUpdate};

/// A text has one answer at most under an ontology, but for memory: no text has two updates, and none is both read and refused.
pub fn reads_one()
    ensures { (theory : Theory) (bytes : List ℕ) (r s : Result update_type.ReadUpdate refusal_type.ReadRefusal)
        → ReadsUpdate theory bytes r → ReadsUpdate theory bytes s
        → (¬ (r ≡ Err refusals.OutOfMemory)) → (¬ (s ≡ Err refusals.OutOfMemory)) → r ≡ s }
{}
