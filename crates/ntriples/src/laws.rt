ghost use Rattle.std.specs.Prelude.{◌≡◌, ℕ, List, All, Result, Ok, Err};
ghost use Rattle.dl_base.specs.Ontologies.{Theory, AreNamedOnce};
ghost use Rattle.dl_base.specs.Repeats.{IsOnce};
ghost use Rattle.dl_base.specs.declared.statements.Fact as fact_type;
ghost use Rattle.dl_text.specs.declared.refusals.ReadRefusal as refusal_type;
ghost use Rattle.dl_text.specs.declared.refusals.ReadRefusal.TheVariants as refusals;
ghost use Rattle.ntriples.specs.declared.files.ReadFacts as read_type;
ghost use Rattle.ntriples.specs.Files.{Reads};
ghost use Rattle.ntriples.specs.Printable.{IsPrintable};
ghost use Rattle.ntriples.specs.Printing.{lines};

/// A file is read in one way, but for memory.
pub fn reads_one()
    ensures { (theory : Theory) (bytes : List ℕ) (r s : Result read_type.ReadFacts refusal_type.ReadRefusal) → Reads theory bytes r → Reads theory bytes s
        → (¬ (r ≡ Err refusals.OutOfMemory)) → (¬ (s ≡ Err refusals.OutOfMemory)) → r ≡ s }
{}

/// Facts that are printed are read as those facts, where their names and those of their terms can be read, their values are canonical,
/// no role or attribute is named `rdf:type`, none is of a kind that is skipped, and none stands twice.
pub fn printed_reads()
    ensures { (theory : Theory) (facts : List fact_type.Fact) → AreNamedOnce theory → All (IsPrintable theory) facts → IsOnce facts facts
        → Reads theory (lines theory facts) (Ok (record { facts = facts; skipped = 0 })) }
{}
