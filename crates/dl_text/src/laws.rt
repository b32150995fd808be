ghost use Rattle.std.specs.Prelude.{◌≡◌, ◌≢◌, ◌↔◌, ℕ, List, Bool, MatchOption, Option, Result};
ghost use Rattle.std.specs.Str.{encode_utf8_all, IsUtf8, IsValidUpTo};
ghost use Rattle.dl_base.specs.declared.names.Value as value_type;
ghost use Rattle.dl_text.specs.declared.faults.TextFault as fault_type;
ghost use Rattle.dl_text.specs.declared.faults.TextFault.TheVariants as faults;
ghost use Rattle.dl_text.specs.declared.escapes.Escapes as escapes_type;
ghost use Rattle.dl_text.specs.declared.escapes.Escapes.TheVariants as escapes;
ghost use Rattle.dl_text.specs.Escapes.{Undoes};
ghost use Rattle.dl_text.specs.Iris.{IsIri};
ghost use Rattle.dl_text.specs.Literals.{IsValueOf, ReadsValue};
ghost use Rattle.dl_text.specs.Outcomes.{ReadsIri, ReadsString};
ghost use Rattle.dl_text.specs.Prefixes.{Bindings, iri_of, with_prefix, Resolves};
ghost use Rattle.dl_text.specs.Printing.{written};

/// What is written for a text stands for that text.
pub fn written_reads()
    ensures { (text : List ℕ) → Undoes escapes.Full (written text) text }
{}

/// A reader of IRIs has one answer at most, but for memory.
pub fn iri_one()
    ensures { (wants : Bool) (raw : List ℕ) (r s : Result (List ℕ) fault_type.TextFault) → ReadsIri wants raw r → ReadsIri wants raw s
        → (¬ (r ≡ Err faults.OutOfMemory)) → (¬ (s ≡ Err faults.OutOfMemory)) → r ≡ s }
{}

/// A reader of strings has one answer at most, but for memory.
pub fn string_one()
    ensures { (rule : escapes_type.Escapes) (raw : List ℕ) (r s : Result (List ℕ) fault_type.TextFault) → ReadsString rule raw r → ReadsString rule raw s
        → (¬ (r ≡ Err faults.OutOfMemory)) → (¬ (s ≡ Err faults.OutOfMemory)) → r ≡ s }
{}

/// A prefixed name has one answer at most, but for memory.
pub fn resolve_one()
    ensures { (bindings : Bindings) (prefix raw : List ℕ) (wants : Bool) (r s : Result (List ℕ) fault_type.TextFault)
        → Resolves bindings prefix raw wants r → Resolves bindings prefix raw wants s
        → (¬ (r ≡ Err faults.OutOfMemory)) → (¬ (s ≡ Err faults.OutOfMemory)) → r ≡ s }
{}

/// A literal has one answer at most, but for memory.
pub fn value_one()
    ensures { (text datatype tag : List ℕ) (r s : Result value_type.Value fault_type.TextFault)
        → ReadsValue text datatype tag r → ReadsValue text datatype tag s
        → (¬ (r ≡ Err faults.OutOfMemory)) → (¬ (s ≡ Err faults.OutOfMemory)) → r ≡ s }
{}

/// A literal's value is the value of its own text, datatype and tag.
pub fn value_again()
    ensures { (text datatype tag : List ℕ) (value : value_type.Value) → IsValueOf text datatype tag value
        → IsValueOf value.text value.datatype value.tag value }
{}

/// The rule of IRIs says the same of the bytes of a text as of its characters.
pub fn iri_characters()
    ensures { (characters : List ℕ) → IsIri (encode_utf8_all characters) ↔ IsIri characters }
{}

/// A prefix that was set stands for its IRI, and the others for what they stood for.
pub fn prefix_stands()
    ensures here { (bindings : Bindings) (prefix iri : List ℕ) → iri_of (with_prefix bindings prefix iri) prefix ≡ Some iri }
    ensures others { (bindings : Bindings) (prefix iri other : List ℕ) → other ≢ prefix
        → iri_of (with_prefix bindings prefix iri) other ≡ iri_of bindings other }
{}

/// The first place that isn't UTF-8 is one, and text has none.
pub fn utf8_one()
    ensures { (bytes : List ℕ) (r s : Option ℕ) → MatchOption r (IsUtf8 bytes) (IsValidUpTo bytes)
        → MatchOption s (IsUtf8 bytes) (IsValidUpTo bytes) → r ≡ s }
{}
