ghost use Rattle.std.specs.Prelude.{◌≡◌, ℕ, List, Ok};
ghost use Rattle.dl_base.specs.Ontologies.{Theory};
ghost use Rattle.triples.specs.declared.meaning.Object as object_type;
ghost use Rattle.triples.specs.declared.meaning.Said as said_type;
ghost use Rattle.triples.specs.Meaning.{said_of, KnowsSaid};

/// A fact that a triple says is over a term of the ontology, of the fact's kind.
pub fn said_is_known()
    ensures { (theory : Theory) (subject predicate : List ℕ) (object : object_type.Object) (said : said_type.Said)
        → said_of theory subject predicate object ≡ Ok said → KnowsSaid theory said }
{}
