ghost use Rattle.std.specs.Prelude.{◌≤◌};

use dl_base::Fact;
use dl_text::ReadKind;

/// What the triples so far say, repeats among it.
#[derive(Debug, Drop)]
pub struct Lists {
    pub inserts: Vec<Fact>,
    pub deletes: Vec<Fact>,
    pub skipped: u64,
    pub triples: usize,
    ghost few: { triples ≤ 10000 },
    ghost fewer: { skipped ≤ triples },
}

/// What the triples so far say, or the refusal of the first that says nothing.
#[derive(Debug, Drop)]
pub enum Gathered {
    Going(Lists),
    Refused { line: u64, kind: ReadKind },
}
